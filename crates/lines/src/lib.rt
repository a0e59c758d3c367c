// The lines of the listing (document 01, "Trace and listing"), laid into lent memory.
#![tactic(auto)]

ghost use Rattle.std.specs.Prelude.{◌+◌, ◌≤◌, length};
ghost use Rattle.text.specs.Pages.{Puts};
ghost use Rattle.lines.specs.Lines.{title_line, record_line, stop_line, end_line, pair_line};

use text::Page;

// The title.
pub fn title(page: &mut Page)
    requires { page.old.at + 5 ≤ length page.old.out.now }
    ensures { Puts title_line page.old page.new }
{
    page.words(b"mm 1\n");
}

// Two numbers, each behind a blank, and the end of the line.
#[tactic(auto, using(text::proofs::Laws::digits_length))]
fn pair(page: &mut Page, a: u64, b: u64)
    requires { page.old.at + 43 ≤ length page.old.out.now }
    ensures { Puts (pair_line a b) page.old page.new }
{
    page.next_number(a);
    page.next_number(b);
    page.octet(b'\n');
}

// A record's number, its answer and the detail.
#[tactic(auto, using(text::proofs::Laws::digits_length))]
pub fn record_line(page: &mut Page, number: u64, answer: u64, detail: u64)
    requires { page.old.at + 63 ≤ length page.old.out.now }
    ensures { Puts (record_line number answer detail) page.old page.new }
{
    page.number(number);
    pair(page, answer, detail);
}

// A refused record: its number and the refusal.
pub fn stop_line(page: &mut Page, number: u64, refusal: u64)
    requires { page.old.at + 47 ≤ length page.old.out.now }
    ensures { Puts (stop_line number refusal) page.old page.new }
{
    page.words(b"stop");
    pair(page, number, refusal);
}

// The counters, in document 01's order.
#[tactic(auto, using(text::proofs::Laws::digits_length))]
pub fn end_line(page: &mut Page, errors: u64, delimiters: u64, assembled: u64, fragments: u64)
    requires { page.old.at + 88 ≤ length page.old.out.now }
    ensures { Puts (end_line errors delimiters assembled fragments) page.old page.new }
{
    page.words(b"end");
    page.next_number(errors);
    page.next_number(delimiters);
    pair(page, assembled, fragments);
}

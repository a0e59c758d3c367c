// What mmholds lists of a gate control list, as lines laid into lent memory.
#![tactic(auto)]

ghost use Rattle.std.specs.Prelude.{◌+◌, ◌*◌, ◌≤◌, length};
ghost use Rattle.text.specs.Text.{Put};
ghost use Rattle.text.specs.Pages.{Puts};
ghost use Rattle.hold_lines.specs.HoldLines.{word_line, event_line, event_lines, cycle_line, all_lines};

use text::Page;

// The operation of an event that is a hold; that of a release is 2.
const HOLD: u64 = 1;

// What happens, behind a blank, and the end of the line.
fn word_line(page: &mut Page, operation: u64)
    requires { page.old.at + 9 ≤ length page.old.out.now }
    ensures { Puts (word_line operation) page.old page.new }
{
    if operation == HOLD {
        page.words(b" hold\n");
    } else {
        page.words(b" release\n");
    }
}

// An event: when, in nanoseconds from the cycle's start, and what happens.
#[tactic(auto, using(text::proofs::Laws::digits_length))]
fn event_line(page: &mut Page, time: u64, operation: u64)
    requires { page.old.at + 29 ≤ length page.old.out.now }
    ensures { Puts (event_line time operation) page.old page.new }
{
    page.number(time);
    word_line(page, operation);
}

// The events in their order.
fn event_lines(page: &mut Page, events: &[[u64; 2]])
    requires { page.old.at + length events.now * 29 ≤ length page.old.out.now }
    ensures { Puts (event_lines events.now) page.old page.new }
{
    for event in events {
        event_line(page, event[0], event[1]);
    }
}

// The length of the cycle in nanoseconds.
#[tactic(auto, using(text::proofs::Laws::digits_length))]
fn cycle_line(page: &mut Page, cycle: u64)
    requires { page.old.at + 27 ≤ length page.old.out.now }
    ensures { Puts (cycle_line cycle) page.old page.new }
{
    page.words(b"cycle ");
    page.number(cycle);
    page.octet(b'\n');
}

// A line for each event, of 29 octets at most, and the last one, of 27 at most; how many octets they are. An event is its time and its operation.
#[tactic(auto, using(crate::proofs::Laws::events_length))]
pub fn all_lines(events: &[[u64; 2]], cycle: u64, out: &mut [u8]) -> usize
    requires { length events.now * 29 + 27 ≤ length out.old }
    ensures { Put (all_lines events.now cycle) 0 out.old result out.new }
{
    let mut page = Page { out, at: 0 };
    event_lines(&mut page, events);
    cycle_line(&mut page, cycle);
    page.at
}

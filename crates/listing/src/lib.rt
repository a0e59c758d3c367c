// What a record of the trace makes (document 01, "Trace and listing"): a call of the receiver, and the line of its answer.
#![tactic(auto)]

ghost use Rattle.std.specs.Prelude.{◌+◌, ◌≤◌, length};
ghost use Rattle.listing.specs.Lists.{Lists};

use receiver_record::Record;
use text::Page;

// One record of the trace, given to the receiver, and its line on the page: the receiving record after it.
#[tactic(auto, using(crate::proofs::Laws::line_as))]
pub fn list(
    page: &mut Page,
    number: u64,
    content: &[u8],
    record: Record,
    buffer: &mut [u8],
) -> Record
    requires { page.old.at + 63 ≤ length page.old.out.now }
    ensures { Lists number content.now «record» buffer.old page.old result buffer.new page.new }
{
    let got = receive::receive(content, record, buffer);
    let answer = got.answer;
    lines::record_line(
        page,
        number,
        u64::from(answer.number()),
        answer.detail() as u64,
    );
    got.after
}

// The end of an mFrame that came octet by octet: what the first receiver answers to all its octets.
ghost use Rattle.std.specs.Prelude.{◌≡◌, false, ◌≤◌, length};
ghost use Rattle.receiver_answers.specs.Answers.{refused};
ghost use Rattle.receive.specs.Receive.{Answered};
ghost use Rattle.stream.specs.Stream.{most, unsound, runs_over, long_of, heard};

use crate::State;
use faults::Fault;
use mframe::BODY_MOST;
use outcomes::Received;
use receiver_answers::{Answer, Refusal};
use receiver_record::Record;

// Whether an mFrame runs over: more octets came than the kept ones, behind a head that these do not refuse. Whichever they are, they are too many.
pub fn runs_over(more: bool, kept: &[u8]) -> bool
    ensures { result ≡ runs_over more kept.now }
{
    more && heads::is_known(kept)
}

// An mFrame that runs over: nothing changes.
fn too_long(record: Record, room: usize) -> Refusal
    ensures { refused result ≡ long_of «record» room }
{
    if room < BODY_MOST {
        return Refusal::Buffer;
    }
    if record.in_range() {
        return Refusal::Head(Fault::Long);
    }
    Refusal::Record
}

pub(crate) fn end(state: State, area: &[u8], record: Record, buffer: &mut [u8]) -> Received
    requires { (most ≤ length area.now) × (unsound state ≡ false) }
    ensures { Answered (heard state area.now) «record» buffer.old result buffer.new }
{
    let kept = &area[0..state.count as usize];
    if runs_over(state.more, kept) {
        return Received {
            answer: Answer::Refused(too_long(record, buffer.len())),
            after: record,
        };
    }
    // Also where there were more: the octets kept have the head refused for all of them.
    receive::receive(kept, record, buffer)
}

// What an mFrame of known kind does to the receiving record (document 01, "Receiving" and "Counters"). All of it is by value: memory is
// lent to the crate above.
#![tactic(auto)]

ghost use Rattle.std.specs.Prelude.{◌≡◌, false};
ghost use Rattle.receiver_answers.specs.Answers.{said};
ghost use Rattle.outcomes.specs.Outcomes.{told, delimiter_error};
ghost use Rattle.assembly.specs.Steps.{express_of, heard_of, step_of};

use endings::Ending;
use mframe::Kind;
use outcomes::Received;
use receiver_answers::{Answer, Drop};
use receiver_record::Record;

fn express(ending: Ending, record: Record) -> Received
    ensures { told result ≡ express_of ending «record» }
{
    match ending {
        Ending::Done(n) => Received {
            answer: Answer::Express(n),
            after: record,
        },
        Ending::More(_, _) | Ending::Damaged => Received {
            answer: Answer::Dropped(Drop::Express),
            after: record,
        },
    }
}

// V or R, with the answer where it is heard, which is no delimiter error.
fn heard(answer: Answer, ending: Ending, record: Record) -> Received
    requires { delimiter_error (said answer).number ≡ false }
    ensures { told result ≡ heard_of (said answer) ending «record» }
{
    match ending {
        Ending::More(_, _) => Received {
            answer,
            after: record,
        },
        Ending::Done(_) | Ending::Damaged => Received {
            answer: Answer::Dropped(Drop::Heard),
            after: record,
        },
    }
}

// An mFrame by its kind, its data and check octets. No octet is summed twice, and none of a continuation that fails 22, 23 or 24.
pub fn decide(kind: Kind, octets: &[u8], record: Record) -> Received
    ensures { told result ≡ step_of kind octets.now «record» }
{
    match kind {
        Kind::Express => express(endings::judge(crc::ALL_ONES, octets), record),
        Kind::Start(frame) => starting::start(frame, endings::judge(crc::ALL_ONES, octets), record),
        Kind::Continuation(frame, fragment) => continuing::continuation(
            frame, fragment, octets, record,
        ),
        Kind::Verify => heard(
            Answer::VerifyHeard,
            endings::judge(crc::ALL_ONES, octets),
            record,
        ),
        Kind::Respond => heard(
            Answer::RespondHeard,
            endings::judge(crc::ALL_ONES, octets),
            record,
        ),
    }
}

// What a start does to the receiving record (document 01, "Receiving"): it opens a fresh assembly. All of it is by value.
#![tactic(auto)]

ghost use Rattle.std.specs.Prelude.{◌≡◌};
ghost use Rattle.outcomes.specs.Outcomes.{told};
ghost use Rattle.starting.specs.Starting.{start_of};

use codes::{FragmentCount, FrameCount};
use endings::Ending;
use outcomes::Received;
use receiver_answers::{Answer, Drop};
use receiver_record::Record;

// A start opens a fresh assembly; one still open is abandoned first.
pub fn start(frame: FrameCount, ending: Ending, record: Record) -> Received
    ensures { told result ≡ start_of frame ending «record» }
{
    let lost = u32::from(record.assembling);
    match ending {
        Ending::Done(n) => Received {
            answer: Answer::Delivered(n),
            after: Record::shut(record.counters.erred(lost)),
        },
        Ending::More(n, running) => Received {
            answer: Answer::Kept(n),
            after: Record {
                assembling: true,
                frame,
                fragment: FragmentCount::ZERO,
                kept: n,
                running,
                counters: record.counters.erred(lost),
            },
        },
        Ending::Damaged => Received {
            answer: Answer::Dropped(Drop::Damaged),
            after: Record::shut(record.counters.erred(lost + 1)),
        },
    }
}

// An answer together with the record after it (document 01, "Receiving" and "Counters"): what leaves the assembly as it is, and what
// abandons it. All of it is by value.
#![tactic(auto)]

ghost use Rattle.std.specs.Prelude.{◌≡◌};
ghost use Rattle.receiver_answers.specs.Answers.{said, dropped, refused};
ghost use Rattle.receiver_answers.specs.declared.Refusal.TheVariants.{Head};
ghost use Rattle.outcomes.specs.Outcomes.{told, is_stray, strays, unchanged, abandoned};

use faults::Fault;
use receiver_answers::{Answer, Drop, Refusal};
use receiver_record::Record;

// An answer and the record to keep. Where nothing changes, that is the record as it was.
#[derive(Clone, Copy)]
pub struct Received {
    pub answer: Answer,
    pub after: Record,
}

// An answer that leaves the assembly as it is, and is a delimiter error.
pub fn strayed(answer: Answer, record: Record) -> Received
    ensures { told result ≡ strays (said answer) «record» }
{
    Received {
        answer,
        after: Record {
            counters: record.counters.strayed(),
            ..record
        },
    }
}

// A drop that abandons the assembly.
pub fn abandoned(why: Drop, record: Record) -> Received
    ensures { told result ≡ abandoned (dropped why) «record» }
{
    Received {
        answer: Answer::Dropped(why),
        after: Record::shut(record.counters.erred(1)),
    }
}

// Whether a refusal by the head is a delimiter error.
fn is_stray(why: Fault) -> bool
    ensures { result ≡ is_stray why }
{
    matches!(why, Fault::Delimiter(_) | Fault::Fragment)
}

// A refusal by the head changes nothing but the delimiter counter.
#[tactic(auto, using(crate::proofs::Strays::stray_numbered))]
pub fn refuse(why: Fault, record: Record) -> Received
    ensures { told result ≡ unchanged (refused (Head why)) «record» }
{
    let answer = Answer::Refused(Refusal::Head(why));
    if is_stray(why) {
        return strayed(answer, record);
    }
    Received {
        answer,
        after: record,
    }
}

// What an event of link verification is answered (document 01, "Verification", and document 02, (v)), with the record after it.
#![tactic(auto)]

ghost use Rattle.std.specs.Prelude.{◌≡◌};
ghost use Rattle.verify_answers.specs.Answers.{number, takes, refuses, told};

use verify_record::Record;

// Why an event is refused: the record is outside its ranges (40), or the wait of an enable is not 1 to 128 (41).
#[derive(Clone, Copy, PartialEq, Eq)]
pub enum Refusal {
    Record,
    Wait,
}

impl Refusal {
    pub fn number(self) -> u32
        ensures { result ≡ number self }
    {
        match self {
            Refusal::Record => 40,
            Refusal::Wait => 41,
        }
    }
}

// Whether a V is ordered, where the event is done.
pub type Answer = Result<bool, Refusal>;

// The answer to an event, and the record after it.
#[derive(Clone, Copy)]
pub struct Stepped {
    pub answer: Answer,
    pub after: Record,
}

// An event that is taken, with a V ordered or not.
pub fn taken(after: Record, ordered: bool) -> Stepped
    ensures { told result ≡ takes after ordered }
{
    Stepped {
        answer: Ok(ordered),
        after,
    }
}

// An event that is refused.
pub fn refused(why: Refusal, record: Record) -> Stepped
    ensures { told result ≡ refuses (number why) «record» }
{
    Stepped {
        answer: Err(why),
        after: record,
    }
}

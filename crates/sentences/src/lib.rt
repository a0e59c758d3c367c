// What programs say of a refused record of a trace.
#![tactic(auto)]

ghost use Rattle.std.specs.Prelude.{Some};
ghost use Rattle.sentences.specs.Sentences.{refused_text};

use std::fmt;
use trace::Refusal;

// A refused record of a trace: its number, and why.
#[derive(Clone, Copy)]
pub struct RefusedRecord {
    pub number: u64,
    pub why: Refusal,
}

impl fmt::Display for RefusedRecord {
    ghost output = { λ r. Some (refused_text r.number r.why) };

    fn fmt<W: fmt::Write>(&self, f: &mut fmt::Formatter<W>) -> fmt::Result {
        let number = self.number;
        match self.why {
            Refusal::Header => write!(
                f,
                "record {number} is cut off: the trace ends inside its header (50)."
            ),
            Refusal::Length => write!(
                f,
                "record {number} says that its content is longer than 1,600 octets (51)."
            ),
            Refusal::Kind => write!(f, "record {number} is of a kind other than 1 (52)."),
            Refusal::Content => write!(
                f,
                "record {number} is cut off: the trace ends inside it (53)."
            ),
        }
    }
}

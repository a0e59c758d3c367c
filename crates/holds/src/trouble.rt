// What can be wrong, and what is said of it on standard error.
use gate_entries::Refusal;
use programs::Unwritten;
use std::fmt;

// Why no list is read, or nothing is listed of it.
#[derive(Clone, Copy)]
pub(crate) enum Trouble {
    // More than one list is named.
    Many,
    Terminal,
    Unopened,
    Unread,
    // Why the list is refused, and at which entry.
    Refused { why: Refusal, entry: u32 },
    Unwritten(Unwritten),
}

impl From<Unwritten> for Trouble {
    fn from(why: Unwritten) -> Trouble {
        Trouble::Unwritten(why)
    }
}

// An entry, and why the list is refused at it.
fn refused<W: fmt::Write>(f: &mut fmt::Formatter<W>, why: Refusal, entry: u32) -> fmt::Result {
    match why {
        Refusal::Cut => write!(f, "entry {entry} is cut off: the list ends inside it (60)."),
        Refusal::Operation => write!(
            f,
            "entry {entry} has an operation other than 0, 1 and 2 (61)."
        ),
        Refusal::Length => write!(f, "entry {entry} has a length other than 5 (62)."),
        Refusal::Many => write!(
            f,
            "entry {entry} is one too many: a list has 256 at most (63)."
        ),
    }
}

impl fmt::Display for Trouble {
    fn fmt<W: fmt::Write>(&self, f: &mut fmt::Formatter<W>) -> fmt::Result {
        match *self {
            Trouble::Many => f.write_str("one list is read at a time, as in: mmholds hall.gates"),
            Trouble::Terminal => f.write_str(
                "a list is read from a file or from standard input, as in: mmholds hall.gates",
            ),
            Trouble::Unopened => f.write_str("the list could not be opened."),
            Trouble::Unread => f.write_str("the list could not be read."),
            Trouble::Refused { why, entry } => refused(f, why, entry),
            Trouble::Unwritten(_) => f.write_str("the events could not be written."),
        }
    }
}

// What is said on standard error: of a trace that is listed no further, once its listing is written, or where there is no listing.
use sentences::RefusedRecord;
use std::fmt;

// Why a trace is listed no further, or not at all.
#[derive(Clone, Copy)]
pub(crate) enum Trouble {
    // The input could not be read.
    Unread,
    Refused(RefusedRecord),
    // No trace is given.
    Missing,
    // The listing could not be written.
    Unwritten,
}

impl fmt::Display for Trouble {
    fn fmt<W: fmt::Write>(&self, f: &mut fmt::Formatter<W>) -> fmt::Result {
        match self {
            Trouble::Unread => f.write_str("the trace could not be read."),
            Trouble::Refused(record) => write!(f, "{record}"),
            Trouble::Missing => {
                f.write_str("a trace is read on standard input, as in: mmlist <row.trace")
            }
            Trouble::Unwritten => f.write_str("the listing could not be written."),
        }
    }
}

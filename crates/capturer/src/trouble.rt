// What can be wrong, and what is said of it on standard error.
use programs::Unwritten;
use sentences::RefusedRecord;
use std::fmt;

// The files: a trace, which is made from a capture, and the plain capture and the one for eyes, each of which is made from a trace.
#[derive(Clone, Copy)]
pub(crate) enum File {
    Trace,
    Capture,
    CaptureForEyes,
}

impl File {
    // What it is made from.
    fn other(self) -> File {
        match self {
            File::Trace => File::Capture,
            File::Capture | File::CaptureForEyes => File::Trace,
        }
    }
}

impl fmt::Display for File {
    fn fmt<W: fmt::Write>(&self, f: &mut fmt::Formatter<W>) -> fmt::Result {
        f.write_str(match self {
            File::Trace => "the trace",
            File::Capture | File::CaptureForEyes => "the capture",
        })
    }
}

// A refused capture, or a refused record of it, with its number: 70 to 73 of the file, 74 to 77 of a record.
#[derive(Clone, Copy)]
pub(crate) struct RefusedCapture {
    pub(crate) number: u64,
    pub(crate) why: pcap_records::Refusal,
}

impl fmt::Display for RefusedCapture {
    fn fmt<W: fmt::Write>(&self, f: &mut fmt::Formatter<W>) -> fmt::Result {
        let number = self.number;
        match self.why {
            pcap_records::Refusal::FileHeader => f.write_str(
                "the capture is cut off: it ends inside its header of 24 octets (70).",
            ),
            pcap_records::Refusal::Magic => f.write_str(
                "this is no pcap file with times in microseconds: it begins with A1B2C3D4 in neither byte order (71).",
            ),
            pcap_records::Refusal::Version => f.write_str("the capture's version is not 2.4 (72)."),
            pcap_records::Refusal::LinkType => f.write_str(
                "the capture's link type is not 274, Ethernet mPackets (73).",
            ),
            pcap_records::Refusal::Header => write!(
                f,
                "record {number} is cut off: the capture ends inside its header (74)."
            ),
            pcap_records::Refusal::Length => write!(
                f,
                "record {number} says that more than 1,600 octets of it are stored (75)."
            ),
            pcap_records::Refusal::Original => write!(
                f,
                "record {number} was not stored whole: its stored and its original length differ (76)."
            ),
            pcap_records::Refusal::Content => write!(
                f,
                "record {number} is cut off: the capture ends inside its content (77)."
            ),
        }
    }
}

// Why a file is not made.
#[derive(Clone, Copy)]
pub(crate) enum Trouble {
    SameName,
    // Of what it is made from.
    Unopened,
    Unread,
    Terminal,
    // Of itself: what stands at its name, and what could not be done.
    Taken,
    Unmade,
    Unwritten,
    Unnamed,
    // A refused record of a trace.
    Trace(RefusedRecord),
    Capture(RefusedCapture),
}

impl From<Unwritten> for Trouble {
    fn from(_why: Unwritten) -> Trouble {
        Trouble::Unwritten
    }
}

// A file that was to be made, and why it is not.
#[derive(Clone, Copy)]
pub(crate) struct NotMade {
    pub(crate) file: File,
    pub(crate) why: Trouble,
}

impl fmt::Display for NotMade {
    fn fmt<W: fmt::Write>(&self, f: &mut fmt::Formatter<W>) -> fmt::Result {
        let file = self.file;
        let source = file.other();
        match self.why {
            Trouble::SameName => f.write_str("the trace and the capture have the same name."),
            Trouble::Unopened => write!(f, "{source} could not be opened."),
            Trouble::Unread => write!(f, "{source} could not be read."),
            Trouble::Terminal => write!(
                f,
                "{source} is a terminal; name a file, or give it on standard input."
            ),
            Trouble::Taken => write!(
                f,
                "the name of {file} is taken by what is no file that may be written."
            ),
            Trouble::Unmade => write!(f, "no file could be made beside {file}."),
            Trouble::Unwritten => write!(f, "{file} could not be written."),
            Trouble::Unnamed => write!(f, "{file} could not be given its name."),
            Trouble::Trace(record) => write!(f, "{record}"),
            Trouble::Capture(refused) => write!(f, "{refused}"),
        }
    }
}

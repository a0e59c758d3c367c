// The house trace (document 01, "Trace and listing"), read record by record.
#![tactic(auto)]

ghost use Rattle.std.specs.Prelude.{◌≡◌};
ghost use Rattle.trace.specs.Trace.{front, refusal_number, said, little_endian, read_at};

// A record's header: the length of its content and its kind, two octets each.
pub const HEADER: usize = 4;

// The greatest length of a content.
pub const LIMIT: usize = 1600;

// The kind of a record whose content is an mFrame as received.
const KIND: usize = 1;

// A place in a trace: that of the record to be read next.
#[derive(Clone, Copy)]
pub struct Cursor {
    pub at: usize,
}

// Why a record is refused: 50 to 53.
#[derive(Clone, Copy)]
pub enum Refusal {
    // The header is cut.
    Header,
    // The content's length is over the limit.
    Length,
    // The kind is not known.
    Kind,
    // The content is cut.
    Content,
}

impl Refusal {
    pub fn number(self) -> u32
        ensures { result ≡ refusal_number self }
    {
        match self {
            Refusal::Header => 50,
            Refusal::Length => 51,
            Refusal::Kind => 52,
            Refusal::Content => 53,
        }
    }
}

// Where a whole record lies: where its content starts, the content's length, and where the next record starts.
#[derive(Clone, Copy)]
pub struct Span {
    pub start: usize,
    pub length: usize,
    pub next: usize,
}

// The number in two octets.
fn little_endian(low: u8, high: u8) -> usize
    ensures { result ≡ little_endian low high }
{
    usize::from(u16::from_le_bytes([low, high]))
}

impl Cursor {
    // The front of a trace.
    pub fn new() -> Self
        ensures { result ≡ front }
    {
        Cursor { at: 0 }
    }

    // The record at the cursor, the end, or why the record there is refused. Drawn into its callers, since a copy of what is read would call the C
    // library's (include/seatport.h names all that it has to give).
    #[inline(always)]
    #[tactic(auto, using(crate::proofs::Laws::read_end, crate::proofs::Laws::header_cut, crate::proofs::Laws::length_over, crate::proofs::Laws::kind_other, crate::proofs::Laws::content_cut, crate::proofs::Laws::read_whole))]
    pub fn read(self, trace: &[u8]) -> Result<Option<Span>, Refusal>
        ensures { said result ≡ read_at trace.now self.at }
    {
        let at = self.at;
        let end = trace.len();
        if end <= at {
            return Ok(None);
        }
        if end - at < HEADER {
            return Err(Refusal::Header);
        }
        let length = little_endian(trace[at], trace[at + 1]);
        let kind = little_endian(trace[at + 2], trace[at + 3]);
        if LIMIT < length {
            return Err(Refusal::Length);
        }
        if kind != KIND {
            return Err(Refusal::Kind);
        }
        let start = at + HEADER;
        if end - start < length {
            return Err(Refusal::Content);
        }
        let next = start + length;
        Ok(Some(Span {
            start,
            length,
            next,
        }))
    }
}

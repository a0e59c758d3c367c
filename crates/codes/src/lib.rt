// The two counts, and the code of each kind and count (document 01, "Octets of an mFrame").
#![tactic(auto)]

ghost use Rattle.std.specs.Prelude.{◌≡◌, ◌+◌, ◌%◌, get_or};
ghost use Rattle.codes.specs.Codes.{next_frame, last_frame, next_fragment, start_code, continuation_code, fragment_code};

// The delimiters that carry no count.
pub const EXPRESS: u8 = 0xD5;

pub const VERIFY: u8 = 0x07;

pub const RESPOND: u8 = 0x19;

// The codes of the counts 0 to 3 in the delimiter of a start and of a continuation, and in the fragment code, which has those of a start.
const STARTS: [u8; 4] = [0xE6, 0x4C, 0x7F, 0xB3];

const CONTINUATIONS: [u8; 4] = [0x61, 0x52, 0x9E, 0x2A];

const FRAGMENTS: [u8; 4] = STARTS;

// A number that many steps on, modulo 4.
fn stepped(n: u8, steps: u8) -> u8
    ensures { result ≡ (n + steps) % 4 }
{
    (n % 4 + steps % 4) % 4
}

// The code of a number, by its remainder modulo 4.
fn coded(codes: [u8; 4], n: u8) -> u8
    ensures { result ≡ get_or codes (n % 4) 0 }
{
    codes[usize::from(n % 4)]
}

// Counts frames sent with S, modulo 4. It is never compared with a fragment count, nor are they assigned to one another.
#[derive(Clone, Copy, PartialEq, Eq)]
pub struct FrameCount(pub u8);

impl FrameCount {
    pub const ZERO: FrameCount = FrameCount(0);

    pub fn next(self) -> FrameCount
        ensures { result ≡ next_frame self }
    {
        FrameCount(stepped(self.0, 1))
    }

    // The count before this one: a continuation carries that of its frame, whose S moved the next one on.
    pub fn last(self) -> FrameCount
        ensures { result ≡ last_frame self }
    {
        FrameCount(stepped(self.0, 3))
    }

    // The delimiter of a start.
    pub fn code(self) -> u8
        ensures { result ≡ start_code self }
    {
        coded(STARTS, self.0)
    }

    // The delimiter of a continuation.
    pub fn continued(self) -> u8
        ensures { result ≡ continuation_code self }
    {
        coded(CONTINUATIONS, self.0)
    }
}

// Counts a frame's continuations, modulo 4, from 0 in the first.
#[derive(Clone, Copy, PartialEq, Eq)]
pub struct FragmentCount(pub u8);

impl FragmentCount {
    pub const ZERO: FragmentCount = FragmentCount(0);

    pub fn next(self) -> FragmentCount
        ensures { result ≡ next_fragment self }
    {
        FragmentCount(stepped(self.0, 1))
    }

    // The fragment code of a continuation.
    pub fn code(self) -> u8
        ensures { result ≡ fragment_code self }
    {
        coded(FRAGMENTS, self.0)
    }
}

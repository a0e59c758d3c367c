// What an octet says as a delimiter or as a fragment code, and how far it is from any delimiter (document 01, "Octets of an mFrame").
#![tactic(auto)]

ghost use Rattle.std.specs.Prelude.{◌≡◌};
ghost use Rattle.delimiters.specs.Delimiters.{distance_of, delimiter_of, fragment_of};

use codes::{FragmentCount, FrameCount};

// The codes of the eleven delimiters.
const ELEVEN: [u8; 11] = [
    0xD5, 0xE6, 0x4C, 0x7F, 0xB3, 0x61, 0x52, 0x9E, 0x2A, 0x07, 0x19,
];

// The least number of bits by which an octet differs from any of the eleven delimiters.
pub fn distance(octet: u8) -> u32
    ensures { result ≡ distance_of octet }
{
    let mut best: u32 = 8;
    // Counted in a u32: a usize has 64 bits on the board too, and a loop over the codes themselves counts in one.
    for i in 0..11u32 {
        let bits = (octet ^ ELEVEN[i as usize]).count_ones();
        // Any two of the eleven are four bits apart, so no other is nearer.
        if bits <= 2 {
            return bits;
        }
        best = best.min(bits);
    }
    best
}

// What an octet says as a delimiter.
#[derive(Clone, Copy)]
pub enum Delimiter {
    Express,
    Start(FrameCount),
    Continuation(FrameCount),
    Verify,
    Respond,
    // None of the eleven, with the least number of bits by which it differs from any of them.
    Unknown(u32),
}

#[tactic(auto, using(rules::proofs::Tests::tests), unfolding(crate::specs::Delimiters::delimiter_of, crate::specs::Delimiters::meaning))]
pub fn delimiter_of(octet: u8) -> Delimiter
    ensures { result ≡ delimiter_of octet }
{
    match octet {
        0xD5 => Delimiter::Express,
        0xE6 => Delimiter::Start(FrameCount(0)),
        0x4C => Delimiter::Start(FrameCount(1)),
        0x7F => Delimiter::Start(FrameCount(2)),
        0xB3 => Delimiter::Start(FrameCount(3)),
        0x61 => Delimiter::Continuation(FrameCount(0)),
        0x52 => Delimiter::Continuation(FrameCount(1)),
        0x9E => Delimiter::Continuation(FrameCount(2)),
        0x2A => Delimiter::Continuation(FrameCount(3)),
        0x07 => Delimiter::Verify,
        0x19 => Delimiter::Respond,
        _ => Delimiter::Unknown(distance(octet)),
    }
}

// What an octet says as a fragment code; any other than the four says nothing. They are the starts' codes, in a table of their own: of the
// must-fail edits, `starts_exchanged` makes that one wrong alone, and `fragment_codes_exchanged` this one.
#[tactic(auto, using(rules::proofs::Tests::tests), unfolding(crate::specs::Delimiters::fragment_of, crate::specs::Delimiters::meaning))]
pub fn fragment_of(octet: u8) -> Option<FragmentCount>
    ensures { result ≡ fragment_of octet }
{
    match octet {
        0xE6 => Some(FragmentCount(0)),
        0x4C => Some(FragmentCount(1)),
        0x7F => Some(FragmentCount(2)),
        0xB3 => Some(FragmentCount(3)),
        _ => None,
    }
}

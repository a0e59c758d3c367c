// The body of an express mFrame (document 01, "Receiving"): where it lies, and as the caller's own octets.
#![tactic(auto)]

ghost use Rattle.std.specs.Prelude.{◌≡◌};
ghost use Rattle.express_body.specs.Body.{is_done, express_delivered, part_in, HandedBack};

use endings::Ending;
use mframe::{CHECK, Kind};

// Whether the last four octets are the FCS of the frame so far.
fn is_done(ending: Ending) -> bool
    ensures { result ≡ is_done ending }
{
    matches!(ending, Ending::Done(_))
}

// Whether an mFrame of a kind, by its data and check octets, is an express frame that is delivered.
fn delivers_express(kind: Kind, octets: &[u8]) -> bool
    ensures { result ≡ express_delivered kind octets.now }
{
    matches!(kind, Kind::Express) && is_done(endings::judge(crc::ALL_ONES, octets))
}

// A part of an mFrame: it starts at this place and has this many octets.
#[derive(Clone, Copy)]
pub struct Part {
    pub start: usize,
    pub length: usize,
}

impl Part {
    // The empty part at the front, and no Option: document 01 hands it back, and `part_in` says so.
    const NONE: Part = Part {
        start: 0,
        length: 0,
    };
}

// Where the body of an express mFrame lies; of any other the empty part at its front.
pub fn part_in(mframe: &[u8]) -> Part
    ensures { result ≡ part_in mframe.now }
{
    let Ok(head) = heads::head_of(mframe) else {
        return Part::NONE;
    };
    if delivers_express(head.kind, &mframe[head.place..]) {
        let end = mframe.len() - CHECK;
        return Part {
            start: head.place,
            length: end - head.place,
        };
    }
    Part::NONE
}

// That part, as the caller's own octets.
pub fn express_body(mframe: &[u8]) -> &[u8]
    ensures { HandedBack mframe.entry result }
{
    let part = part_in(mframe);
    let start = part.start;
    let end = start + part.length;
    &mframe[start..end]
}

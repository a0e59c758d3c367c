// The head of any octets: the kind with its counts and where the data begin, or the refusal.
ghost use Rattle.std.specs.Prelude.{◌≡◌};
ghost use Rattle.heads.specs.Head.{reading, sized_of, fragmented_of, delimited_of, head_of, is_known};

use crate::Head;
use codes::FrameCount;
use delimiters::Delimiter;
use faults::Fault;
use mframe::Kind;
use preambles::TOO_MANY;

// The least and the most octets behind a header.
const LEAST: usize = 64;

const MOST: usize = 1522;

// A kind whose header ends at a place: whether the octets behind it are as many as an mFrame has.
#[tactic(auto, using(rules::proofs::Tests::tests))]
fn sized(kind: Kind, place: usize, length: usize) -> Result<Head, Fault>
    ensures { reading result ≡ sized_of kind place length }
{
    let behind = length.saturating_sub(place);
    if behind < LEAST {
        return Err(Fault::Short);
    }
    if behind > MOST {
        return Err(Fault::Long);
    }
    Ok(Head { kind, place })
}

// A continuation, with its fragment code at place code, which is read by a test and an index, as is the delimiter (docs/DECISIONS.md, 100).
fn fragmented(frame: FrameCount, code: usize, mframe: &[u8]) -> Result<Head, Fault>
    ensures { reading result ≡ fragmented_of frame code mframe.now }
{
    if mframe.len() <= code {
        return Err(Fault::Short);
    }
    let fragment = delimiters::fragment_of(mframe[code]).ok_or(Fault::Fragment)?;
    sized(Kind::Continuation(frame, fragment), code + 1, mframe.len())
}

// A delimiter that ends before a place.
fn delimited(delimiter: Delimiter, place: usize, mframe: &[u8]) -> Result<Head, Fault>
    ensures { reading result ≡ delimited_of delimiter place mframe.now }
{
    match delimiter {
        Delimiter::Express => sized(Kind::Express, place, mframe.len()),
        Delimiter::Start(frame) => sized(Kind::Start(frame), place, mframe.len()),
        Delimiter::Continuation(frame) => fragmented(frame, place, mframe),
        Delimiter::Verify => sized(Kind::Verify, place, mframe.len()),
        Delimiter::Respond => sized(Kind::Respond, place, mframe.len()),
        Delimiter::Unknown(bits) => Err(Fault::Delimiter(bits)),
    }
}

// The head of any octets.
#[tactic(auto, using(rules::proofs::Tests::tests), unfolding(crate::specs::Head::head_of))]
pub fn head_of(mframe: &[u8]) -> Result<Head, Fault>
    ensures { reading result ≡ head_of mframe.now }
{
    let place = preambles::lead(mframe) as usize;
    if place == TOO_MANY as usize {
        return Err(Fault::Preamble);
    }
    if mframe.len() <= place {
        return Err(Fault::Short);
    }
    delimited(delimiters::delimiter_of(mframe[place]), place + 1, mframe)
}

// Whether octets have a head that is not refused.
pub fn is_known(mframe: &[u8]) -> bool
    ensures { result ≡ is_known (head_of mframe.now) }
{
    head_of(mframe).is_ok()
}

// What an mFrame is (document 01, "Octets of an mFrame"): its lengths and kinds, and one laid whole into lent memory.
#![tactic(auto)]

ghost use Rattle.std.specs.Prelude.{◌≡◌, ◌≤◌, length};
ghost use Rattle.mframe.specs.Octets.{after_seven, after_six, header_of, mframe_of, Laid};

use codes::{FragmentCount, FrameCount};

// The least output buffer.
pub const OUTPUT_LEAST: usize = 1530;

// The least and the longest body.
pub const BODY_LEAST: usize = 60;

pub const BODY_MOST: usize = 1518;

// The octets of a header, and of a check.
pub const HEADER: usize = 8;

pub const CHECK: usize = 4;

#[derive(Clone, Copy)]
pub enum Kind {
    Express,
    Start(FrameCount),
    Continuation(FrameCount, FragmentCount),
    Verify,
    Respond,
}

fn after_seven(delimiter: u8) -> [u8; 8]
    ensures { result ≡ after_seven delimiter }
{
    [0x55, 0x55, 0x55, 0x55, 0x55, 0x55, 0x55, delimiter]
}

fn after_six(delimiter: u8, fragment: u8) -> [u8; 8]
    ensures { result ≡ after_six delimiter fragment }
{
    [0x55, 0x55, 0x55, 0x55, 0x55, 0x55, delimiter, fragment]
}

fn header(kind: Kind) -> [u8; 8]
    ensures { result ≡ header_of kind }
{
    match kind {
        Kind::Express => after_seven(codes::EXPRESS),
        Kind::Start(frame) => after_seven(frame.code()),
        Kind::Continuation(frame, fragment) => after_six(frame.continued(), fragment.code()),
        Kind::Verify => after_seven(codes::VERIFY),
        Kind::Respond => after_seven(codes::RESPOND),
    }
}

// Header, data and check octets at the front of the memory; their number.
pub fn lay(kind: Kind, part: &[u8], check: [u8; 4], out: &mut [u8]) -> usize
    requires { (length part.now ≤ 1518) × (1530 ≤ length out.old) }
    ensures { Laid (mframe_of kind part.now check) out.old result out.new }
{
    let end = HEADER + part.len();
    octets::copy_into(&header(kind), out, 0);
    octets::copy_into(part, out, HEADER);
    octets::copy_into(&check, out, end);
    end + CHECK
}

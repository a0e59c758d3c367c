// The sending calls that keep no record (document 01, "Sending"): an express body, V and R, each a single mFrame.
#![tactic(auto)]

ghost use Rattle.std.specs.Prelude.{◌≡◌, cond, length, Ok, Err};
ghost use Rattle.mframe.specs.declared.Kind.TheVariants as Kinds;
ghost use Rattle.sender_answers.specs.Answers.{Answered, short};
ghost use Rattle.sender_answers.specs.declared.Refusal.TheVariants as Why;
ghost use Rattle.single.specs.Single.{express_of, order_of};

use mframe::{BODY_LEAST, BODY_MOST, Kind, OUTPUT_LEAST};
use sender_answers::{Refusal, Written};

fn check_room(room: usize) -> Result<(), Refusal>
    ensures { result ≡ cond (short room) (Err Why.Output) (Ok tt) }
{
    if room < OUTPUT_LEAST {
        return Err(Refusal::Output);
    }
    Ok(())
}

// An express body: header, body, FCS.
#[tactic(auto, using(crate::proofs::Laws::written), unfolding(crate::specs::Single::express_of))]
pub fn express(body: &[u8], out: &mut [u8]) -> Result<Written, Refusal>
    ensures { Answered (express_of body.now (length out.old)) out.old result out.new }
{
    check_room(out.len())?;
    if !(BODY_LEAST..=BODY_MOST).contains(&body.len()) {
        return Err(Refusal::Body);
    }
    let check = crc::fcs(crc::over(crc::ALL_ONES, body));
    let length = mframe::lay(Kind::Express, body, check, out);
    Ok(Written { length, done: true })
}

// V or R: 60 zero octets and an mCRC.
#[tactic(auto, using(crate::proofs::Laws::written), unfolding(crate::specs::Single::order_of))]
fn order(kind: Kind, out: &mut [u8]) -> Result<Written, Refusal>
    ensures { Answered (order_of kind (length out.old)) out.old result out.new }
{
    check_room(out.len())?;
    let zeros = [0u8; 60];
    let check = crc::mcrc(crc::over(crc::ALL_ONES, &zeros));
    let length = mframe::lay(kind, &zeros, check, out);
    Ok(Written { length, done: true })
}

pub fn verify(out: &mut [u8]) -> Result<Written, Refusal>
    ensures { Answered (order_of Kinds.Verify (length out.old)) out.old result out.new }
{
    order(Kind::Verify, out)
}

pub fn respond(out: &mut [u8]) -> Result<Written, Refusal>
    ensures { Answered (order_of Kinds.Respond (length out.old)) out.old result out.new }
{
    order(Kind::Respond, out)
}

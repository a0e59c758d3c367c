// The sending record of document 01: its ranges, and which refusal a call on it gets.
#![tactic(auto)]

ghost use Rattle.std.specs.Prelude.{◌≡◌};
ghost use Rattle.sender_record.specs.Record.{fresh_of, idle, going, in_range, differs, held};
ghost use Rattle.sender_record.specs.Refusals.{refusal_of, ruled};

use codes::{FragmentCount, FrameCount};
use mframe::{BODY_LEAST, BODY_MOST, OUTPUT_LEAST};
use sender_answers::Refusal;

// A frame in progress has sent so many octets at least, and has as many left.
const PART_LEAST: usize = 60;

// The sending record. Length, sent and fragment are those of a frame in progress, and all 0 where there is none: three numbers and no Option of them,
// since test 31 (`in_range`) refuses records with one of them alone.
#[derive(Clone, Copy)]
pub struct Record {
    pub active: bool,
    pub hold: bool,
    pub extra: u8,
    pub next: FrameCount,
    pub length: usize,
    pub sent: usize,
    pub fragment: FragmentCount,
}

impl Record {
    // Both counts 0, and no frame in progress.
    pub fn fresh(active: bool, hold: bool, extra: u8) -> Record
        ensures { result ≡ fresh_of active hold extra }
    {
        Record {
            active,
            hold,
            extra,
            next: FrameCount::ZERO,
            length: 0,
            sent: 0,
            fragment: FragmentCount::ZERO,
        }
    }
}

// Whether no frame is in progress: all three 0.
#[tactic(auto, unfolding(crate::specs::Record::idle))]
fn is_idle(r: Record) -> bool
    ensures { result ≡ idle r }
{
    r.length == 0 && r.sent == 0 && r.fragment == FragmentCount::ZERO
}

// Whether the fields of a frame in progress are in range.
#[tactic(auto, unfolding(crate::specs::Record::going))]
fn is_going(r: Record) -> bool
    ensures { result ≡ going r }
{
    (BODY_LEAST..=BODY_MOST).contains(&r.length)
        && (PART_LEAST..=r.length - PART_LEAST).contains(&r.sent)
        && r.fragment.0 <= 3
}

#[tactic(auto, unfolding(crate::specs::Record::in_range))]
fn in_range(r: Record) -> bool
    ensures { result ≡ in_range r }
{
    r.extra <= 3 && r.next.0 <= 3 && (is_idle(r) || is_going(r))
}

#[tactic(auto, unfolding(crate::specs::Record::differs))]
fn other_length(r: Record, n: usize) -> bool
    ensures { result ≡ differs r n }
{
    r.length != 0 && r.length != n
}

fn is_held(r: Record) -> bool
    ensures { result ≡ held r }
{
    r.active && r.hold
}

// The table of refusals, in its order, for a body of n octets and a buffer of so many.
#[tactic(auto, unfolding(crate::specs::Refusals::refusal_of))]
pub fn rule(r: Record, n: usize, room: usize) -> Result<(), Refusal>
    ensures { ruled result ≡ refusal_of r n room }
{
    if room < OUTPUT_LEAST {
        return Err(Refusal::Output);
    }
    if !in_range(r) {
        return Err(Refusal::Record);
    }
    if !(BODY_LEAST..=BODY_MOST).contains(&n) {
        return Err(Refusal::Body);
    }
    if other_length(r, n) {
        return Err(Refusal::Length);
    }
    if is_held(r) {
        return Err(Refusal::Hold);
    }
    Ok(())
}

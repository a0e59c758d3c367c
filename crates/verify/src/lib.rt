// Link verification (document 01, "Verification", and document 02, (v)): does the neighbour answer a V with an R?
#![tactic(auto)]

ghost use Rattle.std.specs.Prelude.{◌≡◌};
ghost use Rattle.verify_answers.specs.Answers.{told};
ghost use Rattle.verify.specs.Verify.{effect, step_of};

use verify_answers::{Refusal, Stepped, refused, taken};
use verify_record::{Phase, Record};
use verify_trying::{enable, hear, tick};

#[derive(Clone, Copy, PartialEq, Eq)]
pub enum Event {
    // With the milliseconds that each attempt is to wait for an R.
    Enable(u32),
    Disable,
    LinkFailed,
    ResponseHeard,
    VerifyHeard,
    ResponseSent,
    Millisecond,
}

// The table of events.
fn take(record: Record, event: Event) -> Stepped
    ensures { told result ≡ effect event «record» }
{
    let off = Record {
        phase: Phase::Off,
        attempt: 0,
        left: 0,
        ..record
    };
    let lost = Record { owed: false, ..off };
    let owing = Record {
        owed: true,
        ..record
    };
    let settled = Record {
        owed: false,
        ..record
    };
    match event {
        Event::Enable(wait) => enable(record, wait),
        Event::Disable => taken(off, false),
        Event::LinkFailed => taken(lost, false),
        Event::ResponseHeard => hear(record),
        Event::VerifyHeard => taken(owing, false),
        Event::ResponseSent => taken(settled, false),
        Event::Millisecond => tick(record),
    }
}

// What an event does to a record, and whether a V is ordered; a record outside its ranges, or then an enable with a wait outside its own, is
// refused and the record handed back.
#[tactic(auto, using(crate::proofs::Laws::step_taken, crate::proofs::Laws::step_refused))]
pub fn step(record: Record, event: Event) -> Stepped
    ensures { told result ≡ step_of «record» event }
{
    if record.in_range() {
        take(record, event)
    } else {
        refused(Refusal::Record, record)
    }
}

// How link verification begins to try, tries and ends trying (document 01, "Verification", and document 02, (v)): the rows of enable, of an R heard
// and of a millisecond.
#![tactic(auto)]

ghost use Rattle.std.specs.Prelude.{◌≡◌};
ghost use Rattle.verify_answers.specs.Answers.{told};
ghost use Rattle.verify_trying.specs.Trying.{one_less, enabled, heard, ticked};

use verify_answers::{Refusal, Stepped, refused, taken};
use verify_record::{ATTEMPTS, Phase, Record};

// Off becomes trying, at its first attempt; the record keeps the wait.
#[tactic(auto, using(verify_record::proofs::Laws::wait_known))]
pub fn enable(record: Record, wait: u32) -> Stepped
    ensures { told result ≡ enabled wait «record» }
{
    if !verify_record::is_wait(wait) {
        return refused(Refusal::Wait, record);
    }
    let wait = wait as u8;
    let begun = Record {
        phase: Phase::Trying,
        attempt: 1,
        left: wait,
        wait,
        ..record
    };
    if !record.is_off() {
        return taken(record, false);
    }
    taken(begun, true)
}

// Trying becomes verified.
pub fn hear(record: Record) -> Stepped
    ensures { told result ≡ heard «record» }
{
    let verified = Record {
        phase: Phase::Verified,
        attempt: 0,
        left: 0,
        ..record
    };
    if record.is_trying() {
        taken(verified, false)
    } else {
        taken(record, false)
    }
}

// One millisecond of trying: the attempt goes on, or the next one begins, or the last one has failed.
#[tactic(auto, using(crate::proofs::Laws::waits, crate::proofs::Laws::tries_again, crate::proofs::Laws::gives_up))]
fn count_down(record: Record) -> Stepped
    ensures { told result ≡ one_less «record» }
{
    if 1 < record.left {
        let waiting = Record {
            phase: Phase::Trying,
            left: record.left - 1,
            ..record
        };
        return taken(waiting, false);
    }
    if record.attempt < ATTEMPTS {
        let next = Record {
            phase: Phase::Trying,
            attempt: record.attempt + 1,
            left: record.wait,
            ..record
        };
        return taken(next, true);
    }
    let failed = Record {
        phase: Phase::Failed,
        attempt: 0,
        left: 0,
        ..record
    };
    taken(failed, false)
}

// Trying has one millisecond less.
pub fn tick(record: Record) -> Stepped
    ensures { told result ≡ ticked «record» }
{
    if record.is_trying() {
        count_down(record)
    } else {
        taken(record, false)
    }
}

// What the receiving side keeps (document 01, "Receiving" and "Counters"): the record with its counters.
#![tactic(auto)]

ghost use Rattle.std.specs.Prelude.{◌≡◌};
ghost use Rattle.receiver_record.specs.Records.{shut, fresh, in_range};

use codes::{FragmentCount, FrameCount};
use counters::Counters;
use mframe::{BODY_LEAST, BODY_MOST};

// What the caller keeps between calls. The running CRC is the register before the complement.
// A flag with the four values beside it, and no Option of them: test 11 (`in_range`) refuses records that are not assembling and have one.
#[derive(Clone, Copy)]
pub struct Record {
    pub assembling: bool,
    pub frame: FrameCount,
    pub fragment: FragmentCount,
    pub kept: usize,
    pub running: u32,
    pub counters: Counters,
}

impl Record {
    // Not assembling.
    pub fn shut(counters: Counters) -> Record
        ensures { result ≡ shut counters }
    {
        Record {
            assembling: false,
            frame: FrameCount::ZERO,
            fragment: FragmentCount::ZERO,
            kept: 0,
            running: 0,
            counters,
        }
    }

    // All 0, not assembling.
    pub fn fresh() -> Record
        ensures { result ≡ fresh }
    {
        Record::shut(Counters::ZERO)
    }

    // Test 11.
    #[tactic(auto, using(rules::proofs::Tests::tests), unfolding(crate::specs::Records::in_range))]
    pub fn in_range(self) -> bool
        ensures { result ≡ in_range self }
    {
        if self.assembling {
            self.frame.0 <= 3
                && self.fragment.0 <= 3
                && (BODY_LEAST..=BODY_MOST).contains(&self.kept)
        } else {
            self.frame == FrameCount::ZERO
                && self.fragment == FragmentCount::ZERO
                && self.kept == 0
                && self.running == 0
        }
    }
}

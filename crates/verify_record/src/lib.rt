// What link verification keeps between events (document 01, "Verification", and document 02, (v)): the record and its ranges.
#![tactic(auto)]

ghost use Rattle.std.specs.Prelude.{◌≡◌, ◌≤◌, OkIff};
ghost use Rattle.verify_record.specs.Phases.{phase_number, phase_of};
ghost use Rattle.verify_record.specs.Ranges.{is_wait, fresh, is_off, is_trying, counted, in_range};

// The number of attempts; the most milliseconds that one may wait for an R, and those of a fresh record.
pub const ATTEMPTS: u8 = 3;

const LONGEST: u32 = 128;

const USUAL: u8 = 10;

// Whether an attempt may wait so many milliseconds.
#[tactic(auto, using(rules::proofs::Tests::tests), unfolding(crate::specs::Ranges::is_wait))]
pub fn is_wait(n: u32) -> bool
    ensures { result ≡ is_wait n }
{
    (1..=LONGEST).contains(&n)
}

#[derive(Clone, Copy, PartialEq, Eq)]
pub enum Phase {
    Off,
    Trying,
    Verified,
    Failed,
}

impl From<Phase> for u32 {
    ghost from_gives = { λ phase n. n ≡ phase_number phase };

    fn from(phase: Phase) -> u32 {
        match phase {
            Phase::Off => 0,
            Phase::Trying => 1,
            Phase::Verified => 2,
            Phase::Failed => 3,
        }
    }
}

// A number that no phase has.
#[derive(Clone, Copy, PartialEq, Eq)]
pub struct UnknownPhase;

impl TryFrom<u32> for Phase {
    type Error = UnknownPhase;

    ghost try_from_gives = { λ n phase. OkIff phase (n ≤ 3) (phase_of n) };

    fn try_from(n: u32) -> Result<Phase, UnknownPhase> {
        match n {
            0 => Ok(Phase::Off),
            1 => Ok(Phase::Trying),
            2 => Ok(Phase::Verified),
            3 => Ok(Phase::Failed),
            _ => Err(UnknownPhase),
        }
    }
}

// The phase; in trying the attempt and the milliseconds that it has left, else 0 and 0; whether a response is owed; the milliseconds that each
// attempt waits. The two stand beside the phase and not in it: test 40 (`in_range`) refuses records that have them in another phase.
#[derive(Clone, Copy, PartialEq, Eq)]
pub struct Record {
    pub phase: Phase,
    pub attempt: u8,
    pub left: u8,
    pub owed: bool,
    pub wait: u8,
}

impl Record {
    // Off, nothing owed, and the usual wait.
    pub fn fresh() -> Record
        ensures { result ≡ fresh }
    {
        Record {
            phase: Phase::Off,
            attempt: 0,
            left: 0,
            owed: false,
            wait: USUAL,
        }
    }

    pub fn is_off(self) -> bool
        ensures { result ≡ is_off self.phase }
    {
        self.phase == Phase::Off
    }

    pub fn is_trying(self) -> bool
        ensures { result ≡ is_trying self.phase }
    {
        self.phase == Phase::Trying
    }

    // Whether attempt and milliseconds left are at least the least and at most their most.
    #[tactic(auto, using(rules::proofs::Tests::tests), unfolding(crate::specs::Ranges::counted))]
    fn counts(self, least: u8, attempts: u8, wait: u8) -> bool
        ensures { result ≡ counted least attempts wait self }
    {
        (least..=attempts).contains(&self.attempt) && (least..=wait).contains(&self.left)
    }

    // Whether the wait is 1 to 128, and attempt and milliseconds left are those that it and the phase allow.
    pub fn in_range(self) -> bool
        ensures { result ≡ in_range self }
    {
        let counts = if self.is_trying() {
            self.counts(1, ATTEMPTS, self.wait)
        } else {
            self.counts(0, 0, 0)
        };
        is_wait(u32::from(self.wait)) && counts
    }
}

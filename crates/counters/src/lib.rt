// The receiving side's counters (document 01, "Counters") and their steps.
#![tactic(auto)]

ghost use Rattle.std.specs.Prelude.{◌≡◌};
ghost use Rattle.counters.specs.Counters.{erred, strayed, joined, completed};

// In document 01's order: assembly errors, delimiter errors, frames assembled, fragments.
#[derive(Clone, Copy)]
pub struct Counters {
    pub errors: u32,
    pub delimiters: u32,
    pub assembled: u32,
    pub fragments: u32,
}

// Each goes from 4,294,967,295 to 0.
impl Counters {
    pub const ZERO: Counters = Counters {
        errors: 0,
        delimiters: 0,
        assembled: 0,
        fragments: 0,
    };

    // Assembly errors.
    pub fn erred(self, n: u32) -> Counters
        ensures { result ≡ erred n self }
    {
        Counters {
            errors: self.errors.wrapping_add(n),
            ..self
        }
    }

    // A delimiter error.
    pub fn strayed(self) -> Counters
        ensures { result ≡ strayed self }
    {
        Counters {
            delimiters: self.delimiters.wrapping_add(1),
            ..self
        }
    }

    // A continuation kept.
    pub fn joined(self) -> Counters
        ensures { result ≡ joined self }
    {
        Counters {
            fragments: self.fragments.wrapping_add(1),
            ..self
        }
    }

    // A continuation that completes its frame.
    pub fn completed(self) -> Counters
        ensures { result ≡ completed self }
    {
        Counters {
            assembled: self.assembled.wrapping_add(1),
            ..self.joined()
        }
    }
}

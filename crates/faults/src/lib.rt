// Why an mFrame's head is refused (document 01, "Receiving", 12 to 15 and 17): the refusals with their numbers and details.
#![tactic(auto)]

ghost use Rattle.std.specs.Prelude.{◌≡◌};
ghost use Rattle.faults.specs.Faults.{fault_number, fault_detail};

// Why an mFrame's head is refused: 12 to 15 and 17 (16, a delimiter out of place, is no longer given: document 02, (vi)). An unknown delimiter has
// the least number of bits by which it differs from any of the eleven.
#[derive(Clone, Copy)]
pub enum Fault {
    Short,
    Long,
    Preamble,
    Delimiter(u32),
    Fragment,
}

impl Fault {
    pub fn number(self) -> u32
        ensures { result ≡ fault_number self }
    {
        match self {
            Fault::Short => 12,
            Fault::Long => 13,
            Fault::Preamble => 14,
            Fault::Delimiter(_) => 15,
            Fault::Fragment => 17,
        }
    }

    // The bits of an unknown delimiter, else 0. An arm for each case, so that each can be wrong alone.
    pub fn detail(self) -> usize
        ensures { result ≡ fault_detail self }
    {
        match self {
            Fault::Short => 0,
            Fault::Long => 0,
            Fault::Preamble => 0,
            Fault::Delimiter(bits) => bits as usize,
            Fault::Fragment => 0,
        }
    }
}

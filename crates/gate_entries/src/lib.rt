// An entry of the hall switch's gate control list: judged and read where it stands in the list, and given out as octets.
#![tactic(auto)]

ghost use Rattle.std.specs.Prelude.{◌≡◌, ◌+◌, ◌≤◌, length};
ghost use Rattle.gate_entries.specs.Entries.{operation, gates, entry_octets, entry_at, fault_at, fitting, refusal_number, judged};

// The octets of an entry that passes.
pub const SIZE: usize = 7;

// Operation and length stand in front of the value.
const HEADER: usize = 2;

// The length of the value: a gate octet and an interval of four.
const VALUE: u8 = 5;

// The greatest operation, set and release.
const GREATEST: u8 = 2;

// The greatest octet.
const OCTET: u32 = 255;

// Why a list is refused: 60 to 63.
#[derive(Clone, Copy)]
pub enum Refusal {
    // The header or the value is cut.
    Cut,
    // The operation is over 2.
    Operation,
    // The length is not 5.
    Length,
    // It is the 257th entry that passed.
    Many,
}

impl Refusal {
    pub fn number(self) -> u32
        ensures { result ≡ refusal_number self }
    {
        match self {
            Refusal::Cut => 60,
            Refusal::Operation => 61,
            Refusal::Length => 62,
            Refusal::Many => 63,
        }
    }
}

// The entry at a place of a list, judged by itself: that it passes, or why it is refused.
#[tactic(auto, using(crate::proofs::Laws::judging))]
pub fn judge(list: &[u8], at: usize) -> Result<(), Refusal>
    requires { at ≤ length list.now }
    ensures { judged result ≡ fault_at list.now at }
{
    let left = list.len() - at;
    if left < HEADER {
        return Err(Refusal::Cut);
    }
    let operation = list[at];
    let length = list[at + 1];
    if left - HEADER < length as usize {
        return Err(Refusal::Cut);
    }
    if GREATEST < operation {
        return Err(Refusal::Operation);
    }
    if length != VALUE {
        return Err(Refusal::Length);
    }
    Ok(())
}

// Operation, gates and interval of the entry at a place of a list. A row of words and no struct with an enum: C lends it so (include/seatport.h).
#[tactic(auto, unfolding(crate::specs::Entries::entry_at))]
pub fn entry_at(list: &[u8], at: usize) -> [u32; 3]
    requires { at + 7 ≤ length list.now }
    ensures { result ≡ entry_at list.now at }
{
    [
        u32::from(list[at]),
        u32::from(list[at + 2]),
        fours::joined(list[at + 6], list[at + 5], list[at + 4], list[at + 3]),
    ]
}

// Whether three words can be an entry of a list: its operation is known, and its gates fit an octet.
pub fn fits(entry: [u32; 3]) -> bool
    ensures { result ≡ fitting entry }
{
    entry[0] <= u32::from(GREATEST) && entry[1] <= OCTET
}

// The octets of an entry.
#[tactic(auto, unfolding(crate::specs::Entries::entry_octets, fours::specs::Word::octets_of))]
pub fn octets_of(entry: [u32; 3]) -> [u8; SIZE]
    requires { (operation entry ≤ 2) × (gates entry ≤ 255) }
    ensures { result ≡ entry_octets entry }
{
    let nanoseconds = fours::split(entry[2]);
    [
        entry[0] as u8,
        VALUE,
        entry[1] as u8,
        nanoseconds[3],
        nanoseconds[2],
        nanoseconds[1],
        nanoseconds[0],
    ]
}

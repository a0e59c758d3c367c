// A flag as a word of 32 bits and back, and a word as a length, for all records that C sees as words.
#![tactic(auto)]

ghost use Rattle.std.specs.Prelude.{◌≡◌, ◌<◌, ◌≤◌, ◌^◌, SomeIff, eqb};
ghost use Rattle.words.specs.Words.{flag};

// A flag: 1 where it is set, else 0.
pub fn flag(x: bool) -> u32
    ensures { result ≡ flag x }
{
    u32::from(x)
}

// A word as a length.
pub fn wide(x: u32) -> usize
    ensures { (result ≡ x) × (result < 2 ^ 32) }
{
    x as usize
}

// 0 is a flag that is not set and 1 one that is; no other word is a flag.
pub fn flag_of(word: u32) -> Option<bool>
    ensures { SomeIff result (word ≤ 1) (eqb word 1) }
{
    match word {
        0 => Some(false),
        1 => Some(true),
        _ => None,
    }
}

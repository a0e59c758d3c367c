// The preamble of any octets (document 02, (vi)): how many octets 55 lead them.
#![tactic(auto)]

ghost use Rattle.std.specs.Prelude.{◌≡◌, min};
ghost use Rattle.preambles.specs.Preamble.{leading, Front};

// A preamble has fewer octets 55 than this.
pub const TOO_MANY: u32 = 8;

// Four octets 55 as a number.
const FOUR_55: u32 = 0x55555555;

// Some of the leading octets 55: six or four where there are as many, by two numbers, of places 0 to 3 and of 2 to 5, since each octet by itself
// takes more than both.
#[tactic(auto, using(crate::proofs::Fours::none, crate::proofs::Fours::four, crate::proofs::Fours::six))]
fn front(mframe: &[u8]) -> u32
    ensures { Front mframe.now result }
{
    if mframe.len() < 6 || fours::load(mframe, 0) != FOUR_55 {
        return 0;
    }
    if fours::load(mframe, 2) != FOUR_55 {
        return 4;
    }
    6
}

// How many octets 55 lead; the count stops where there are too many, so that no input is gone through to its end.
#[tactic(auto, using(crate::proofs::Fours::onward, crate::proofs::Leading::no_more, crate::proofs::Leading::at_end))]
pub fn lead(mframe: &[u8]) -> u32
    ensures { result ≡ min 8 (leading mframe.now) }
{
    // By a test and an index: no Option of a reference in what is compiled for the board (docs/DECISIONS.md, 100).
    for n in front(mframe)..TOO_MANY {
        if mframe.len() <= n as usize || mframe[n as usize] != 0x55 {
            return n;
        }
    }
    TOO_MANY
}

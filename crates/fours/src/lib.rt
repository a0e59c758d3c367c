// Four octets as one number, the first lowest, and back.
#![tactic(auto)]

ghost use Rattle.std.specs.Prelude.{◌≡◌, ◌+◌, ◌≤◌, length};
ghost use Rattle.fours.specs.Word.{word_of, word_at, octets_of};

// Four octets as one number, the first lowest.
pub fn joined(a: u8, b: u8, c: u8, d: u8) -> u32
    ensures { result ≡ word_of a b c d }
{
    u32::from_le_bytes([a, b, c, d])
}

// The four octets from place i on as one number, the first lowest.
pub fn load(octets: &[u8], i: usize) -> u32
    requires { i + 4 ≤ length octets.now }
    ensures { result ≡ word_at octets.now i }
{
    joined(octets[i], octets[i + 1], octets[i + 2], octets[i + 3])
}

// A number as four octets, the lowest first.
#[tactic(auto, unfolding(crate::specs::Word::octets_of))]
pub fn split(w: u32) -> [u8; 4]
    ensures { result ≡ octets_of w }
{
    w.to_le_bytes()
}

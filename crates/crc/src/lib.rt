// The check octets of document 01: the CRC of IEEE 802.3 as FCS and as mCRC.
#![tactic(auto)]

ghost use Rattle.std.specs.Prelude.{◌≡◌};
ghost use Rattle.fours.specs.Word.{octets_of};
ghost use Rattle.crc.specs.Crc.{bit_step, bit_steps, register_over, fcs_of, mcrc_of};

// The register before a frame's first octet.
pub const ALL_ONES: u32 = 0xFFFF_FFFF;

// The polynomial, reflected.
const POLYNOMIAL: u32 = 0xEDB8_8320;

// The bits in which an mCRC differs from the FCS: its last two octets. This one number is the code's whole part in that rule.
const MCRC_INVERTS: u32 = 0xFFFF_0000;

// One bit. clang makes a table of 256 words of a loop of such steps whose count is a constant multiple of eight.
#[tactic(auto, using(crate::proofs::Word::step_even, crate::proofs::Word::step_odd))]
fn bit(r: u32) -> u32
    ensures { result ≡ bit_step r }
{
    if r % 2 == 0 {
        r / 2
    } else {
        POLYNOMIAL ^ (r / 2)
    }
}

// n bits.
#[tactic(auto, using(crate::proofs::Turns::steps_loop))]
fn steps(x: u32, n: u32) -> u32
    ensures { result ≡ bit_steps n x }
{
    let mut r = x;
    for _ in 0..n {
        r = bit(r);
    }
    r
}

// The register after octets, one a turn.
#[tactic(auto, using(crate::proofs::Turns::octets_loop))]
fn one_by_one(register: u32, octets: &[u8]) -> u32
    ensures { result ≡ register_over register octets.now }
{
    let mut r = register;
    for &octet in octets {
        r = steps(r ^ u32::from(octet), 8);
    }
    r
}

// The register after more octets, four a turn.
#[tactic(auto, using(crate::proofs::Word::word_turn))]
pub fn over(register: u32, octets: &[u8]) -> u32
    ensures { result ≡ register_over register octets.now }
{
    let (words, rest) = octets.as_chunks::<4>();
    let mut r = register;
    for word in words {
        r = steps(r ^ u32::from_le_bytes(*word), 32);
    }
    one_by_one(r, rest)
}

// The numbers whose four octets are the FCS and the mCRC of a register.
#[tactic(auto, using(crate::proofs::Checks::fcs_octets))]
pub fn fcs_word(register: u32) -> u32
    ensures { octets_of result ≡ fcs_of register }
{
    ALL_ONES - register
}

#[tactic(auto, using(crate::proofs::Checks::mcrc_octets))]
pub fn mcrc_word(register: u32) -> u32
    ensures { octets_of result ≡ mcrc_of register }
{
    (ALL_ONES - register) ^ MCRC_INVERTS
}

// The FCS of a register.
pub fn fcs(register: u32) -> [u8; 4]
    ensures { result ≡ fcs_of register }
{
    fours::split(fcs_word(register))
}

// The mCRC of a register.
pub fn mcrc(register: u32) -> [u8; 4]
    ensures { result ≡ mcrc_of register }
{
    fours::split(mcrc_word(register))
}

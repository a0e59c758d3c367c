// Octets laid into lent memory. Whatever else of the port moves octets calls this crate.
#![tactic(auto)]

ghost use Rattle.std.specs.Prelude.{◌≡◌, ◌+◌, ◌≤◌, length, take, drop};
ghost use Rattle.octets.specs.Laid.{laid};

// Four octets, at one place of both. They are read as one number before the first is written, which the board does by one load and one store.
#[tactic(auto, using(crate::proofs::Copy::word_copied))]
fn word(src: &[u8], out: &mut [u8], i: usize)
    requires { (i + 4 ≤ length src.now) × (i + 4 ≤ length out.old) }
    ensures { out.new ≡ laid out.old i (take 4 (drop i src.now)) }
{
    out[i..i + 4].copy_from_slice(&fours::split(fours::load(src, i)))
}

// The octets from a place on, one by one.
#[tactic(auto, using(crate::proofs::Copy::octets_copied))]
fn rest(src: &[u8], out: &mut [u8], from: usize)
    requires { (from ≤ length src.now) × (length src.now ≤ length out.old) }
    ensures { out.new ≡ laid out.old from (drop from src.now) }
{
    for i in from..src.len() {
        out[i] = src[i];
    }
}

// All of src, from the front of out. The count of turns is a u32, since a machine of 32 bits counts it in one register; both slices move on together.
#[tactic(auto, using(crate::proofs::Copy::eight_turn))]
fn front(src: &[u8], out: &mut [u8])
    requires { length src.now ≤ length out.old }
    ensures { out.new ≡ laid out.old 0 src.now }
{
    let n = (src.len() / 8 % 4294967296) as u32;
    for k in 0..n {
        let i = (k as usize) * 8;
        word(src, out, i);
        word(src, out, i + 4);
    }
    rest(src, out, (n as usize) * 8)
}

// All of src, from place at of out. The part is lent first, so that the loop's places fit one register of the board.
// For the C interface it goes by words: one copy_from_slice of the whole calls __aeabi_memmove, and include/seatport.h names __aeabi_memclr4 alone.
#[tactic(auto, using(crate::proofs::Copy::laid_part))]
pub fn copy_into(src: &[u8], out: &mut [u8], at: usize)
    requires { at + length src.now ≤ length out.old }
    ensures { out.new ≡ laid out.old at src.now }
{
    front(src, &mut out[at..])
}

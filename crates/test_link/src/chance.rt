// The numbers that the rule of the link draws, and bodies made of them (tests/reference/README.md).

// The state after one more draw.
pub(crate) fn step(x: u32) -> u32 {
    x.wrapping_mul(1664525).wrapping_add(1013904223)
}

// What a draw gives: one of k numbers from 0 on.
pub(crate) fn one_of(x: u32, k: u32) -> u32 {
    (x / 65536).checked_rem(k).unwrap_or(0)
}

// The length of a body.
pub(crate) fn length(x: u32) -> usize {
    60 + one_of(x, 1459) as usize
}

// The octets of a body that is made from y. A shorter one has the first of them.
pub(crate) fn fill(y: u32, body: &mut [u8]) {
    let mut x = y;
    for place in body {
        x = step(x);
        *place = (x / 65536 % 256) as u8;
    }
}

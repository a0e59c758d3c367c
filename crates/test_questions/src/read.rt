// Reads a question from standard input: the octets of its numbers, and the octets that follow them.
ghost use Rattle.std.specs.Prelude.{◌+◌, ◌≤◌};

use crate::stop::Stop;
use std::io::Read;
pub use windows::front;

// The octets of a question's numbers, its kind in front: an octet of the stored files (tests/reference/README.md), which each program matches once.
#[derive(Clone, Copy)]
pub struct Question {
    octets: [u8; 32],
}

impl Question {
    // The question of so many octets that begins with this one.
    fn begun(rt: HostRuntime, first: u8, size: usize) -> Result<Question, Stop> {
        let mut octets = [first; 32];
        let rest = octets.get_mut(1..size).ok_or(Stop::Broken)?;
        fill(rt, rest)?;
        Ok(Question { octets })
    }

    // The question that comes next, whose numbers take the size of its kind, or none where the input has ended before it.
    pub(crate) fn next(rt: HostRuntime, sizes: &[usize]) -> Result<Option<Question>, Stop> {
        let mut first = [0u8; 1];
        match rt.stdin().read(&mut first) {
            Ok(0) => Ok(None),
            Ok(_) => Ok(Some(Question::begun(rt, first[0], size_of(first[0], sizes))?)),
            Err(_) => Err(Stop::Unread),
        }
    }

    // The numbers, by their place, low octet first.
    pub fn octet(self, at: usize) -> u8
        requires { at + 1 ≤ 32 }
    {
        self.octets[at]
    }

    pub fn short(self, at: usize) -> usize
        requires { at + 2 ≤ 32 }
    {
        let o = self.octets;
        usize::from(u16::from_le_bytes([o[at], o[at + 1]]))
    }

    pub fn word(self, at: usize) -> u32
        requires { at + 4 ≤ 32 }
    {
        let o = self.octets;
        u32::from_le_bytes([o[at], o[at + 1], o[at + 2], o[at + 3]])
    }

    pub fn long(self, at: usize) -> usize
        requires { at + 8 ≤ 32 }
    {
        self.word(at) as usize + self.word(at + 4) as usize * 4294967296
    }
}

// How many octets the numbers of a question take, which begins with its kind: the size of that kind, or 0 where there is no such kind. Where
// only one size is given, questions have no kind.
fn size_of(kind: u8, sizes: &[usize]) -> usize {
    match sizes {
        [size] => *size,
        _ => sizes.get(usize::from(kind)).copied().unwrap_or(0),
    }
}

// Fills memory with the octets that come next.
fn fill(rt: HostRuntime, space: &mut [u8]) -> Result<(), Stop> {
    rt.stdin().read_exact(space).map_err(|_| Stop::Broken)
}

// The octets that come next, so many, read into the front of the space.
pub fn octets(rt: HostRuntime, space: &mut [u8], n: usize) -> Result<&mut [u8], Stop> {
    let part = space.get_mut(..n).ok_or(Stop::Broken)?;
    fill(rt, part)?;
    Ok(part)
}

// Lent memory: the first n octets of the space, or all where there are fewer. No call wrote them: place i has the octet (first + i) modulo 256.
pub fn lent(space: &mut [u8], n: usize, first: u8) -> &mut [u8] {
    let mut x = first;
    for place in &mut *space {
        *place = x;
        x = x.wrapping_add(1);
    }
    front_mut(space, n)
}

// The same, where there are so many; a question that asks for more is none of the stored ones.
pub fn lent_whole(space: &mut [u8], n: usize, first: u8) -> Result<&mut [u8], Stop> {
    if space.len() < n {
        return Err(Stop::Broken);
    }
    Ok(lent(space, n, first))
}

// What stands behind the first n, or none where there are fewer.
pub fn behind(space: &[u8], n: usize) -> &[u8] {
    space.get(n..).unwrap_or(&[])
}

// The same as the front, to write to.
pub fn front_mut<T>(space: &mut [T], n: usize) -> &mut [T] {
    let n = n.min(space.len());
    &mut space[..n]
}

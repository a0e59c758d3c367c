// What a program of constant memory reads and writes files of any size by: a window over the one, what waits to be written to the other, and
// parts of a slice that are always there.
#![tactic(auto)]

ghost use Rattle.std.specs.Prelude.{◌≡◌, ◌+◌, ◌≤◌, ◌<◌, ◌↔◌, ℕ, Bool, true, false, List, [], IsTrue, OnOk, OnErr, length, drop, slice_range};

use programs::Unwritten;
use std::io;
use std::io::{Read, Write};
use std::marker::Model;

// The octets of the longest record, one of a capture, with its header: where so many are in the window, or the input has ended, a record of a
// trace or of a capture, and a capture's header, read as in the whole input (the theorems of captures, Window).
pub const LONGEST: usize = 1616;

// The first n, or all where there are fewer. By a test and not by `get`, which the edit `more_than_asked_for` names.
pub fn front<T>(s: &[T], n: usize) -> &[T]
    ensures { (length result.now ≤ n) × (length result.now ≤ length s.now) }
{
    if n < s.len() {
        return &s[0..n];
    }
    s
}

// The octets from one place up to another, or none where there is no such part. By tests, which their edits name (`part_ends_before_it_begins`,
// `part_ends_behind_the_slice`).
pub fn part(s: &[u8], from: usize, to: usize) -> &[u8]
    ensures { length result.now ≤ length s.now }
{
    if s.len() < to {
        return &s[0..0];
    }
    if to < from {
        return &s[0..0];
    }
    &s[from..to]
}

// A window over an input: the octets of it that were read and are not yet used, and whether nothing comes behind them.
#[derive(Drop)]
pub struct Window<const N: usize> {
    octets: [u8; N],
    from: usize,
    to: usize,
    ended: bool,
}

// Clauses see the octets that are left, and whether nothing comes behind them.
impl<const N: usize> Model for Window<N> {
    ghost Value = { List ℕ × Bool };

    ghost view = { λ w. (slice_range w.octets w.from w.to, w.ended) };

    ghost invariant = { λ w. (w.from ≤ w.to) × (w.to ≤ N) };
}

impl<const N: usize> Window<N> {
    // Before the first read.
    pub fn new() -> Self
        ensures { result ≡ ([], false) }
    {
        Window {
            octets: [0; N],
            from: 0,
            to: 0,
            ended: false,
        }
    }

    // The octets that are left.
    pub fn rest(&self) -> &[u8]
        ensures { result.now ≡ self.now.0 }
    {
        let octets = &self.octets[..];
        &octets[self.from..self.to]
    }

    // Whether what is left is too little to tell what stands at its front.
    pub fn is_short(&self) -> bool
        ensures { IsTrue result ↔ (self.now.1 ≡ false) × (length self.now.0 < 1616) }
    {
        !self.ended && self.to - self.from < LONGEST
    }

    // So many octets are used, or all where there are fewer.
    #[tactic(auto, using(crate::proofs::Laws::part_behind))]
    pub fn pass(&mut self, n: usize)
        ensures { self.new ≡ (drop n self.old.0, self.old.1) }
    {
        if n < self.to - self.from {
            self.from += n;
        } else {
            self.from = self.to;
        }
    }

    // One more read behind what is left, which goes to the window's front, if it isn't there. Where the two places overlap it goes by way of the
    // window's end, since octets that are copied between such places go one by one. Behind a read that fails nothing comes.
    pub fn read_on<R: Read>(&mut self, input: &mut R) -> io::Result<()>
        ensures { OnErr result (self.new.1 ≡ true) }
    {
        let left = self.to - self.from;
        let octets = &mut self.octets[..];
        if left <= self.from {
            octets.copy_within(self.from..self.to, 0);
        } else if 0 < self.from {
            octets.copy_within(self.from..self.to, N - left);
            octets.copy_within(N - left..N, 0);
        }
        let read = input.read(&mut octets[left..]);
        self.from = 0;
        self.to = left;
        match read {
            Ok(more) => {
                self.to = left + more;
                self.ended = more == 0;
                Ok(())
            }
            Err(error) => {
                self.ended = true;
                Err(error)
            }
        }
    }
}

// What waits to be written: the first octets of its memory, up to a place. That place stands beside the memory: no heap.
#[derive(Drop)]
pub struct Waiting<const N: usize> {
    pub octets: [u8; N],
    pub end: usize,
}

impl<const N: usize> Waiting<N> {
    // Makes room for a piece: behind what waits, or at the front once that is written.
    pub fn make_room<W: Write>(&mut self, room: usize, output: &mut W) -> Result<(), Unwritten>
        requires { room ≤ N }
        ensures room { OnOk result (self.new.end + room ≤ N) }
        ensures kept { self.new.octets ≡ self.old.octets }
        ensures stays { OnErr result (self.new.end ≡ self.old.end) }
    {
        if self.end <= N - room {
            return Ok(());
        }
        self.write(output)
    }

    // Writes all that waits.
    pub fn write<W: Write>(&mut self, output: &mut W) -> Result<(), Unwritten>
        ensures empty { OnOk result (self.new.end ≡ 0) }
        ensures kept { self.new.octets ≡ self.old.octets }
        ensures stays { OnErr result (self.new.end ≡ self.old.end) }
    {
        output.write_all(front(&self.octets, self.end))?;
        self.end = 0;
        Ok(())
    }
}

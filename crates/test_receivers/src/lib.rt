// What the programs that run stored questions on the two receivers share: a receiving record read from a question, memory lent as one says, and what
// is said of them.
#![tactic(auto)]

use codes::{FragmentCount, FrameCount};
use counters::Counters;
use receiver_record::Record;
use test_questions::read::Question;
use test_questions::stop::Stop;
use test_questions::{read, say};

// Lent memory: the first octets of a space, so many.
#[derive(Clone, Copy)]
pub struct Lent {
    space: [u8; 2048],
    room: usize,
}

impl Lent {
    pub const NONE: Lent = Lent {
        space: [0; 2048],
        room: 0,
    };

    pub fn octets(&mut self) -> &mut [u8] {
        let room = self.room;
        read::front_mut(&mut self.space, room)
    }

    pub fn lend(&mut self, q: Question) -> Result<(), Stop> {
        self.room = read::lent_whole(&mut self.space, q.short(1), q.octet(3))?.len();
        Ok(())
    }
}

// The record whose fields a question gives.
pub fn record(q: Question) -> Record {
    Record {
        assembling: q.octet(1) != 0,
        frame: FrameCount(q.octet(2)),
        fragment: FragmentCount(q.octet(3)),
        kept: q.long(4),
        running: q.word(12),
        counters: Counters {
            errors: q.word(16),
            delimiters: q.word(20),
            assembled: q.word(24),
            fragments: q.word(28),
        },
    }
}

// Its fields, its counters last.
pub fn say_record(rt: HostRuntime, r: Record) {
    let frame = r.frame;
    let fragment = r.fragment;
    say::flag(rt, r.assembling);
    say::small(rt, frame.0);
    say::small(rt, fragment.0);
    say::number(rt, r.kept as u64);
    say::word(rt, u64::from(r.running));
    say_counters(rt, r.counters);
}

// The counters, in document 01's order.
pub fn say_counters(rt: HostRuntime, c: Counters) {
    for count in [c.errors, c.delimiters, c.assembled, c.fragments] {
        say::number(rt, u64::from(count));
    }
}

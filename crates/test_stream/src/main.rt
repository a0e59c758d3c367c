// Runs the stored questions on the second receiver, which gets its octets one at a time. tests/reference/README.md has the format of both files;
// the answers expected come from the reference alone.
#![tactic(auto)]

use receiver_record::Record;
use std::process::ExitCode;
use stream::{Refusal, Reply, State};
use test_questions::read::Question;
use test_questions::stop::Stop;
use test_questions::{read, say};
use test_receivers::{Lent, record, say_record};

// What is kept from question to question: the state, the record, the area and the buffer.
#[derive(Clone, Copy)]
struct Kept {
    state: State,
    record: Record,
    area: Lent,
    buffer: Lent,
}

fn state(q: Question) -> State {
    State {
        count: q.word(1),
        more: q.octet(5) != 0,
    }
}

// How many calls answered that they wait, how many 18 and how many 19. A question has too few octets for more than 32 bits.
#[derive(Clone, Copy)]
struct Tally {
    waited: u32,
    short: u32,
    unsound: u32,
}

impl Tally {
    const NONE: Tally = Tally {
        waited: 0,
        short: 0,
        unsound: 0,
    };

    fn count(&mut self, reply: Reply) {
        match reply {
            Ok(None) => self.waited = self.waited.wrapping_add(1),
            Err(Refusal::Area) => self.short = self.short.wrapping_add(1),
            Err(Refusal::State) => self.unsound = self.unsound.wrapping_add(1),
            Ok(Some(_)) => {}
        }
    }
}

fn say_state(rt: HostRuntime, s: State) {
    say::number(rt, u64::from(s.count));
    say::flag(rt, s.more);
}

// An octet or the end, given to the receiver; its reply.
fn give(kept: &mut Kept, given: Option<u8>) -> Reply {
    let area = kept.area.octets();
    let buffer = kept.buffer.octets();
    let got = stream::stream(given, kept.state, area, kept.record, buffer);
    kept.state = got.state;
    kept.record = got.after;
    got.reply
}

fn say_tally(rt: HostRuntime, t: Tally) {
    say::number(rt, u64::from(t.waited));
    say::number(rt, u64::from(t.short));
    say::number(rt, u64::from(t.unsound));
}

fn octets(rt: HostRuntime, kept: &mut Kept, q: Question) -> Result<(), Stop> {
    let mut space = [0u8; 2048];
    let mut tally = Tally::NONE;
    for octet in read::octets(rt, &mut space, q.short(1))? {
        tally.count(give(kept, Some(*octet)));
    }
    say::text(rt, b"octets");
    say_tally(rt, tally);
    say_state(rt, kept.state);
    say::check(rt, kept.area.octets());
    say::line_end(rt)
}

fn say_reply(rt: HostRuntime, reply: Reply) {
    match reply {
        // No answer to an end.
        Ok(None) => say::text(rt, b" waits"),
        Err(refusal) => {
            say::number(rt, u64::from(refusal.number()));
            say::number(rt, 0);
        }
        Ok(Some(answer)) => {
            say::number(rt, u64::from(answer.number()));
            say::number(rt, answer.detail() as u64);
        }
    }
}

fn end(rt: HostRuntime, kept: &mut Kept) -> Result<(), Stop> {
    let reply = give(kept, None);
    say::text(rt, b"end");
    say_reply(rt, reply);
    say_state(rt, kept.state);
    say_record(rt, kept.record);
    say::check(rt, kept.area.octets());
    say::check(rt, kept.buffer.octets());
    say::line_end(rt)
}

// The octets that the numbers of each kind of question take.
const SIZES: [usize; 7] = [0, 32, 4, 4, 6, 3, 1];

fn question(rt: HostRuntime, kept: &mut Kept, q: Question) -> Result<(), Stop> {
    match q.octet(0) {
        1 => kept.record = record(q),
        2 => kept.buffer.lend(q)?,
        3 => kept.area.lend(q)?,
        4 => kept.state = state(q),
        5 => octets(rt, kept, q)?,
        _ => end(rt, kept)?,
    }
    Ok(())
}

fn main(rt: HostRuntime) -> ExitCode {
    let mut kept = Kept {
        state: State::EMPTY,
        record: Record::fresh(),
        area: Lent::NONE,
        buffer: Lent::NONE,
    };
    test_questions::run(rt, "test_stream", &SIZES, |q| question(rt, &mut kept, q))
}

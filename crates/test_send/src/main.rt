// Runs the stored questions on the sending calls. tests/reference/README.md has the format of both files; the answers expected come from
// the reference alone.
#![tactic(auto)]

use codes::{FragmentCount, FrameCount};
use sender_answers::{Refusal, Written};
use sender_record::Record;
use std::process::ExitCode;
use test_questions::read::Question;
use test_questions::stop::Stop;
use test_questions::{read, say};

// What is kept from question to question: the record, and the body, of which so many octets were given: memory of a fixed size, as there is no heap.
#[derive(Clone, Copy)]
struct Kept {
    record: Record,
    space: [u8; 2048],
    given: usize,
}

// The answer, and the FCS of all of the buffer.
fn say_answer(rt: HostRuntime, answer: Result<Written, Refusal>, out: &[u8]) {
    match answer {
        Ok(Written { length, done }) => {
            say::number(rt, length as u64);
            say::flag(rt, done);
        }
        Err(refusal) => {
            say::text(rt, b" refused");
            say::number(rt, u64::from(refusal.number()));
        }
    }
    say::check(rt, out);
}

fn say_record(rt: HostRuntime, r: Record) {
    say::flag(rt, r.active);
    say::flag(rt, r.hold);
    say::small(rt, r.extra);
    say::small(rt, r.next.0);
    say::number(rt, r.length as u64);
    say::number(rt, r.sent as u64);
    say::small(rt, r.fragment.0);
}

// The answer of a call that keeps no record, behind the call's name.
fn answered(
    rt: HostRuntime,
    name: &[u8],
    answer: Result<Written, Refusal>,
    out: &[u8],
) -> Result<(), Stop> {
    say::text(rt, name);
    say_answer(rt, answer, out);
    say::line_end(rt)
}

fn express(rt: HostRuntime, q: Question) -> Result<(), Stop> {
    let mut body = [0u8; 2048];
    let mut space = [0u8; 2048];
    let body = read::octets(rt, &mut body, q.short(1))?;
    let out = read::lent_whole(&mut space, q.short(3), q.octet(5))?;
    answered(rt, b"express", single::express(body, out), out)
}

// A call that is given nothing but memory: verify or respond.
fn order<F: FnOnce(&mut [u8]) -> Result<Written, Refusal>>(
    rt: HostRuntime,
    q: Question,
    name: &[u8],
    call: F,
) -> Result<(), Stop>
    requires { F.IsAlwaysCallable call }
{
    let mut space = [0u8; 2048];
    let out = read::lent_whole(&mut space, q.short(1), q.octet(3))?;
    let answer = call(out);
    answered(rt, name, answer, out)
}

fn record(q: Question) -> Record {
    Record {
        active: q.octet(1) != 0,
        hold: q.octet(2) != 0,
        extra: q.octet(3),
        next: FrameCount(q.octet(4)),
        length: q.long(5),
        sent: q.long(13),
        fragment: FragmentCount(q.octet(21)),
    }
}

fn preemptable(rt: HostRuntime, kept: &mut Kept, q: Question) -> Result<(), Stop> {
    let mut space = [0u8; 2048];
    let out = read::lent_whole(&mut space, q.short(10), q.octet(12))?;
    let body = read::front(&kept.space, kept.given);
    let ask = (q.octet(1) != 0).then_some(q.long(2));
    let sent = send::preemptable(kept.record, body, ask, out);
    kept.record = sent.after;
    say::text(rt, b"preemptable");
    say_answer(rt, sent.answer, out);
    say_record(rt, sent.after);
    say::line_end(rt)
}

fn settings(record: Record, q: Question) -> Record {
    Record {
        active: q.octet(1) != 0,
        hold: q.octet(2) != 0,
        extra: q.octet(3),
        ..record
    }
}

// The octets that the numbers of each kind of question take.
const SIZES: [usize; 8] = [0, 6, 4, 4, 22, 3, 13, 4];

fn question(rt: HostRuntime, kept: &mut Kept, q: Question) -> Result<(), Stop> {
    match q.octet(0) {
        1 => express(rt, q)?,
        2 => order(rt, q, b"verify", single::verify)?,
        3 => order(rt, q, b"respond", single::respond)?,
        4 => kept.record = record(q),
        5 => kept.given = read::octets(rt, &mut kept.space, q.short(1))?.len(),
        6 => preemptable(rt, kept, q)?,
        _ => kept.record = settings(kept.record, q),
    }
    Ok(())
}

fn main(rt: HostRuntime) -> ExitCode {
    let mut kept = Kept {
        record: Record::fresh(true, false, 0),
        space: [0; 2048],
        given: 0,
    };
    test_questions::run(rt, "test_send", &SIZES, |q| question(rt, &mut kept, q))
}

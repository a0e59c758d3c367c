// Runs the stored questions on link verification. tests/reference/README.md has the format of both files; the answers expected come from
// the reference alone.
#![tactic(auto)]

use std::process::ExitCode;
use test_questions::read::Question;
use test_questions::say;
use test_questions::stop::Stop;
use verify_answers::Answer;
use verify_record::{Phase, Record};

fn say_answer(rt: HostRuntime, answer: Answer) {
    match answer {
        Ok(true) => say::text(rt, b"1"),
        Ok(false) => say::text(rt, b"0"),
        Err(why) => {
            say::text(rt, b"refused");
            say::number(rt, u64::from(why.number()));
        }
    }
}

fn say_record(rt: HostRuntime, r: Record) {
    say::number(rt, u64::from(u32::from(r.phase)));
    say::small(rt, r.attempt);
    say::small(rt, r.left);
    say::flag(rt, r.owed);
    say::small(rt, r.wait);
}

fn record(q: Question) -> Result<Record, Stop> {
    let phase = Phase::try_from(u32::from(q.octet(1))).map_err(|_| Stop::Broken)?;
    Ok(Record {
        phase,
        attempt: q.octet(2),
        left: q.octet(3),
        owed: q.octet(4) != 0,
        wait: q.octet(5),
    })
}

fn event(rt: HostRuntime, record: &mut Record, q: Question) -> Result<(), Stop> {
    let number = u32::from(q.octet(1));
    let event = event_words::event_at(number, q.word(2)).ok_or(Stop::Broken)?;
    let stepped = verify::step(*record, event);
    *record = stepped.after;
    say_answer(rt, stepped.answer);
    say_record(rt, stepped.after);
    say::line_end(rt)
}

// The octets that the numbers of each kind of question take.
const SIZES: [usize; 3] = [0, 6, 6];

// The record is kept from question to question.
fn question(rt: HostRuntime, kept: &mut Record, q: Question) -> Result<(), Stop> {
    match q.octet(0) {
        1 => {
            *kept = record(q)?;
            Ok(())
        }
        _ => event(rt, kept, q),
    }
}

fn main(rt: HostRuntime) -> ExitCode {
    let mut kept = Record::fresh();
    test_questions::run(rt, "test_verify", &SIZES, |q| question(rt, &mut kept, q))
}

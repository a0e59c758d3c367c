// Runs the stored questions on the receiving calls. tests/reference/README.md has the format of both files; the answers expected come from
// the reference alone.
#![tactic(auto)]

use receiver_answers::Answer;
use receiver_record::Record;
use std::process::ExitCode;
use test_questions::read::Question;
use test_questions::stop::Stop;
use test_questions::{read, say};
use test_receivers::{Lent, record, say_record};

// What is kept from question to question: the record and the buffer.
#[derive(Clone, Copy)]
struct Kept {
    record: Record,
    buffer: Lent,
}

fn say_answer(rt: HostRuntime, answer: Answer) {
    say::first(rt, u64::from(answer.number()));
    say::number(rt, answer.detail() as u64);
}

// Where the express body begins, as the call for C tells it: a program cannot see where a slice lies.
fn start_of_body(mframe: &[u8]) -> u32 {
    let mut part = [0u32; 2];
    seatport::seatport_express_body(mframe, &mut part);
    part[0]
}

fn say_body(rt: HostRuntime, mframe: &[u8]) {
    let body = express_body::express_body(mframe);
    say::number(rt, u64::from(start_of_body(mframe)));
    say::number(rt, body.len() as u64);
    say::check(rt, body);
}

fn mframe(rt: HostRuntime, kept: &mut Kept, q: Question) -> Result<(), Stop> {
    let mut octets = [0u8; 2048];
    let mframe = read::octets(rt, &mut octets, q.short(1))?;
    let buffer = kept.buffer.octets();
    let got = receive::receive(mframe, kept.record, buffer);
    let after = got.after;
    say_answer(rt, got.answer);
    say_record(rt, after);
    say::check(rt, buffer);
    say_body(rt, mframe);
    kept.record = after;
    say::line_end(rt)
}

// The octets that the numbers of each kind of question take.
const SIZES: [usize; 4] = [0, 32, 4, 3];

fn question(rt: HostRuntime, kept: &mut Kept, q: Question) -> Result<(), Stop> {
    match q.octet(0) {
        1 => kept.record = record(q),
        2 => kept.buffer.lend(q)?,
        _ => mframe(rt, kept, q)?,
    }
    Ok(())
}

fn main(rt: HostRuntime) -> ExitCode {
    let mut kept = Kept {
        record: Record::fresh(),
        buffer: Lent::NONE,
    };
    test_questions::run(rt, "test_receive", &SIZES, |q| question(rt, &mut kept, q))
}

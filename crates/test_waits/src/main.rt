// What a press waits for: the mFrames of a photograph that it meets, and the most octets that a frame keeps it waiting for once its data are on
// the wire, over every frame and every moment, extra 0 (what is left of a frame is cut as a frame of so many octets); header and gap are not
// among these. The picture of the README is drawn from what this prints, and adds those two.
#![tactic(auto)]

use sender_answers::{Refusal, Written};
use sender_record::Record;
use std::process::ExitCode;
use test_questions::{say, stop};

fn say_length(rt: HostRuntime, what: &[u8], answer: Result<Written, Refusal>) {
    say::text(rt, what);
    match answer {
        Ok(written) => say::number(rt, written.length as u64),
        Err(_) => say::text(rt, b" refused"),
    }
    let _ = say::line_end(rt);
}

// The next mFrame of the photograph, and the record after it.
fn photograph(rt: HostRuntime, what: &[u8], record: Record, ask: Option<usize>) -> Record {
    let body = [0u8; 1518];
    let mut out = [0u8; 1530];
    let sent = send::preemptable(record, &body, ask, &mut out);
    say_length(rt, what, sent.answer);
    sent.after
}

fn press(rt: HostRuntime) {
    let body = [0u8; 60];
    let mut out = [0u8; 1530];
    say_length(rt, b"press", single::express(&body, &mut out));
}

// The octets of an mFrame behind the ask: what is left of the frame, or the part up to the cut and its check octets.
fn behind(frame: usize, asked: usize) -> usize {
    match cut::next_part(frame, 0, 0, Some(asked)) {
        None => frame.saturating_sub(asked),
        Some(n) => n.saturating_sub(asked).saturating_add(4),
    }
}

// The most over every moment of a frame.
fn most_of(frame: usize) -> usize {
    (0..frame)
        .map(|asked| behind(frame, asked))
        .max()
        .unwrap_or(0)
}

// The most over every frame up to one of so many octets.
fn most(longest: usize) -> usize {
    (64..=longest).map(most_of).max().unwrap_or(0)
}

// The photograph, whole, as a port that isn't active sends it; then asked at its first octet to make way, the press, and the rest; then the
// most octets behind an ask. An output that did not take a line does not take the last one's end either, so that nobody else has to ask.
fn main(rt: HostRuntime) -> ExitCode {
    photograph(
        rt,
        b"photograph whole",
        Record::fresh(false, false, 0),
        None,
    );
    let cut = photograph(
        rt,
        b"photograph first",
        Record::fresh(true, false, 0),
        Some(0),
    );
    press(rt);
    photograph(rt, b"photograph rest", cut, None);
    say::text(rt, b"longest wait cut");
    say::number(rt, most(1522) as u64);
    stop::end(rt, "test_waits", say::line_end(rt))
}

// Runs the stored questions on check octets, codes and the cut through the public calls. tests/reference/README.md has the format of both
// files; the answers expected come from the reference alone.
#![tactic(auto)]

use codes::{FragmentCount, FrameCount};
use delimiters::Delimiter;
use endings::Ending;
use std::process::ExitCode;
use test_questions::read::Question;
use test_questions::stop::Stop;
use test_questions::{read, say};

// The check octets of every number of octets from 0 to all of them.
fn check_line(rt: HostRuntime, register: u32, octets: &[u8], k: usize) -> Result<(), Stop> {
    let after = crc::over(register, read::front(octets, k));
    say::text(rt, b"check");
    say::number(rt, k as u64);
    say::octets(rt, crc::fcs(after));
    say::octets(rt, crc::mcrc(after));
    say::line_end(rt)
}

fn check_lines(rt: HostRuntime, register: u32, octets: &[u8]) -> Result<(), Stop> {
    for k in 0..=octets.len() {
        check_line(rt, register, octets, k)?;
    }
    Ok(())
}

// What an octet says.
fn say_delimiter(rt: HostRuntime, d: Delimiter) {
    match d {
        Delimiter::Express => say::kind(rt, b" express", 0),
        Delimiter::Start(n) => say::kind(rt, b" start", n.0),
        Delimiter::Continuation(n) => say::kind(rt, b" continuation", n.0),
        Delimiter::Verify => say::kind(rt, b" verify", 0),
        Delimiter::Respond => say::kind(rt, b" respond", 0),
        Delimiter::Unknown(bits) => {
            say::text(rt, b" unknown");
            say::number(rt, u64::from(bits));
        }
    }
}

fn say_fragment(rt: HostRuntime, fragment: Option<FragmentCount>) {
    match fragment {
        Some(count) => say::small(rt, count.0),
        None => say::text(rt, b" none"),
    }
}

fn octet(rt: HostRuntime, octet: u8) -> Result<(), Stop> {
    say::text(rt, b"octet");
    say::small(rt, octet);
    say::number(rt, u64::from(delimiters::distance(octet)));
    say_delimiter(rt, delimiters::delimiter_of(octet));
    say_fragment(rt, delimiters::fragment_of(octet));
    say::line_end(rt)
}

// A count's steps and codes.
fn count(rt: HostRuntime, n: u8) -> Result<(), Stop> {
    let frame = FrameCount(n);
    let fragment = FragmentCount(n);
    let next = frame.next();
    let last = frame.last();
    let later = fragment.next();
    say::text(rt, b"count");
    say::small(rt, n);
    say::small(rt, next.0);
    say::small(rt, last.0);
    say::small(rt, frame.code());
    say::small(rt, frame.continued());
    say::small(rt, later.0);
    say::small(rt, fragment.code());
    say::line_end(rt)
}

// Where an mFrame is cut.
fn say_part(rt: HostRuntime, cut: Option<usize>) -> Result<(), Stop> {
    say::text(rt, b"cut");
    match cut {
        None => say::text(rt, b" whole"),
        Some(n) => say::number(rt, n as u64),
    }
    say::line_end(rt)
}

fn cut_asked(rt: HostRuntime, q: Question) -> Result<(), Stop> {
    let ask = (q.octet(18) != 0).then_some(q.long(19));
    say_part(rt, cut::next_part(q.long(1), q.long(9), q.octet(17), ask))
}

// What the last four octets decide.
fn say_ending(rt: HostRuntime, e: Ending) -> Result<(), Stop> {
    say::text(rt, b"ending");
    match e {
        Ending::Done(n) => {
            say::text(rt, b" done");
            say::number(rt, n as u64);
        }
        Ending::More(n, register) => {
            say::text(rt, b" more");
            say::number(rt, n as u64);
            say::word(rt, u64::from(register));
        }
        Ending::Damaged => say::text(rt, b" damaged"),
    }
    say::line_end(rt)
}

// A register and a run of octets, of which the answer is told: their check octets, or their ending.
fn over_octets<F: FnOnce(u32, &[u8]) -> Result<(), Stop>>(
    rt: HostRuntime,
    q: Question,
    answer: F,
) -> Result<(), Stop>
    requires { F.IsAlwaysCallable answer }
{
    let mut space = [0u8; 2048];
    let octets = read::octets(rt, &mut space, q.short(5))?;
    answer(q.word(1), octets)
}

// A piece laid into memory.
fn no_room(rt: HostRuntime) -> Result<(), Stop> {
    say::text(rt, b"lay no room");
    say::line_end(rt)
}

fn lay_piece(rt: HostRuntime, piece: &[u8], memory: &mut [u8], at: usize) -> Result<(), Stop> {
    if memory.len() < at || memory.len() - at < piece.len() {
        return no_room(rt);
    }
    octets::copy_into(piece, memory, at);
    say::text(rt, b"lay ");
    say::hex_octets(rt, memory);
    say::line_end(rt)
}

fn lay(rt: HostRuntime, q: Question) -> Result<(), Stop> {
    let mut memory = [0u8; 2048];
    let mut piece = [0u8; 2048];
    let memory = read::octets(rt, &mut memory, q.short(1))?;
    let piece = read::octets(rt, &mut piece, q.short(3))?;
    lay_piece(rt, piece, memory, q.short(5))
}

// The octets that the numbers of each kind of question take.
const SIZES: [usize; 7] = [0, 7, 2, 2, 27, 7, 7];

fn question(rt: HostRuntime, q: Question) -> Result<(), Stop> {
    match q.octet(0) {
        1 => over_octets(rt, q, |register, octets| check_lines(rt, register, octets)),
        2 => octet(rt, q.octet(1)),
        3 => count(rt, q.octet(1)),
        4 => cut_asked(rt, q),
        5 => over_octets(rt, q, |register, octets| {
            say_ending(rt, endings::judge(register, octets))
        }),
        _ => lay(rt, q),
    }
}

fn main(rt: HostRuntime) -> ExitCode {
    test_questions::run(rt, "test_ground", &SIZES, |q| question(rt, q))
}

// Runs the stored questions on gate control lists. tests/reference/README.md has the format of both files; the answers expected come from
// the reference alone.
#![tactic(auto)]

ghost use Rattle.std.specs.Prelude.{◌+◌, ◌<◌, ◌≤◌, length};

use gate_lists::Answer;
use std::process::ExitCode;
use test_questions::read::Question;
use test_questions::stop::Stop;
use test_questions::{read, say};

// The most entries that a question gives; so many entries or events it can have room for.
const MOST: usize = 300;

// A row of words: an entry or an event.
trait Row: Copy {
    // The row of this number out of octets, the low octet of a word first: those of a question, or of memory that no call wrote.
    fn taken(octets: &[u8; 4800], i: usize) -> Self
        requires { i < 300 };

    // The FCS register over the row's words, as octets again.
    fn over(self, register: u32) -> u32;
}

impl Row for [u32; 3] {
    fn taken(octets: &[u8; 4800], i: usize) -> [u32; 3] {
        let at = i * 12;
        [
            fours::load(octets, at),
            fours::load(octets, at + 4),
            fours::load(octets, at + 8),
        ]
    }

    fn over(self, register: u32) -> u32 {
        over_word(over_word(over_word(register, self[0]), self[1]), self[2])
    }
}

fn long_at(octets: &[u8], at: usize) -> u64
    requires { at + 8 ≤ length octets.now }
{
    u64::from(fours::load(octets, at)) + u64::from(fours::load(octets, at + 4)) * 4294967296
}

impl Row for [u64; 2] {
    fn taken(octets: &[u8; 4800], i: usize) -> [u64; 2] {
        let at = i * 16;
        [long_at(octets, at), long_at(octets, at + 8)]
    }

    fn over(self, register: u32) -> u32 {
        over_long(over_long(register, self[0]), self[1])
    }
}

fn take<T: Row>(octets: &[u8; 4800], rows: &mut [T])
    requires { length rows.old ≤ 300 }
{
    for (i, row) in rows.iter_mut().enumerate() {
        *row = T::taken(octets, i);
    }
}

// Lent memory for n of them; no call wrote it.
fn lent<T: Row>(space: &mut [T], n: usize, first: u8) -> Result<&mut [T], Stop>
    requires { length space.old ≤ 300 }
{
    let mut octets = [0u8; 4800];
    read::lent(&mut octets, 4800, first);
    take(&octets, space);
    space.get_mut(..n).ok_or(Stop::Broken)
}

// The FCS of all of the lent memory, its words as octets again.
fn over_word(register: u32, word: u32) -> u32 {
    crc::over(register, &word.to_le_bytes())
}

fn over_long(register: u32, long: u64) -> u32 {
    crc::over(register, &long.to_le_bytes())
}

fn say_rows<T: Row>(rt: HostRuntime, rows: &[T]) {
    let mut register = crc::ALL_ONES;
    for row in rows {
        register = row.over(register);
    }
    say::octets(rt, crc::fcs(register));
}

fn say_answer(rt: HostRuntime, answer: Answer) {
    say::number(rt, u64::from(gate_lists::number(answer)));
    say::number(rt, u64::from(gate_lists::value(answer)));
}

fn read_list(rt: HostRuntime, q: Question) -> Result<(), Stop> {
    let mut list = [0u8; 2048];
    let mut space = [[0u32; 3]; 300];
    let list = read::octets(rt, &mut list, q.short(1))?;
    let out = lent(&mut space, q.short(3), q.octet(5))?;
    let answer = gates::read_list(list, out);
    say::text(rt, b"read");
    say_answer(rt, answer);
    say_rows(rt, out);
    say::line_end(rt)
}

fn write_list(rt: HostRuntime, q: Question) -> Result<(), Stop> {
    let mut given = [0u8; 4800];
    let mut entries = [[0u32; 3]; 300];
    let mut space = [0u8; 2048];
    let n = q.short(1);
    if MOST < n {
        return Err(Stop::Broken);
    }
    read::octets(rt, &mut given, n * 12)?;
    let out = read::lent_whole(&mut space, q.short(3), q.octet(5))?;
    take(&given, &mut entries);
    let answer = gates::write_list(read::front(&entries, n), out);
    say::text(rt, b"write");
    say_answer(rt, answer);
    say::check(rt, out);
    say::line_end(rt)
}

fn list_events(rt: HostRuntime, q: Question) -> Result<(), Stop> {
    let mut list = [0u8; 2048];
    let mut space = [[0u64; 2]; 300];
    let list = read::octets(rt, &mut list, q.short(1))?;
    let out = lent(&mut space, q.short(3), q.octet(5))?;
    let listed = gates::list_events(list, out);
    say::text(rt, b"events");
    say_answer(rt, listed.map(|total| total.events));
    say::number(rt, listed.map_or(0, |total| total.cycle));
    say_rows(rt, out);
    say::line_end(rt)
}

// The octets that the numbers of each kind of question take.
const SIZES: [usize; 4] = [0, 6, 6, 6];

fn question(rt: HostRuntime, q: Question) -> Result<(), Stop> {
    match q.octet(0) {
        1 => read_list(rt, q),
        2 => write_list(rt, q),
        _ => list_events(rt, q),
    }
}

fn main(rt: HostRuntime) -> ExitCode {
    test_questions::run(rt, "test_gates", &SIZES, |q| question(rt, q))
}

// The program of holds: reads a gate control list and lists its holds and releases on standard output. What is wrong is said on standard error,
// and then nothing is listed.
#![tactic(auto)]

mod reading;
mod trouble;

ghost use Rattle.std.specs.Prelude.{◌≤◌, length};

use crate::reading::ENOUGH;
use crate::trouble::Trouble;
use gate_lists::Error;
use programs::{SIGPIPE, Unwritten, is_given};
use std::env::Env;
use std::io::{IsTerminal, Print, Read};
use std::process::ExitCode;
use std::{fs, str};
use windows::front;

// The octets of the longest name, and one more: memory of a fixed size, as there is no heap.
const NAME: usize = 4096;

// The most entries of a list, and so the most events.
const MOST: usize = 256;

// The room for all lines: one of 29 octets at most for each event, and the last one, of 27 at most.
const ROOM: usize = MOST * 29 + 27;

// All lines, in one piece. A slice and no cut to what is there: so it is proved that the lines end inside the memory.
fn write(rt: HostRuntime, events: &[[u64; 2]], cycle: u64) -> Result<(), Unwritten>
    requires { length events.now ≤ 256 }
{
    let mut out = [0u8; ROOM];
    let end = hold_lines::all_lines(events, cycle, &mut out);
    rt.write_all(&out[..end])?;
    Ok(())
}

// The events of a list, or why it is refused. There is room for as many events as a list can have (schedule's `never_short`), so that the last
// answer does not come.
fn list(rt: HostRuntime, octets: &[u8]) -> Result<(), Trouble> {
    let mut events = [[0u64; 2]; MOST];
    match gates::list_events(octets, &mut events) {
        Ok(total) => write(rt, front(&events, total.events as usize), total.cycle)?,
        Err(Error::Refused { why, entry }) => return Err(Trouble::Refused { why, entry }),
        Err(Error::Short(_)) => {}
    }
    Ok(())
}

// The list that an open file holds. A terminal has none to give: whoever sits at it is told how to give one.
fn list_file<R: Read + IsTerminal>(rt: HostRuntime, file: &mut R) -> Result<(), Trouble> {
    if file.is_terminal() {
        return Err(Trouble::Terminal);
    }
    let mut octets = [0u8; ENOUGH];
    let count = reading::take(file, &mut octets).map_err(|_| Trouble::Unread)?;
    list(rt, &octets[..count])
}

// The list in the file of a name, or on standard input.
fn list_of(rt: HostRuntime, name: &str) -> Result<(), Trouble> {
    if name == "-" {
        return list_file(rt, &mut rt.stdin());
    }
    let mut file = fs::open(&rt, name).map_err(|_| Trouble::Unopened)?;
    list_file(rt, &mut file)
}

// The list in the file that the first argument names. One that is longer than any name, or no text, comes out empty, and no file is named so.
fn list_named(rt: HostRuntime) -> Result<(), Trouble> {
    let mut name = [0u8; NAME];
    let length = rt.arg(1, &mut name).unwrap_or(0);
    list_of(rt, str::from_utf8(&name[..length]).unwrap_or(""))
}

// The list in the file that the program's one argument names, or on standard input.
fn list_asked(rt: HostRuntime) -> Result<(), Trouble> {
    if is_given(rt.arg(2, &mut [])) {
        return Err(Trouble::Many);
    }
    if is_given(rt.arg(1, &mut [])) {
        return list_named(rt);
    }
    list_file(rt, &mut rt.stdin())
}

// The program, and its status, which is 0 but where nobody reads on: that is no failure. What else goes wrong is said, which the status does not
// tell.
pub fn run(rt: HostRuntime) -> ExitCode {
    match list_asked(rt) {
        Ok(()) => ExitCode::SUCCESS,
        Err(Trouble::Unwritten(Unwritten::Gone)) => ExitCode::from(SIGPIPE),
        Err(trouble) => {
            let _ = eprintln!(rt; "mmholds: {trouble}");
            ExitCode::SUCCESS
        }
    }
}

// The listing program: reads a trace on standard input, however it comes, and writes its listing. Memory does not grow with the trace: a
// window of it, one frame in assembly and some lines are kept.
#![tactic(auto)]

mod records;
mod trouble;

use crate::trouble::Trouble;
use programs::{SIGPIPE, Unwritten, is_given};
use std::env::Env;
use std::io::{IsTerminal, Print};
use std::process::ExitCode;

// Whether no trace is given on standard input: a terminal has none, and whoever names a file means to give that one.
fn none_given(rt: HostRuntime) -> bool {
    is_given(rt.arg(1, &mut [])) || rt.stdin().is_terminal()
}

// A sentence on standard error. A function by itself: its memory, two buffers of 1,024 octets, is not on the stack beside the listing.
#[inline(never)]
fn say(rt: HostRuntime, trouble: Trouble) {
    let _ = eprintln!(rt; "mmlist: {trouble}");
}

// The listing of standard input, on standard output, then what is to be said of the trace, and the program's status, which is 0 but where nobody
// reads on: that is no failure. Who gives no trace there is told how to give one.
pub fn run(rt: HostRuntime) -> ExitCode {
    if none_given(rt) {
        say(rt, Trouble::Missing);
        return ExitCode::SUCCESS;
    }
    match records::list_all(rt) {
        Ok(None) => {}
        Ok(Some(trouble)) => say(rt, trouble),
        Err(Unwritten::Gone) => return ExitCode::from(SIGPIPE),
        Err(Unwritten::Failed) => say(rt, Trouble::Unwritten),
    }
    ExitCode::SUCCESS
}

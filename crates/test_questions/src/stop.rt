// Why a program of questions ends before its input does, which it says, once: but where nobody reads on, a program's status is 0.
use programs::{SIGPIPE, Unwritten};
use std::fmt;
use std::io::Print;
use std::process::ExitCode;

#[derive(Clone, Copy)]
pub enum Stop {
    // Nobody stored anything: the questions would come from a keyboard.
    Terminal,
    // The input could not be read.
    Unread,
    // The question is cut off, or none of those described.
    Broken,
    // An answer could not be written.
    Unwritten(Unwritten),
}

// What is said of the program of this name.
#[derive(Clone, Copy)]
struct Ending<'a> {
    name: &'a str,
    stop: Stop,
}

impl fmt::Display for Ending<'_> {
    fn fmt<W: fmt::Write>(&self, f: &mut fmt::Formatter<W>) -> fmt::Result {
        let name = self.name;
        match self.stop {
            Stop::Terminal => write!(
                f,
                "{name}: the stored questions are read on standard input, as in: scripts/run-program {name} <crates/{name}/stdin"
            ),
            Stop::Unread => write!(f, "{name}: the questions could not be read."),
            Stop::Broken => write!(
                f,
                "{name}: a question is cut off, or is none that tests/reference/README.md describes."
            ),
            Stop::Unwritten(_) => write!(f, "{name}: the output could not be written."),
        }
    }
}

// The end of the program of this name: what is to be said, and its status, which is 0 but where nobody reads on.
pub fn end(rt: HostRuntime, name: &str, went: Result<(), Stop>) -> ExitCode {
    match went {
        Ok(()) => ExitCode::SUCCESS,
        Err(Stop::Unwritten(Unwritten::Gone)) => ExitCode::from(SIGPIPE),
        Err(stop) => {
            let _ = eprintln!(rt; "{}", Ending { name, stop });
            ExitCode::SUCCESS
        }
    }
}

// Runs the stored questions on captures. tests/reference/README.md has the format of both files; the answers expected come from the reference
// alone.
#![tactic(auto)]

use std::process::ExitCode;
use test_questions::read::Question;
use test_questions::stop::Stop;

fn question(rt: HostRuntime, q: Question) -> Result<(), Stop> {
    match q.octet(0) {
        1 => test_pcaps::ask(rt, q, b"write", pcap::write),
        _ => test_pcaps::ask(rt, q, b"read", pcap::read),
    }
}

// The octets that the numbers of each kind of question take.
const SIZES: [usize; 3] = [0, 6, 6];

fn main(rt: HostRuntime) -> ExitCode {
    test_questions::run(rt, "test_captures", &SIZES, |q| question(rt, q))
}

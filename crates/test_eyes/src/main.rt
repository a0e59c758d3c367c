// Runs the stored questions on captures and on captures for eyes. tests/reference/README.md has the format of both files; the answers expected
// come from the reference alone.
#![tactic(auto)]

use std::process::ExitCode;
use test_questions::read::Question;
use test_questions::stop::Stop;

fn question(rt: HostRuntime, q: Question) -> Result<(), Stop> {
    match q.octet(0) {
        1 => test_pcaps::ask(rt, q, b"write", pcap::write),
        2 => test_pcaps::ask(rt, q, b"read", pcap::read),
        _ => test_pcaps::ask(rt, q, b"show", eyes::write),
    }
}

// The octets that the numbers of each kind of question take.
const SIZES: [usize; 4] = [0, 6, 6, 6];

fn main(rt: HostRuntime) -> ExitCode {
    test_questions::run(rt, "test_eyes", &SIZES, |q| question(rt, q))
}

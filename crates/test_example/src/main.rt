// Document 01's own example of a trace, listed as mmlist lists any.
#![tactic(auto)]

use std::process::ExitCode;

fn main(rt: HostRuntime) -> ExitCode {
    lister::run(rt)
}

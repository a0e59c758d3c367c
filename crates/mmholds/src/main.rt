// The holds and releases of a gate control list (document 02, (i)).
#![tactic(auto)]

use std::process::ExitCode;

fn main(rt: HostRuntime) -> ExitCode {
    holds::run(rt)
}

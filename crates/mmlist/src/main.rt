// The listing of a trace on standard input (document 01, "Trace and listing").
#![tactic(auto)]

use std::process::ExitCode;

fn main(rt: HostRuntime) -> ExitCode {
    lister::run(rt)
}

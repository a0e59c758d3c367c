// A capture made from a trace, plain or for eyes, or a trace from a capture (document 02, (vii)).
#![tactic(auto)]

fn main(rt: HostRuntime) {
    capturer::run(rt);
}

// What the programs that run stored questions on captures share: a call on what a question gives and lends, and what is said of its answer.
#![tactic(auto)]

use pcap_lists::Error;
use test_questions::read::Question;
use test_questions::stop::Stop;
use test_questions::{read, say};

// The call of this name: its answer, and the FCS of all of the lent memory.
pub fn ask<F: FnOnce(&[u8], &mut [u8]) -> Result<usize, Error>>(
    rt: HostRuntime,
    q: Question,
    name: &[u8],
    call: F,
) -> Result<(), Stop>
    requires { F.IsAlwaysCallable call }
{
    let mut given = [0u8; 8192];
    let mut space = [0u8; 8192];
    let given = read::octets(rt, &mut given, q.short(1))?;
    let lent = read::lent_whole(&mut space, q.short(3), q.octet(5))?;
    let answer = call(given, lent);
    say::text(rt, name);
    say::number(rt, u64::from(pcap_lists::number(answer)));
    say::number(rt, pcap_lists::value(answer) as u64);
    say::check(rt, lent);
    say::line_end(rt)
}

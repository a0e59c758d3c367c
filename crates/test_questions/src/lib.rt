// What the programs that run stored questions share: asking them one by one, reading a question's parts, writing an answer's words, and saying why
// a program ends.
#![tactic(auto)]

pub mod read;
pub mod say;
pub mod stop;

use crate::read::Question;
use crate::stop::Stop;
use std::io::IsTerminal;
use std::process::ExitCode;

// Has each question answered until the input ends or one stops the program. A proved loop has to end, and nothing says that the input does: it has
// more turns than any input.
fn ask_each<F: FnMut(Question) -> Result<(), Stop>>(
    rt: HostRuntime,
    sizes: &[usize],
    mut answer: F,
) -> Result<(), Stop>
    requires { F.IsAlwaysCallable answer }
{
    if rt.stdin().is_terminal() {
        return Err(Stop::Terminal);
    }
    for _ in 0..u32::MAX {
        let Some(question) = Question::next(rt, sizes)? else {
            return Ok(());
        };
        answer(question)?;
    }
    Ok(())
}

// The program of this name, whose questions take these sizes, by their kinds: its status.
pub fn run<F: FnMut(Question) -> Result<(), Stop>>(
    rt: HostRuntime,
    name: &str,
    sizes: &[usize],
    answer: F,
) -> ExitCode
    requires { F.IsAlwaysCallable answer }
{
    let went = ask_each(rt, sizes, answer);
    stop::end(rt, name, went)
}

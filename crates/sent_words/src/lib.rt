// An ask and what a sending call answers, as words of 32 bits.
#![tactic(auto)]

ghost use Rattle.std.specs.Prelude.{◌≡◌};
ghost use Rattle.sender_answers.specs.Answers.{said};
ghost use Rattle.sent_words.specs.Sent.{number_of, written_of, Short, ask_of};

use sender_answers::{Refusal, Written};

// Stands for no ask: the C interface has a number there.
const NO_ASK: usize = 0xFFFF_FFFF_FFFF_FFFF;

// The number that is returned.
pub fn number_of(answer: Result<Written, Refusal>) -> u32
    ensures { result ≡ number_of (said answer) }
{
    answer.err().map_or(0, Refusal::number)
}

// The two words of what was written.
pub fn written_of(answer: Result<Written, Refusal>) -> [u32; 2]
    requires { Short (said answer) }
    ensures { result ≡ written_of (said answer) }
{
    match answer {
        Ok(Written { length, done }) => [length as u32, u32::from(done)],
        Err(_) => [0, 0],
    }
}

// The ask that a number of 64 bits is.
pub fn ask_of(ask: usize) -> Option<usize>
    ensures { result ≡ ask_of ask }
{
    if ask == NO_ASK { None } else { Some(ask) }
}

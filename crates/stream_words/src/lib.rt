// The second receiver's state (`struct seatport_stream` in C) as two words of 32 bits, and what a call tells of them before all else.
#![tactic(auto)]

ghost use Rattle.std.specs.Prelude.{◌≡◌, length};
ghost use Rattle.receiver_answers.specs.Answers.{refused, says};
ghost use Rattle.stream_words.specs.State.{state_of, told, refusal_of, octet_of, Octet, too_long};

use faults::Fault;
use mframe::BODY_MOST;
use receiver_answers::Refusal as First;
use stream::{MOST, Refusal, State};

// The state that two words are, where the second is a flag. No Option: a second word that is none is test 19's, which `refusal` and `octet` answer.
pub fn state_of(words: [u32; 2]) -> State
    ensures { result ≡ state_of words }
{
    State {
        count: words[0],
        more: words[1] == 1,
    }
}

// Tests 18, by the area's length, and 19, by the words.
#[tactic(auto, using(rules::proofs::Tests::tests), unfolding(crate::specs::State::refusal_of))]
pub fn refusal(words: [u32; 2], room: usize) -> Result<(), Refusal>
    ensures { told result ≡ refusal_of words room }
{
    if room < MOST as usize {
        return Err(Refusal::Area);
    }
    if 1 < words[1] {
        return Err(Refusal::State);
    }
    if state_of(words).is_unsound() {
        return Err(Refusal::State);
    }
    Ok(())
}

// An octet, by the words of the state, each of which is read and written by itself, the usual case by few tests: an octet has little time.
#[tactic(auto, using(crate::proofs::Octets::refusals))]
pub fn octet(stream: &mut [u32; 2], area: &mut [u8], octet: u8) -> Result<(), Refusal>
    ensures { Octet (octet_of stream.old area.old octet) (told result) stream.new area.new }
{
    if area.len() < MOST as usize {
        return Err(Refusal::Area);
    }
    let count = stream[0];
    if count < MOST {
        if stream[1] != 0 {
            return Err(Refusal::State);
        }
        area[count as usize] = octet;
        stream[0] = count + 1;
        return Ok(());
    }
    if MOST < count {
        return Err(Refusal::State);
    }
    if 1 < stream[1] {
        return Err(Refusal::State);
    }
    stream[1] = 1;
    Ok(())
}

// The number of a refusal, for C, or 0.
pub fn number_of(answer: Result<(), Refusal>) -> u32
    ensures { result ≡ told answer }
{
    answer.err().map_or(0, Refusal::number)
}

// What the first receiver answers to an mFrame that runs over, by the words of its record; it changes nothing.
// That the words are nine is told for callers, who lend them. It is `stream`'s own over words, since words that are no record's are refused here too.
#[tactic(auto, using(rules::proofs::Tests::tests), unfolding(crate::specs::State::too_long))]
pub fn too_long(receiver: [u32; 9], room: usize) -> First
    ensures { (refused result ≡ says (too_long receiver room) 0) × (length receiver ≡ 9) }
{
    if room < BODY_MOST {
        return First::Buffer;
    }
    if let Some(record) = receiver_words::receiver_in(receiver) {
        if record.in_range() {
            return First::Head(Fault::Long);
        }
    }
    First::Record
}

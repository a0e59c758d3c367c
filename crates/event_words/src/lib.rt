// An event's number and what a step of the verification answers, as words of 32 bits.
#![tactic(auto)]

ghost use Rattle.std.specs.Prelude.{◌≡◌, IsTrue, SomeIff};
ghost use Rattle.verify_answers.specs.Answers.{said};
ghost use Rattle.words.specs.Words.{flag};
ghost use Rattle.event_words.specs.Events.{is_event, event_of};

use verify::Event;
use verify_answers::{Answer, Refusal};

// Whether a number is an event's. The receiver's answers 3 and 4 are those of what was heard; no other answer of it is an event.
#[tactic(auto, using(rules::proofs::Tests::tests), unfolding(crate::specs::Events::is_event))]
pub fn is_event(n: u32) -> bool
    ensures { result ≡ is_event n }
{
    (3..=9).contains(&n)
}

// The event that it then is; the wait is an enable's, and no other event looks at it.
pub fn event_of(n: u32, wait: u32) -> Event
    ensures { result ≡ event_of n wait }
{
    match n {
        3 => Event::VerifyHeard,
        4 => Event::ResponseHeard,
        5 => Event::ResponseSent,
        6 => Event::Millisecond,
        7 => Event::Enable(wait),
        8 => Event::Disable,
        _ => Event::LinkFailed,
    }
}

// The event that a number is, if any. Judged and then read, which takes fewer instructions than both in one match.
pub fn event_at(n: u32, wait: u32) -> Option<Event>
    ensures { SomeIff result (IsTrue (is_event n)) (event_of n wait) }
{
    if is_event(n) {
        Some(event_of(n, wait))
    } else {
        None
    }
}

// The number that is returned. sent_words and stream_words have this line too: a generic one would need a trait of all refusals with its law.
pub fn number_of(answer: Answer) -> u32
    ensures { result ≡ (said answer).number }
{
    answer.err().map_or(0, Refusal::number)
}

// Whether a V is ordered, as a flag.
pub fn ordered_of(answer: Answer) -> u32
    ensures { result ≡ flag (said answer).ordered }
{
    u32::from(answer.unwrap_or(false))
}

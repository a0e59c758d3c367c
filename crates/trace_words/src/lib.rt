// What reading a record of a trace says, as words of 32 bits: its number, and `struct seatport_content` in C.
#![tactic(auto)]

ghost use Rattle.std.specs.Prelude.{◌≡◌};
ghost use Rattle.trace.specs.Trace.{said};
ghost use Rattle.trace_words.specs.Content.{number_of, content_of, Short};

use trace::{Refusal, Span};

// The number that is returned.
pub fn number_of(read: Result<Option<Span>, Refusal>) -> u32
    ensures { result ≡ number_of (said read) }
{
    match read {
        Ok(Some(_)) => 0,
        Ok(None) => 1,
        Err(why) => why.number(),
    }
}

// Where the content starts, its length and where the next record starts.
pub fn content_of(read: Result<Option<Span>, Refusal>) -> [u32; 3]
    requires { Short (said read) }
    ensures { result ≡ content_of (said read) }
{
    match read {
        Ok(Some(span)) => [span.start as u32, span.length as u32, span.next as u32],
        Ok(None) => [0, 0, 0],
        Err(_) => [0, 0, 0],
    }
}

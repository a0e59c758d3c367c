// What all programs share: whether a word was given to one, and why an output could not be written.
#![tactic(auto)]

ghost use Rattle.std.specs.Prelude.{◌≡◌, ◌≢◌, ◌↔◌, IsTrue};
ghost use Rattle.std.specs.IoError.{error_kind};

use std::env::FillError;
use std::io;
use std::io::ErrorKind;

// The status of a program that the system ends for writing what nobody reads (SIGPIPE).
pub const SIGPIPE: u8 = 128 + 13;

// Whether a program was started with a word, by what the system answers where it is asked for that word.
pub fn is_given(word: Result<usize, FillError>) -> bool
    ensures { IsTrue result ↔ (word ≢ Err FillError.NotPresent) }
{
    !matches!(word, Err(FillError::NotPresent))
}

// Why an output could not be written.
#[derive(Clone, Copy, Debug, PartialEq, Eq)]
pub enum Unwritten {
    // Nobody reads it any more, which is no failure.
    Gone,
    Failed,
}

impl From<io::Error> for Unwritten {
    ghost use Rattle.programs.specs.declared.Unwritten.TheVariants.{Gone};
    ghost use Rattle.std.specs.declared.io.ErrorKind.TheVariants.{BrokenPipe};

    ghost from_gives = { λ error why. (why ≡ Gone) ↔ (error_kind error ≡ BrokenPipe) };

    fn from(error: io::Error) -> Unwritten {
        if error.kind() == ErrorKind::BrokenPipe {
            Unwritten::Gone
        } else {
            Unwritten::Failed
        }
    }
}

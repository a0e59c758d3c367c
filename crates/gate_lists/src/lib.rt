// Whether a gate control list is accepted, entry by entry: as octets that are read, and as entries that are to be written.
#![tactic(auto)]

ghost use Rattle.std.specs.Prelude.{◌≡◌};
ghost use Rattle.gate_lists.specs.Lists.{good, said, number_of, value_of, of_octets, of_entries};

use gate_entries::{Refusal, SIZE};

// The most entries of a list.
const MOST: u32 = 256;

// A 257th entry that passed.
const TOO_MANY: Error = Error::Refused {
    why: Refusal::Many,
    entry: MOST + 1,
};

// Why a call that is given a list does nothing.
#[derive(Clone, Copy)]
pub enum Error {
    // The list is refused: why, and the entry's number, the first being 1.
    Refused { why: Refusal, entry: u32 },
    // The output has no room for so many.
    Short(u32),
}

// What a call that is given a list answers: so many entries are good, or so many entries, octets or events were written; or why not.
pub type Answer = Result<u32, Error>;

// 0, or the number of the refusal: 60 to 63, or 64 where the output is short.
pub fn number(answer: Answer) -> u32
    ensures { result ≡ number_of (said answer) }
{
    match answer {
        Ok(_) => 0,
        Err(Error::Refused { why, entry: _ }) => why.number(),
        Err(Error::Short(_)) => 64,
    }
}

// How many are good or written, the number of the refused entry, or how many there must be room for.
pub fn value(answer: Answer) -> u32
    ensures { result ≡ value_of (said answer) }
{
    match answer {
        Ok(n) => n,
        Err(Error::Refused { why: _, entry }) => entry,
        Err(Error::Short(n)) => n,
    }
}

// A list of octets that was judged good, and how many entries it has.
#[derive(Clone, Copy)]
pub struct Accepted<'a> {
    pub octets: &'a [u8],
    pub entries: u32,
    pub ghost judged: { of_octets octets.now ≡ good entries },
}

// Octets that are read. Drawn into its callers, since to hand the answer back in memory costs more than to judge a list of no octets.
#[inline(always)]
pub fn of_octets(list: &[u8]) -> Answer
    ensures { said result ≡ of_octets list.now }
{
    for passed in 0..=MOST {
        let at = passed as usize * SIZE;
        if list.len() <= at {
            return Ok(passed);
        }
        if let Err(why) = gate_entries::judge(list, at) {
            let entry = passed + 1;
            return Err(Error::Refused { why, entry });
        }
    }
    Err(TOO_MANY)
}

// Entries that are to be written: words that no entry can be are refused as an unknown operation.
pub fn of_entries(entries: &[[u32; 3]]) -> Answer
    ensures { said result ≡ of_entries entries.now }
{
    for fitted in 0..=MOST {
        if entries.len() <= fitted as usize {
            return Ok(fitted);
        }
        if !gate_entries::fits(entries[fitted as usize]) {
            return Err(Error::Refused {
                why: Refusal::Operation,
                entry: fitted + 1,
            });
        }
    }
    Err(TOO_MANY)
}

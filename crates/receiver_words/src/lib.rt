// The receiving record (`struct seatport_receiver` in C) as words of 32 bits.
#![tactic(auto)]

ghost use Rattle.std.specs.Prelude.{◌≡◌, ◌<◌, ◌^◌, true, IsTrue, IfSome, SomeIff};
ghost use Rattle.receiver_words.specs.Receiver.{receiver_words, receiver_fits, receiver_of};

use codes::{FragmentCount, FrameCount};
use counters::Counters;
use receiver_record::Record;

// Whether nine words are a receiving record's.
#[tactic(auto, using(rules::proofs::Tests::tests), unfolding(crate::specs::Receiver::receiver_fits))]
pub fn receiver_fits(words: [u32; 9]) -> bool
    ensures { result ≡ receiver_fits words }
{
    words[0] <= 1 && words[1] <= 255 && words[2] <= 255
}

// The record that they then are.
#[tactic(auto, using(crate::proofs::Laws::counts_known))]
pub fn receiver_of(words: [u32; 9]) -> Record
    requires { receiver_fits words ≡ true }
    ensures { (result ≡ receiver_of words) × (result.kept < 2 ^ 32) }
{
    Record {
        assembling: words[0] == 1,
        frame: FrameCount(words[1] as u8),
        fragment: FragmentCount(words[2] as u8),
        kept: words::wide(words[3]),
        running: words[4],
        counters: Counters {
            errors: words[5],
            delimiters: words[6],
            assembled: words[7],
            fragments: words[8],
        },
    }
}

// The record that nine words are, if they are a receiving record's. Judged and then read: word by word, each with a way out of its own, a refusal
// takes a fifth more instructions.
pub fn receiver_in(words: [u32; 9]) -> Option<Record>
    ensures value { SomeIff result (IsTrue (receiver_fits words)) (receiver_of words) }
    ensures short { IfSome result (λ r. r.kept < 2 ^ 32) }
{
    if receiver_fits(words) {
        Some(receiver_of(words))
    } else {
        None
    }
}

// The nine words of a record.
pub fn receiver_words(record: Record) -> [u32; 9]
    requires { «record».kept < 2 ^ 32 }
    ensures { result ≡ receiver_words «record» }
{
    let counters = record.counters;
    [
        words::flag(record.assembling),
        u32::from(record.frame.0),
        u32::from(record.fragment.0),
        record.kept as u32,
        record.running,
        counters.errors,
        counters.delimiters,
        counters.assembled,
        counters.fragments,
    ]
}

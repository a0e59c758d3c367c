// The verification record (`struct seatport_link` in C) as words of 32 bits.
#![tactic(auto)]

ghost use Rattle.std.specs.Prelude.{◌≡◌, ◌≤◌, IsTrue, SomeIff};
ghost use Rattle.words.specs.Words.{word};
ghost use Rattle.verify_words.specs.Link.{link_words, link_fits, link_of};

use verify_record::{Phase, Record};

// Whether five words are a verification record's.
#[tactic(auto, using(rules::proofs::Tests::tests), unfolding(crate::specs::Link::link_fits))]
pub fn link_fits(words: [u32; 5]) -> bool
    ensures { result ≡ link_fits words }
{
    words[0] <= 3 && words[1] <= 255 && words[2] <= 255 && words[3] <= 1 && words[4] <= 255
}

// The record that they then are. Of other words of which three are octets, a phase over 3 is that of a link that failed, and an owed flag is set
// where it is 1.
pub fn link_of(words: [u32; 5]) -> Record
    requires { (word words 1 ≤ 255) × (word words 2 ≤ 255) × (word words 4 ≤ 255) }
    ensures { result ≡ link_of words }
{
    Record {
        phase: Phase::try_from(words[0]).unwrap_or(Phase::Failed),
        attempt: words[1] as u8,
        left: words[2] as u8,
        owed: words[3] == 1,
        wait: words[4] as u8,
    }
}

// The record that five words are, if they are a verification record's. Judged and then read: word by word, each with a way out of its own, a step
// takes a quarter more instructions.
pub fn link_in(words: [u32; 5]) -> Option<Record>
    ensures { SomeIff result (IsTrue (link_fits words)) (link_of words) }
{
    if link_fits(words) {
        Some(link_of(words))
    } else {
        None
    }
}

// The five words of a record.
pub fn link_words(record: Record) -> [u32; 5]
    ensures { result ≡ link_words «record» }
{
    [
        u32::from(record.phase),
        u32::from(record.attempt),
        u32::from(record.left),
        u32::from(record.owed),
        u32::from(record.wait),
    ]
}

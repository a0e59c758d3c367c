// The sending record (`struct seatport_sender` in C) as words of 32 bits.
#![tactic(auto)]

ghost use Rattle.std.specs.Prelude.{◌≡◌, ◌<◌, ◌^◌, true, IsTrue, IfSome, SomeIff};
ghost use Rattle.sender_words.specs.Sender.{sender_words, sender_fits, sender_of};

use codes::{FragmentCount, FrameCount};
use sender_record::Record;

// Whether seven words are a sending record's.
#[tactic(auto, using(rules::proofs::Tests::tests), unfolding(crate::specs::Sender::sender_fits))]
pub fn sender_fits(words: [u32; 7]) -> bool
    ensures { result ≡ sender_fits words }
{
    words[0] <= 1 && words[1] <= 1 && words[2] <= 255 && words[3] <= 255 && words[6] <= 255
}

// The record that they then are.
#[tactic(auto, using(crate::proofs::Laws::counts_known))]
pub fn sender_of(words: [u32; 7]) -> Record
    requires { sender_fits words ≡ true }
    ensures { (result ≡ sender_of words) × ((result.length < 2 ^ 32) × (result.sent < 2 ^ 32)) }
{
    Record {
        active: words[0] == 1,
        hold: words[1] == 1,
        extra: words[2] as u8,
        next: FrameCount(words[3] as u8),
        length: words::wide(words[4]),
        sent: words::wide(words[5]),
        fragment: FragmentCount(words[6] as u8),
    }
}

// The record that seven words are, if they are a sending record's. Judged and then read: word by word, each with a way out of its own, a refusal takes
// a fifth more instructions.
pub fn sender_in(words: [u32; 7]) -> Option<Record>
    ensures value { SomeIff result (IsTrue (sender_fits words)) (sender_of words) }
    ensures short { IfSome result (λ r. (r.length < 2 ^ 32) × (r.sent < 2 ^ 32)) }
{
    if sender_fits(words) {
        Some(sender_of(words))
    } else {
        None
    }
}

// The seven words of a record.
pub fn sender_words(record: Record) -> [u32; 7]
    requires { («record».length < 2 ^ 32) × («record».sent < 2 ^ 32) }
    ensures { result ≡ sender_words «record» }
{
    [
        words::flag(record.active),
        words::flag(record.hold),
        u32::from(record.extra),
        u32::from(record.next.0),
        record.length as u32,
        record.sent as u32,
        u32::from(record.fragment.0),
    ]
}

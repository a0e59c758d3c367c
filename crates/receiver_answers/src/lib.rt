// What the receiving side answers (document 01, "Receiving"): the numbered answers with what the paper says for each.
#![tactic(auto)]

ghost use Rattle.std.specs.Prelude.{◌≡◌};
ghost use Rattle.receiver_answers.specs.Answers.{refusal_number, refusal_detail, drop_number, said};

use faults::Fault;

// Why an mFrame is refused: 10, 11, and by its head 12 to 15 and 17.
#[derive(Clone, Copy)]
pub enum Refusal {
    Buffer,
    Record,
    Head(Fault),
}

// Why an mFrame is dropped: 20 to 25.
#[derive(Clone, Copy)]
pub enum Drop {
    Express,
    Heard,
    Closed,
    Count,
    Over,
    Damaged,
}

// The numbered answers: 0 and 1 with the body's length, 2 with the octets kept, 3, 4, 10 to 15, 17, 20 to 25.
#[derive(Clone, Copy)]
pub enum Answer {
    Express(usize),
    Delivered(usize),
    Kept(usize),
    VerifyHeard,
    RespondHeard,
    Refused(Refusal),
    Dropped(Drop),
}

impl Refusal {
    pub fn number(self) -> u32
        ensures { result ≡ refusal_number self }
    {
        match self {
            Refusal::Buffer => 10,
            Refusal::Record => 11,
            Refusal::Head(fault) => fault.number(),
        }
    }

    fn detail(self) -> usize
        ensures { result ≡ refusal_detail self }
    {
        match self {
            Refusal::Buffer | Refusal::Record => 0,
            Refusal::Head(fault) => fault.detail(),
        }
    }
}

impl Drop {
    fn number(self) -> u32
        ensures { result ≡ drop_number self }
    {
        match self {
            Drop::Express => 20,
            Drop::Heard => 21,
            Drop::Closed => 22,
            Drop::Count => 23,
            Drop::Over => 24,
            Drop::Damaged => 25,
        }
    }
}

impl Answer {
    pub fn number(self) -> u32
        ensures { result ≡ (said self).number }
    {
        match self {
            Answer::Express(_) => 0,
            Answer::Delivered(_) => 1,
            Answer::Kept(_) => 2,
            Answer::VerifyHeard => 3,
            Answer::RespondHeard => 4,
            Answer::Refused(why) => why.number(),
            Answer::Dropped(why) => why.number(),
        }
    }

    // A body's length for 0 and 1, the octets kept for 2, the bits for 15, else 0.
    pub fn detail(self) -> usize
        ensures { result ≡ (said self).detail }
    {
        match self {
            Answer::Express(n) | Answer::Delivered(n) | Answer::Kept(n) => n,
            Answer::Refused(why) => why.detail(),
            Answer::VerifyHeard | Answer::RespondHeard | Answer::Dropped(_) => 0,
        }
    }
}

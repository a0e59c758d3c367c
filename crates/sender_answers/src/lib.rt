// What a sending call answers (document 01, "Sending"): the mFrame that it wrote, or why it refused.
#![tactic(auto)]

ghost use Rattle.std.specs.Prelude.{◌≡◌};
ghost use Rattle.sender_answers.specs.Answers.{number};

// Why a sending call refuses: 30 to 34.
#[derive(Clone, Copy)]
pub enum Refusal {
    Output,
    Record,
    Body,
    Length,
    Hold,
}

impl Refusal {
    pub fn number(self) -> u32
        ensures { result ≡ number self }
    {
        match self {
            Refusal::Output => 30,
            Refusal::Record => 31,
            Refusal::Body => 32,
            Refusal::Length => 33,
            Refusal::Hold => 34,
        }
    }
}

// What a sending call wrote: an mFrame of so many octets, and whether its frame is done.
#[derive(Clone, Copy)]
pub struct Written {
    pub length: usize,
    pub done: bool,
}

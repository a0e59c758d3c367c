// The second receiver (document 02, (iv)): it is given an mFrame octet by octet, keeps the octets in a lent area, and at the end answers what the
// first receiver answers to all of them.
#![tactic(auto)]

mod ending;

ghost use Rattle.std.specs.Prelude.{◌≡◌, ◌≤◌, length};
ghost use Rattle.stream.specs.Stream.{most, number, unsound, counted, stored, stream_of, Streams};

pub use ending::runs_over;
use receiver_answers::Answer;
use receiver_record::Record;

// The most octets that are kept of an mFrame, and the least area.
pub const MOST: u32 = 1531;

// What the caller keeps between calls, beside the area: how many octets at its front came since the last end, and whether there were more. The
// count is a u32, since a machine of 32 bits has it in one register.
// The count stands beside both values of the flag, and test 19 (`is_unsound`) refuses some such pairs, so this is no Option.
#[derive(Clone, Copy)]
pub struct State {
    pub count: u32,
    pub more: bool,
}

// Why a call is refused before all else: 18 and 19.
#[derive(Clone, Copy)]
pub enum Refusal {
    Area,
    State,
}

// What a call answers: a refusal of its own; else nothing while it waits for more octets, and at the end what the first receiver answers.
pub type Reply = Result<Option<Answer>, Refusal>;

// The reply, and what is to be kept: the state, and the first receiver's record.
#[derive(Clone, Copy)]
pub struct Streamed {
    pub reply: Reply,
    pub state: State,
    pub after: Record,
}

impl Refusal {
    pub fn number(self) -> u32
        ensures { result ≡ number self }
    {
        match self {
            Refusal::Area => 18,
            Refusal::State => 19,
        }
    }
}

impl State {
    // No octet since the last end.
    pub const EMPTY: State = State {
        count: 0,
        more: false,
    };

    // Test 19.
    #[tactic(auto, using(rules::proofs::Tests::tests))]
    pub fn is_unsound(self) -> bool
        ensures { result ≡ unsound self }
    {
        MOST < self.count || self.more && self.count < MOST
    }
}

// An octet: kept behind those before it where there is room, else only remembered.
#[tactic(auto, using(rules::proofs::Tests::tests))]
fn keep(octet: u8, state: State, area: &mut [u8]) -> State
    requires { most ≤ length area.old }
    ensures { (result ≡ counted state) × (area.new ≡ stored octet state area.old) }
{
    if state.count < MOST {
        area[state.count as usize] = octet;
        return State {
            count: state.count + 1,
            ..state
        };
    }
    State {
        more: true,
        ..state
    }
}

// One octet, or the end of the mFrame where there is none.
#[tactic(auto, using(rules::proofs::Tests::tests), unfolding(crate::specs::Stream::stream_of))]
pub fn stream(
    octet: Option<u8>,
    state: State,
    area: &mut [u8],
    record: Record,
    buffer: &mut [u8],
) -> Streamed
    ensures { Streams (stream_of octet state area.old «record» buffer.old) result area.new buffer.new }
{
    if area.len() < MOST as usize {
        return Streamed {
            reply: Err(Refusal::Area),
            state,
            after: record,
        };
    }
    if state.is_unsound() {
        return Streamed {
            reply: Err(Refusal::State),
            state,
            after: record,
        };
    }
    match octet {
        Some(octet) => Streamed {
            reply: Ok(None),
            state: keep(octet, state, area),
            after: record,
        },
        None => {
            let got = ending::end(state, area, record, buffer);
            Streamed {
                reply: Ok(Some(got.answer)),
                state: State::EMPTY,
                after: got.after,
            }
        }
    }
}

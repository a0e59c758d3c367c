// The part of a preemptable frame that goes now: where it ends, and its kind.
#![tactic(auto)]

ghost use Rattle.std.specs.Prelude.{◌≡◌, ◌+◌, ◌≤◌};
ghost use Rattle.sender_part.specs.Parts.{part_now, Ends, kind_of};

use mframe::{CHECK, Kind};
use sender_record::Record;

// Where this part ends in the body, and whether that is the frame's end.
#[derive(Clone, Copy)]
pub struct End {
    pub to: usize,
    pub done: bool,
}

// The part that goes now of a body of n octets.
#[tactic(auto, using(cut::proofs::Laws::cut_room, crate::proofs::Laws::part_active, crate::proofs::Laws::part_inactive, crate::proofs::Laws::ends_cut))]
pub fn stretch(r: Record, n: usize, ask: Option<usize>) -> End
    requires { (r.sent + 60 ≤ n) × (n ≤ 1518) }
    ensures { Ends r n (part_now r n ask) result }
{
    let whole = End { to: n, done: true };
    if !r.active {
        return whole;
    }
    match cut::next_part(n + CHECK, r.sent, r.extra, ask) {
        Some(k) => End {
            to: r.sent + k,
            done: false,
        },
        None => whole,
    }
}

// S, or E where the port is not active, for a frame not yet begun; else the continuation, which carries the count before the next one.
#[tactic(auto, unfolding(crate::specs::Parts::kind_of))]
pub fn kind(r: Record) -> Kind
    ensures { result ≡ kind_of r }
{
    if r.length != 0 {
        return Kind::Continuation(r.next.last(), r.fragment);
    }
    if r.active {
        return Kind::Start(r.next);
    }
    Kind::Express
}

// The head of any octets (document 01, "Receiving", with the heads of document 02, (vi)): the kind with its counts and where the data begin, or the refusal.
#![tactic(auto)]

mod read;

use mframe::Kind;
pub use read::{head_of, is_known};

// What the head of an mFrame says where it is not refused: the kind and the place where the data begin.
#[derive(Clone, Copy)]
pub struct Head {
    pub kind: Kind,
    pub place: usize,
}

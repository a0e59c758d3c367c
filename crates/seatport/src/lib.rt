// The port for C and Rust to link: an exported function for each public call of document 01, and of document 02, (i), (iv) and (vii), over numbers, lent
// octets and words, and records that are words of 32 bits. include/seatport.h declares them.
#![tactic(auto)]

mod capturing;
mod receiving;
mod scheduling;
mod sending;
mod streaming;
mod tracing;
mod verifying;

pub use capturing::{seatport_capture_read, seatport_capture_write};
pub use receiving::{seatport_express_body, seatport_receive};
pub use scheduling::{seatport_gates_events, seatport_gates_read, seatport_gates_write};
pub use sending::{seatport_express, seatport_preemptable, seatport_respond, seatport_verify};
pub use streaming::{seatport_end, seatport_octet};
pub use tracing::seatport_trace;
pub use verifying::seatport_step;

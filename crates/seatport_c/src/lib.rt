// The port for C to link, libseatport.a: each call of the library seatport, with the same clauses, under the name that include/seatport.h declares.
#![tactic(auto)]

mod capturing;
mod receiving;
mod scheduling;
mod sending;
mod streaming;
mod tracing;
mod verifying;

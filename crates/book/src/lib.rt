// The trace book: a file of delays and events, with a trailer that says where they are.
#![tactic(auto)]

mod bytes;
pub mod fault;
pub mod kind;
mod marks;
pub mod read;
mod trailer;

// Traces: delays, events and their marks, in tables that the caller lends.
#![tactic(auto)]

pub mod calls;
mod gather;
pub mod parts;
mod side;
pub mod table;

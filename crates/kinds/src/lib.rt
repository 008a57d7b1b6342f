// Kinds of time: totally ordered commutative groups, and the weights that stand for their members.
#![tactic(auto)]

pub mod fine;
pub mod fine_kind;
pub mod kind;
#[cfg(test)]
mod tests;
pub mod twin;
pub mod twin_kind;
pub mod whole;
pub mod whole_kind;

// The verdict on a trace: its earliest times, or a chain of links that no schedule meets.
#![tactic(auto)]

pub mod call;
mod cycle;
pub mod found;
pub mod link;
mod links;
pub mod machine;
mod marks;
mod rows;
mod search;
pub mod source;
mod sweep;
pub mod tables;
pub mod verdict;

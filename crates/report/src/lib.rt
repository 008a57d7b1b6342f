// What is printed of a book and its verdict.
#![tactic(auto)]

pub mod print;

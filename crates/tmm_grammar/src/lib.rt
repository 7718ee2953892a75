//! The theory of a script line: how readers that take one word after the other find what a line
//! says, and that a line is read in one way and shown so that it is read back. Its functions are
//! laws: each has an empty body and ensures one.
#![tactic(auto)]

mod laws;

pub use laws::{reading_is_one, shown_premise_reads, words_are_one};

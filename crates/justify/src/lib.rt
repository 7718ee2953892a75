//! The reasons of a belief: the lines of an occurrence and of all that it rests on, each before
//! what rests on it, and before a derived one the orders in time that its supporters need. It
//! stands on `tt_query` and `neg_cycle`.
//!
//! `why` takes the standing list with its network and the tree of the believed occurrences, and
//! answers as the map of that list does. It hands each line to a `Listener` as soon as it is made.
//! `steps_between` gives the constraints of a least walk between two spots. `bounds_between`,
//! `path_between`, `ask_between` and `tell_why` answer questions by their words: each is what a call
//! of `MapCore` promises, for the list as it stands. Without memory a call answers that.
#![tactic(auto)]

mod grounds;
mod lines;
mod questions;
mod reasons;
mod upholders;
mod walks;

pub use map_core::Listener;
pub use questions::{ask_between, bounds_between, path_between, tell_why};
pub use reasons::why;
pub use walks::steps_between;

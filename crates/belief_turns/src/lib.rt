//! Turns: of the rows that wait, the one that is due first is decided again, until none waits
//! (`settle`).
//!
//! Where a rule fires that did not, its effect enters, with a row for each rule on it; where it
//! fires no more, its effect goes with all below it. `marking` lets those rows wait on which a token
//! among them bears. What enters and leaves is told (`Told`), and what enters counts for the size
//! of the map. The laws of turns say that this keeps what `joined` says of nodes and rows.
#![tactic(auto)]

mod deciding;
mod entering;
mod following;
mod leaving;
mod rows;
mod settling;
mod told;
mod turn;
mod turn_laws;

pub use rows::{Heads, add_rows, add_under, heads_of};
pub use settling::settle;
pub use told::Told;

//! What the program asks of a time map, and nothing of how one is kept: `MapCore`, the contract
//! that a session stands on and that maps meet. It stands on `premise_list` alone, so a session and
//! a map are proved beside each other.
//!
//! An edit is a `Pending` until it is kept or undone. A `Listener` hears the lines of reasons, each
//! as soon as it is made, and a `Counter` counts the decisions that a map makes. A map that `Opens`
//! can be made empty, and one that `Copies` as another one.
#![tactic(auto)]

mod counter;
mod listener;
mod making;
mod time_map;

pub use counter::Counter;
pub use listener::Listener;
pub use making::{Copies, Opens};
pub use time_map::{MapCore, Pending};

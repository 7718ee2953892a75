//! What a map answers of points and facts: the spot of a point that a question names, the bounds on
//! the distance of two spots, and whether a fact holds from one spot to another. It stands on
//! `supports`.
//!
//! Each call takes the standing list with its network and the tree of the believed occurrences, and
//! answers as the map of that list does. A point that is not there is refused with its cause.
//! Without memory a call answers that.
#![tactic(auto)]

mod asking;
mod distances;
mod firsts;
mod points;
mod refused;

pub use asking::ask;
pub use distances::bounds;
pub use points::{resolve, resolve_why};
pub use refused::name_refused;

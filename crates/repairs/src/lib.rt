//! The mode `repairs`: a script in which a line asks for the small changes that mend a broken
//! protection and break no other.
//!
//! `repairs` answers them over any map. Each candidate is made on the map itself or on a copy of
//! it, and undone. `AreRepairs` in `specs/Repairs.antt` says which of the candidates are repairs.
#![tactic(auto)]

mod aim;
mod candidates;
mod free_names;
mod judging;
mod protection;
mod repairing;
mod trials;

pub use candidates::repairs;
pub use free_names::free_name;
pub use repairing::Repairing;

//! Spots in time: declared points by their numbers in a network, and the begins of occurrences,
//! which stand as numbered nodes. It stands on `list_net`.
//!
//! It has the types, what nodes mean, the tightest distance of two spots and the order of nodes,
//! and the laws that these are the distances and the order of occurrences of a standing list, where
//! nodes and network are those of the list. `Sums` of the delays of rules tell how far apart two
//! nodes are, with those of the last node that the ways to both share (`between`).
#![tactic(auto)]

mod link;
mod node_row;
mod spot;
mod spot_laws;
mod sums;

pub use link::Link;
pub use node_row::NodeRow;
pub use spot::Spot;
pub use spot_laws::{rows_are_the_tokens, spots_are_the_lists};
pub use sums::{Sums, between, less, plus};

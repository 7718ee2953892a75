//! Occurrences as nodes of a tree that is undone by a log: declared events, tokens and spans, and
//! below each event what rules lead to from it. It stands on `spots`.
//!
//! With a network of distances a `Tree` answers the tightest distance of two spots. Where the dates
//! that it keeps are those of the network, nodes compared by these are in the order of `spots`, and
//! `Order` is that order for `clipping`, with the dates. Roots and effects that come and nodes that
//! go leave the dates those of the network (`roots_keep_dates`, `effects_keep_dates`,
//! `withdrawals_keep_dates`), and `Tree::re_date_all` makes them those of another one.
//!
//! `ByName` finds the occurrences of one tree among those of another. `Tree::touched` tells which
//! nodes and classes the edits since the last commit may have touched, where they moved points of
//! the network.
#![tactic(auto)]

mod below;
mod by_name;
mod classes;
mod dated_laws;
mod edit_laws;
mod far;
mod find;
mod leaving;
mod node;
mod nodes;
mod numbers;
mod order;
mod ranks;
mod re_dating;
mod sorting;
mod tokens;
mod told;
mod touched;
mod tree;
mod words;

pub use by_name::ByName;
pub use dated_laws::{
    effects_keep_dates, points_date_nodes, roots_date_all, roots_keep_dates, withdrawals_keep_dates,
};
pub use edit_laws::{growing_enters, shrinking_withdraws};
pub use order::Order;
pub use ranks::{Ranked, in_order};
pub use touched::Touched;
pub use tree::Tree;

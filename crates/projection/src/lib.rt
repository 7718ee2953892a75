//! What a standing list projects (as in Dean and McDermott 1987): what becomes of a rule at an
//! event, and the tree of all that is believed. It stands on `supports` and `name_lists`.
//!
//! `decide` tells the outcome of a rule at an event among the nodes of a tree, with the supporters
//! that it names; `judge` tells it without them, at less cost. `rebuild` makes the tree of the
//! believed occurrences, from what is declared, by deciding each rule that is due at an event once,
//! in the order of dates; it answers also the size of the map, and refuses exactly a list whose map
//! is too large. `RulesByKind` tells which rules are on the kind of an event, and `weight_of` what
//! an occurrence counts of that size, as `weight_after` does for one node after the other.
//! `KnownKinds` tells both of events that enter one after the other. Without memory a call answers
//! that.
#![tactic(auto)]

mod decision;
mod growth;
mod judging;
mod kinds;
mod known;
mod pending;
mod rule;
mod weight;

pub use decision::{Decision, decide};
pub use growth::{Projected, rebuild};
pub use judging::{Verdict, judge};
pub use kinds::RulesByKind;
pub use known::KnownKinds;
pub use map_core::Counter;
pub use weight::{KindCount, weight_after, weight_of};

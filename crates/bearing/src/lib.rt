//! Which distances are others than at the last commit, and which tokens bear on a decision at an
//! event. It only looks, at a tree of occurrences and at the distances now and then.
//!
//! | What is asked | File |
//! |---|---|
//! | Which two points are another distance apart? | `distances_changed` |
//! | Which points were there before, and which of them stand fast? | `what_moved` |
//! | Of which points does a decision depend that reads a class? | `points_of_class` |
//! | And one of a rule, where premises set facts against each other? | `points_of_rule` |
//! | At which events does it depend on a distance that is another one now? | `events_touched` |
//! | Is the event of a node one of these? | `events` |
//! | Does a token bear on a decision that enters or leaves? | `moving_tokens` |
//! | Does one bear on it that moved, before or now? | `loose_tokens` |
//! | Did one bear on it that left with an erased premise? | `gone_tokens` |
//! | Where is a node, and is it surely within a time of another one? | `places` |
//! | Which tokens that stand fast stand between a token and an event? | `walls` |
//!
//! A token bears on nothing at an event that it has not surely begun by, and at one by which two
//! tokens of its class, of two facts, have surely begun after it (`revisions` has the law).
//! Points have numbers below 256, so sets of points and of pairs are rows of marks (`point_sets`).
#![tactic(auto)]

pub mod distances_changed;
pub mod events;
pub mod events_touched;
pub mod gone_tokens;
mod lists;
pub mod loose_tokens;
pub mod moving_tokens;
pub mod places;
mod point_sets;
pub mod points_of_class;
pub mod points_of_rule;
pub mod walls;
pub mod what_moved;

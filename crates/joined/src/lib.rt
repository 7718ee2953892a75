//! How nodes and rows stand for a revision: what a tree of occurrences and a table of decisions say
//! of the loop that keeps beliefs current.
//!
//! Nodes are any `Forest`, and rows any function from numbers, of which those of `decision_rows`
//! are one. Its functions have empty bodies: each ensures a law of the definitions.
#![tactic(auto)]

mod laws;

pub use laws::{
    class_marks_mark, code_turns_keep, effects_are_there, effects_may_enter, horizons_keep,
    horizons_mark, moved_points_touch, netted_are_counted, netted_are_current, netted_tell,
    nodes_stay_seen, nothing_is_current, pairs_are_listed, prepared_are_netted, prepared_are_told,
    readers_are_listed, reads_are_by_class, resting_are_marked, resting_keep, same_decisions_keep,
    starts_are_netted, touched_are_marked, turns_tell, withdrawals_leave,
};

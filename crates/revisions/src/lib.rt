//! How beliefs are kept current when the list changes: the mathematics, over plain lists.
//!
//! A revision begins with what still occurs of the old beliefs and with the new roots; decisions
//! that an edit touches wait, and are made again, earliest first. Its functions have empty bodies:
//! each ensures a law of the definitions.
#![tactic(auto)]

mod laws;

pub use laws::{
    alike_believe, changed_were_made, clips_stay, clips_stay_on, edits_are_counted,
    edits_are_lawful, end_is_believed, idle_edits_say_alike, like_lists_see, made_are_touched,
    marks_make, nodes_are_final, outcomes_stay_but, revisions_are_right, same_read_say_alike,
    seeds_are_right, seeds_keep, shifts_keep, standing_occur, told_is_changed, turns_keep,
    unmoved_are_alike, unread_edits_say_alike, unruled_edits_keep_rules,
};

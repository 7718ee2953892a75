//! What the definitions of `tmm_model` are worth: laws of dates, distances, timings, cycles,
//! beliefs, reasons, edits, dumps and whole transcripts. Its functions have empty bodies, and each
//! ensures a law. No crate stands on this one.
#![tactic(auto)]

mod beliefs;
mod cycles;
mod distances;
mod edits;
mod transcripts;

pub use beliefs::{
    beliefs_are_right, decisions_fire_where_believed, exceptions_lack_support, maps_are_right,
    one_right_set, reasons_are_earlier,
};
pub use cycles::{cycle_sums_are_one, cycles_refuse};
pub use distances::{
    dates_exactly_without_negative_cycle, distances_are_least, distances_are_shortest,
    distances_are_tightest, points_time_occurrences, sound_lists_are_shortest,
    timings_are_tightest,
};
pub use edits::{dump_reloads, lists_stay_kept, untouched_decisions_keep_outcomes};
pub use transcripts::{
    dumps_run, lines_are_answered, runs_keep_lists, steps_leave_one, texts_are_one,
};

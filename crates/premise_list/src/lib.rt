//! The standing list: the premises that hold, in the order in which they were added, looked up by
//! name and by place.
//!
//! It stands on `tmm_model`. A `Standing` keeps two lists, the present one and the one of the last
//! commit. `check` tells the first cause among names and counts for which an edit is refused,
//! exactly as the definitions of causes say; `add`, `erase` and `set_horizon` make the edits that
//! it lets through.
#![tactic(auto)]

mod check;
mod erase;
mod past;
mod premise;
mod rivalries;
mod standing;
mod table;

pub use standing::Standing;

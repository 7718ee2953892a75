//! Lists under numbers 0, 1, .., with changes that a log undoes.
//!
//! It stands on `tmm_model` and `undo_log`. A `Lists` is seen as the lists now, as those at the
//! last commit, and as the room that there is for more. An item enters and leaves a list at a place
//! that the caller states, and each change is logged as it is made; `rollback` undoes what is
//! logged, latest first, and takes no memory; `commit` forgets the log. `changed` tells which lists
//! the log has changes of. A list's room never shrinks, so an item that comes back finds room. It
//! is at both ends, so that fewer items move where one enters or leaves in the first half.
#![tactic(auto)]

mod change;
mod item_list;
mod lists;
mod steps;

pub use change::Change;
pub use lists::Lists;

//! The mode `suppose`: a script in which suppositions are put on top of the map, and each is kept
//! or given up whole.
//!
//! A `Stack` holds the maps, and is a map itself: the one on top. `Supposing` answers lines over it
//! for a `ModeSession`: those of the mode's own change the stack, and every other line is answered
//! by `tmm_session` on the map on top. `SupposeStep` in `specs/Worlds.antt` is the step of the
//! transcript, and the functions of `laws` ensure what it says of a supposition that is given up,
//! and of one that is kept.
#![tactic(auto)]

mod as_map;
mod laws;
mod stack;
mod supposing;

pub use laws::{dropped_leave_nothing, kept_are_as_alone};
pub use stack::{MOST_SUPPOSITIONS, NoneStands, Stack, StackStop};
pub use supposing::Supposing;

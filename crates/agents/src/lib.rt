//! The mode `agents`: a script in which several agents share a map, and each holds edits of its own
//! that are made together or not at all.
//!
//! `Agents` holds the map and the edits. `Sharing` answers lines over it for a `ModeSession`: an
//! agent's lines hold edits, make them or forget them, and lines without an agent ask questions
//! about the map. `SharingStep` in `specs/Sharing.antt` is the step of the transcript, and the
//! functions of `laws` ensure that a script's lines and replies tell what stands and what is held, and
//! that the order of lines of different agents does not matter, but for that of the commits.
#![tactic(auto)]

mod agents;
mod batches;
mod laws;
mod making;
mod reading;
mod sharing;

pub use agents::{Agents, Offer};
pub use batches::{Held, HoldStop, Holding, MOST_AGENTS, MOST_HELD};
pub use laws::{lines_tell_the_world, order_of_commits_decides};
pub use making::{BatchStop, Lagging};
pub use sharing::Sharing;

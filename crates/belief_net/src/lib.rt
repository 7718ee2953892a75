//! What is believed, kept current: a tree of the believed occurrences with a row for each decision
//! of a rule at an event, of which after an edit only those are made again that the edit touches.
//!
//! `BeliefNet::update` withdraws what is erased (`belief_table`), gives roots their dates, enters
//! what is added, lets rows wait that the edit touches (`marking`), and makes turns until none waits
//! (`belief_turns`). `rollback` leads back from anywhere on the way.
#![tactic(auto)]

mod alike_laws;
mod beginning_laws;
mod copying;
mod dates;
mod kind_events;
mod mark_laws;
mod opening;
mod rooting;
mod ruling;
mod state;
mod undo;
mod update;

pub use belief_table::DatedOcc;
pub use belief_turns::Told;
pub use state::BeliefNet;

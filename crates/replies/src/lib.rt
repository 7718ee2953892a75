//! The bytes of every reply to a line of a script.
//!
//! Each call makes the whole reply in one buffer, and ensures that its bytes are the text which the
//! definitions of `tmm_model` give for that answer under the line's number. `put_reason` makes a
//! reply to `why` longer by a line. It stands on `tmm_model`, whose types it prints, and for `dump`
//! on `premise_list` and `tmm_script`. Without memory for the reply a call answers `NoMemory`.
#![tactic(auto)]

mod batches;
mod details;
mod dump;
mod edits;
mod fixes;
mod memory;
mod modes;
mod questions;
mod reasons;
mod timelines;
mod words;

pub use batches::{reply_batch, reply_batch_no, reply_held};
pub use dump::reply_dump;
pub use edits::{reply_no, reply_ok};
pub use fixes::reply_repairs;
pub use memory::memory_reply;
pub use modes::{reply_mode_no, reply_mode_ok};
pub use questions::{
    Word, reply_answer, reply_bounds, reply_check, reply_list, reply_number, reply_path, reply_why,
};
pub use reasons::put_reason;
pub use timelines::reply_timeline;

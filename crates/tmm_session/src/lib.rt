//! A line of a script to its reply.
//!
//! `Session` reads a line, asks any `MapCore` for what it says, and makes the reply. An edit is
//! kept once its reply is there; where there is no memory for it, the edit is undone. It answers
//! lines for `tmm_drive`, and `tell` says of which kind a reply is, for a caller that counts
//! replies. `answer_line` does the same over a map that a caller holds within a larger value.
#![tactic(auto)]

mod session;
mod told;
mod why_text;

pub use session::{Session, answer, answer_line};
pub use told::{ReplyKind, Told};

//! The session of a mode, once for all modes.
//!
//! A mode answers lines of its own beside those of a script. `Moded` is what it says of both, and
//! `ModeSession` reads each line, gives it to the mode as the one or the other, and so answers
//! lines for `tmm_drive`. `ModeStep` in `specs/ModeSteps.antt` is the step of its transcript.
#![tactic(auto)]

mod moded;
mod session;

pub use moded::Moded;
pub use session::ModeSession;

//! The reading loop of the program: bytes to lines, turns to bytes.
//!
//! `drive` cuts what it reads from a source into lines, gives each to whatever answers lines (the
//! trait `Lines`), writes its reply at once, and tells how the run ended. It knows nothing of maps.
//! Its contract says, for each `Status`, what the bytes taken and the bytes written have to do with
//! each other. It stands on `tmm_io`, and on `replies` for the reply where there is no memory.
#![tactic(auto)]

mod lines;
mod reading;
mod status;
mod tally;
#[cfg(test)]
mod tests;

pub use lines::Lines;
pub use reading::drive;
pub use status::Status;

//! The outside of the time map: where a script is read from, and where replies are written to.
//!
//! Two traits, `Source` and `Sink`, with the ends in memory and over std's readers and writers. It
//! stands on `tmm_model`. A source gives its bytes in order and a sink keeps bytes in order; either
//! answers `Failed` only where its count of faults rose in that call, or stands at its last value.
#![tactic(auto)]

mod ends;
mod mem_sink;
mod mem_source;
mod pieces;
mod repeat;
mod std_ends;
mod steady;

pub use ends::{Failed, Sink, Source};
pub use mem_sink::MemSink;
pub use mem_source::MemSource;
pub use repeat::RepeatSource;
pub use std_ends::{StdSink, StdSource};
pub use steady::{SteadySink, SteadySource};

#[cfg(test)]
mod tests;

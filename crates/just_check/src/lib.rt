//! The independent audit: whether rows, made by anybody, are the believed occurrences of a standing
//! list in their order, each once. It stands on `supports`, and uses nothing of what makes beliefs.
//!
//! `audit` goes through the rows once, in their order. What is to stand among them is awaited under
//! its origin: all that is declared to occur from the beginning, and what the rules on an event
//! bring about once the rows have passed its date, found among the rows up to there. Each row has
//! to be awaited, and to come after the row before it; at the end nothing may be awaited.
#![tactic(auto)]

mod auditing;
mod expected;
mod rows;
mod rules;

pub use auditing::audit;

//! The table of beliefs: the believed occurrences, a row for each decision of a rule at one of their
//! events, and the rows that wait to be decided, the earliest first.
//!
//! Rules and classes have small numbers that stay (`Numbers`), and the rows stand on lists under
//! them. What waits is `Waiting`. Rows are let wait along a list: all of it from a date on, but for
//! events at which a token bears on nothing (`mark_list`, `mark_class`), or those at some events
//! (`mark_events`). Which rows have to wait, `marking` says; `belief_turns` decides them.
//!
//! `erase` takes out what premises leave behind that the list has no more: roots and the effects of
//! rules, with all below them and the rows at their events. `Departed` is what left.
#![tactic(auto)]

mod copying;
mod dated;
mod dropping;
mod erasing;
mod let_wait;
mod let_wait_at;
mod lists;
mod numbers;
mod state;
mod waiting;

pub use dated::DatedOcc;
pub use dropping::drop_rows;
pub use erasing::{Departed, erase};
pub use let_wait::{mark_class, mark_list};
pub use let_wait_at::mark_events;
pub use numbers::Numbers;
pub use state::{Beliefs, Decisions};
pub use waiting::{Entry, Waiting, date_at};

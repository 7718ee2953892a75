//! Rows on lists, whose edits are undone by a log.
//!
//! It stands on `row_links`, `undo_log` and `slab`. A `Rows<T, F>` is seen as a table now and as it
//! was at the last commit. A row keeps a value, and is on at most one list in each of `F` families,
//! that of its head there. Each change is logged as it is made; `rollback` undoes what is logged,
//! latest first, and takes no memory; `commit` forgets the log.
#![tactic(auto)]

mod change;
mod row;
mod rows;
mod steps;
mod stored;

pub use change::Change;
pub use row::Row;
pub use rows::Rows;

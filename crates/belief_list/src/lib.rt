//! The believed occurrences in order, each with its earliest date and its clip, and what an edit
//! changes of them. It stands on `supports`, `joined` and `projection`.
//!
//! `listed` answers the rows of the map of a standing list, found from its tree alone, and
//! `list_rows` tells rows for a reply. `compare` answers what of belief changed from the rows of
//! one tree to those of another, as it is defined for their maps.
//!
//! A map whose nodes keep their numbers from one commit to the next keeps a row under each number.
//! `differences` answers what an edit makes of these rows, and looks only at what the edit may have
//! touched. From the differences alone `changes_told` answers what of belief changed, and
//! `size_after` the size of the map. `reach` makes places for new numbers, and `take_over`, which
//! takes no memory, writes the differences into what is kept. `listed_by_number` puts all rows in
//! order. `with_protections` joins what changed of belief with what changed of protections. Without
//! memory a call answers `NoMemory`.
#![tactic(auto)]

mod by_number;
mod changes;
mod differing;
mod kept_rows;
mod left_nodes;
mod list;
mod matched;
mod of_rows;
mod places;
mod size;
mod told_changes;
mod whole_changes;

pub use by_number::listed_by_number;
pub use changes::{BeliefChanges, compare};
pub use differing::differences;
pub use kept_rows::{Difference, KeptRow, reach, take_over};
pub use left_nodes::LeftNode;
pub use list::{BeliefRow, list_rows, listed};
pub use of_rows::occurrences;
pub use size::size_after;
pub use told_changes::changes_told;
pub use whole_changes::with_protections;

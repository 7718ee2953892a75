//! Broken protections: those of a map, and those that an edit breaks or mends. It stands on
//! `tt_query`.
//!
//! `report` answers the broken protections of the standing list, in the order of premises, each
//! with what is found of its fact. `BrokenProtections` keeps them under their names. `review_edit`
//! answers what an edit makes of these, and looks again only at the protections that it did not
//! leave alone; a `Review` tells which are newly broken and which are broken no longer, and is
//! taken over without memory once there is room. `delta` tells the same of the reports before an
//! edit and those after it. Without memory a call answers `NoMemory`.
#![tactic(auto)]

mod broken_protections;
mod comparing;
mod copies;
mod lists;
mod reporting;
mod review;
mod reviewing;

pub use broken_protections::BrokenProtections;
pub use comparing::delta;
pub use copies::copied;
pub use reporting::report;
pub use review::{Review, Reviewed};
pub use reviewing::review_edit;

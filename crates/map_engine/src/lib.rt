//! The time map (after Dean and McDermott 1987): a standing list with its distances, its beliefs
//! and its broken protections, of which one edit may be pending. `list_net` keeps the first two,
//! `belief_net` the beliefs; `belief_list` and `protections` tell what an edit changes, `tt_query`
//! and `justify` answer.
//!
//! `MapCore` is its contract: every answer is that of the map which is built of the list from
//! scratch, an edit is accepted exactly where the definitions say so, and a refusal or want of
//! memory changes nothing. `NetMap`, which the program runs, meets it by keeping the believed
//! occurrences and their decisions current: an edit makes again only the decisions that it touches,
//! and none where it is seen that it touches no belief.
#![tactic(auto)]

mod at_node;
mod kept_view;
mod moved;
mod net_map;
mod next;
mod rival_classes;
mod still;
mod touching;

pub use map_core::{MapCore, Opens, Pending};
pub use net_map::NetMap;

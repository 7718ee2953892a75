//! Trials of the crates that make, list and check beliefs, by their public calls: `clips` of
//! `clipping` and `any_order`, `rivals` of `clipping`, `trees` and `orders` of `occ_tree`,
//! `decisions` of `projection`, `told` of `belief_list`, `audits` of `just_check` and `guards` of
//! `protections`. It has no functions but its tests, and no crate stands on it.
#![tactic(auto)]

#[cfg(test)]
mod audits;
#[cfg(test)]
mod clips;
#[cfg(test)]
mod decisions;
#[cfg(test)]
mod guards;
#[cfg(test)]
mod listed;
#[cfg(test)]
mod names;
#[cfg(test)]
mod orders;
#[cfg(test)]
mod premises;
#[cfg(test)]
mod rivals;
#[cfg(test)]
mod told;
#[cfg(test)]
mod trees;

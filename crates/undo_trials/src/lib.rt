//! Trials of what a log undoes: lists whose items, and rows whose places on lists, come back in
//! their order. It has no functions but its tests, and no crate stands on it.
#![tactic(auto)]

#[cfg(test)]
mod decisions;
#[cfg(test)]
mod links;
#[cfg(test)]
mod lists;
#[cfg(test)]
mod rows;

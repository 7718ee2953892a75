//! Trials of a session over the map that the program runs, for what no contract says: how many
//! decisions a worked script makes, that a long history of edits which touch no belief makes none
//! and soon ends, and that the plain map answers scripts alike, byte by byte. It has no functions
//! but its tests, and no crate stands on it.
#![tactic(auto)]

#[cfg(test)]
mod tests;

//! Trials of the network of distances and of the list of premises: distances, edges that are taken
//! out, walks and cycles, which edits are let through, and the bytes of replies. It has no
//! functions but its tests, and no crate stands on it.
#![tactic(auto)]

#[cfg(test)]
mod cycles;
#[cfg(test)]
mod distances;
#[cfg(test)]
mod networks;
#[cfg(test)]
mod premises;
#[cfg(test)]
mod repairs;
#[cfg(test)]
mod texts;

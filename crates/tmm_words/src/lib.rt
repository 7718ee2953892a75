//! The words of a script line, and what single words spell: numbers, bounds, points and
//! occurrences. It stands on `tmm_model`. A word is read exactly where the grammar spells a value
//! so, and as that value; only an occurrence with rules takes memory.
#![tactic(auto)]

mod numbers;
mod points;
mod words;

pub use numbers::{bound, number};
pub use points::{occ, point_name};
pub use words::{next_word, split_word};

#[cfg(test)]
mod tests;

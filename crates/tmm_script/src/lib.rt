//! The grammar of a script line, both ways: a line to its value, and a premise to its line.
//! It stands on `tmm_model`, which defines the grammar, and `tmm_words`. `parse_line` gives exactly
//! what a line reads as, and refuses it exactly where it is too long or reads as nothing;
//! `print_premise` writes the line that reads as the premise.
#![tactic(auto)]

mod edits;
mod fields;
mod mode_lines;
mod parse;
mod print;
mod queries;

pub use edits::{begins_edit, edit};
pub use fields::Misread;
pub use mode_lines::mode_line;
pub use parse::{first_word, parse_line};
pub use print::print_premise;
pub use queries::query;

#[cfg(test)]
mod tests;

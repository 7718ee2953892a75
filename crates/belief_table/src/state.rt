// What is kept of beliefs.
use crate::numbers::Numbers;
use crate::waiting::Waiting;
use decision_rows::Rows;
use occ_tree::Tree;

/// The believed occurrences, and the decisions on which they rest.
#[derive(Drop)]
pub struct Beliefs {
    /// The occurrences.
    pub tree: Tree,
    /// The decisions of rules at events.
    pub decisions: Decisions,
}

/// A row for each decision of a rule at an event.
#[derive(Drop)]
pub struct Decisions {
    /// The rows, under the numbers of rules and of the classes of what they read.
    pub rows: Rows,
    /// The rules by their numbers.
    pub rules: Numbers,
    /// The classes by their numbers.
    pub classes: Numbers,
    /// The rows that are to be decided again.
    pub waiting: Waiting,
}

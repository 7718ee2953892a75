// Rules on the way to an occurrence.
use tmm_model::{Bound, Name};

/// A rule on the way to an occurrence, with its least and its most delay in whole time units.
#[derive(Clone, Copy)]
pub struct Link {
    /// The name of the rule.
    pub rule: Name,
    /// Its least delay.
    pub lo: i64,
    /// Its most delay, none where it has no bound.
    pub hi: Bound,
}

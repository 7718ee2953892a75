// What a row keeps.

/// How many families of lists there are: of triggers, of rules, and of the class of each fact that
/// a rule reads.
pub(crate) const FAMILIES: usize = 8;

/// What was decided of a rule at a trigger: its effect is believed, or why it is not. Which tokens
/// support its antecedents is not kept: nothing that follows of a decision reads them.
#[derive(Clone, Copy, PartialEq, Eq, Debug)]
pub enum Decision {
    /// Its effect is believed.
    Fires,
    /// The antecedent at this place is the first without a supporter.
    Blocked { antecedent: usize },
    /// Each antecedent has a supporter; the exception at this place is the first that has one too.
    Barred { exception: usize },
    /// Its effect would begin after the horizon.
    Beyond,
}

/// A pair of a trigger and a rule, with what was decided of it.
#[derive(Clone, Copy)]
pub struct Pair {
    /// The node of the event.
    pub trigger: u32,
    /// The number of the rule.
    pub rule: u32,
    /// What was decided last.
    pub decision: Decision,
}

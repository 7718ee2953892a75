//! The theory of belief: which sets of occurrences are right, when occurrences begin and in which
//! order, what supports a fact, and what becomes of a rule at an event. Definitions that the
//! program's contract does not cite, and lemmas; it has no functions.
#![tactic(auto)]

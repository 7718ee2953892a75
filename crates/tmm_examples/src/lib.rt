//! The definitions of `tmm_model`, computed on worked scripts: `proofs/` has for each what it
//! answers, as a lemma. It has no functions, and no crate stands on it.
#![tactic(auto)]

//! The theory of standing lists: which lists are well named, what an addition and an erasure leave
//! of them, which points and constraints they have, and what a cycle of them says. Definitions that
//! the program's contract does not cite, and lemmas; it has no functions.
#![tactic(auto)]

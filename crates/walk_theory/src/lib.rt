//! The theory of distances over constraints (Dechter, Meiri and Pearl 1991): what walks over them
//! sum to, when they have dates, and how the least sums change with a constraint. Definitions that
//! the program's contract does not cite, and lemmas; it has no functions.
#![tactic(auto)]

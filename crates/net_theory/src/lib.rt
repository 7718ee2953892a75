//! What a network of numbered points says of a standing list: when it stands for the list, which
//! points have which numbers, and that the distance of two numbers is that of their points.
//! Definitions that the program's contract does not cite, and lemmas; it has no functions.
#![tactic(auto)]

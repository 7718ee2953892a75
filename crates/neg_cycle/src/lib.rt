//! Walks of least sum over the constraints of a network, and closed walks of negative sum as
//! certificates that no dates satisfy a premise (Dechter, Meiri and Pearl 1991).
//!
//! It stands on `tmm_model`, `dist_net` and `premise_list`. `walk` and `cycle` give constraints of
//! the network that lead from point to point without a repeated one, with the least sum, and
//! `check_cycle` tells exactly whether steps, whoever made them, are such a closed walk. Without
//! memory for the steps a call answers `NoMemory`.
#![tactic(auto)]

mod check;
mod ends;
mod ranks;
mod trail;

pub use check::check_cycle;
pub use trail::{cycle, walk};

//! The plain map: beliefs are made anew at each edit, beside those before. It meets `MapCore`, as
//! the map that the program runs does, in the plainest way, and nothing of the program stands on
//! it: trials answer scripts by both.
#![tactic(auto)]

mod beliefs;
mod changes;
mod plain;
mod view;

pub use plain::PlainMap;

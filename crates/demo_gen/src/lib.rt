//! The lines of the script that the words `demo N` run.
//!
//! It stands on `tmm_model`, whose definition says the script. `line_of` works out any one line by
//! arithmetic, so that no script is built and no memory is taken. It ensures exactly the
//! definition's line, and `None` exactly past the end.
#![tactic(auto)]

mod places;
mod texts;

ghost use Rattle.std.specs.Prelude.{◌≡◌, ◌≤◌, option_map};
ghost use Rattle.std.specs.List.{slice_get};
ghost use Rattle.tmm_model.specs.Generator.{script_of};

use arrayvec::ArrayVec;
use std::cmp::Ordering;

/// Line `i`, from 0, of the script of `n`, without its line break. It takes no memory.
pub fn line_of(n: u32, i: u32) -> Option<ArrayVec<u8, 64>>
    requires { n ≤ 1000 }
    ensures { option_map (λ line. line.items) result ≡ slice_get (script_of n) i }
{
    if i < texts::FIRST {
        return Some(texts::first_line(i));
    }
    let behind = i - texts::FIRST;
    match behind.cmp(&places::lines_below(n)) {
        Ordering::Less => Some(texts::event_line(places::place_of(behind))),
        Ordering::Equal => Some(texts::text_of(b"size")),
        Ordering::Greater => None,
    }
}

#[cfg(test)]
mod tests;

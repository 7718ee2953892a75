// Some events, and whether the event of a node is one of them.
ghost use Rattle.std.specs.Prelude.{◌≡◌, ◌+ℤ◌, true};
ghost use Rattle.spots.specs.Forest.{IsLive};
ghost use Rattle.occ_tree.specs.Places.{forest};
ghost use Rattle.occ_tree.specs.Standing.{present};
ghost use Rattle.bearing.specs.Events.{is_between, is_number, is_event_of};

use crate::point_sets::is_in;
use occ_tree::Tree;
use tmm_model::Bound;

/// Some events.
#[derive(Drop)]
pub enum Events {
    /// Those of which what follows after this delay is due up to one of the horizons, and after the
    /// other.
    DueBetween { delay: i64, before: u32, after: u32 },
    /// Those that begin, or to which rules lead, from one set of points, by their numbers; and from
    /// another set where that takes a bounded time.
    BeginAt { all: Vec<bool>, bounded: Vec<bool> },
}

impl Events {
    /// Whether the event of a node is one of these.
    pub fn has(&self, tree: &Tree, x: u32) -> bool
        requires { IsLive (forest tree.now) x }
        ensures { result ≡ is_event_of self.now (present tree.now) x }
    {
        match self {
            Events::DueBetween {
                delay,
                before,
                after,
            } => is_between(tree.early(x), *delay, *before, *after),
            Events::BeginAt { all, bounded } => {
                let row = tree.row(x);
                is_in(all, row.begin) || (is_number(row.high) && is_in(bounded, row.begin))
            }
        }
    }
}

// Whether what follows after a delay is due up to one of the horizons, and after the other.
fn is_between(date: i64, delay: i64, before: u32, after: u32) -> bool
    ensures { result ≡ is_between (date +ℤ delay) before after }
{
    let due = date as i128 + delay as i128;
    let was_in_time = due <= before as i128;
    let is_in_time = due <= after as i128;
    if was_in_time { !is_in_time } else { is_in_time }
}

// Whether there is a number.
pub(crate) fn is_number(bound: Bound) -> bool
    ensures { result ≡ is_number bound }
{
    match bound {
        Bound::Finite(_) => true,
        Bound::Free => false,
    }
}

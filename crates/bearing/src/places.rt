// Where nodes are, and how far apart they were and are.
ghost use Rattle.std.specs.Prelude.{◌≡◌, ◌+ℤ◌, ◌-ℤ◌, int_le, true, false, IfSome};
ghost use Rattle.tmm_model.specs.Bounds.{bound_plus, bound_less, bound_at_most};
ghost use Rattle.dist_net.specs.Net.{IsInUse};
ghost use Rattle.spots.specs.Forest.{IsLive};
ghost use Rattle.spots.specs.Spots.{net_far};
ghost use Rattle.occ_tree.specs.Places.{forest};
ghost use Rattle.bearing.specs.Places.{IsPlaceOf, net_at, limit, TellsWithin};

use dist_net::DistNet;
use occ_tree::Tree;
use tmm_model::Bound;

/// Where a node is.
#[derive(Clone, Copy)]
pub struct Place {
    /// The declared point from which rules lead to it.
    pub base: u16,
    /// The least time that they take.
    pub low: i64,
    /// The most time.
    pub high: Bound,
}

/// The place of a node.
pub fn place_of(tree: &Tree, x: u32) -> Place
    requires { IsLive (forest tree.now) x }
    ensures { IsPlaceOf (forest tree.now) x result }
{
    let row = tree.row(x);
    Place {
        base: row.begin,
        low: row.low,
        high: row.high,
    }
}

// Whether a node at the second place was or is surely no later than one at the first, or strictly
// before it. That is answered for places of two points alone.
pub(crate) fn is_surely_within(
    net: &DistNet,
    before: bool,
    from: &Place,
    to: &Place,
    strictly: bool,
) -> bool
    requires from { IsInUse (net_at net.now before).names from.now.base }
    requires to { IsInUse (net_at net.now before).names to.now.base }
    ensures { result ≡ true → TellsWithin (net_at net.now before) from.now to.now (limit strictly) true }
{
    match is_within(net, before, from, to, strictly) {
        Some(is) => is,
        None => false,
    }
}

// Whether that was or is not sure. It is answered for places of two points alone.
pub(crate) fn is_not_within(
    net: &DistNet,
    before: bool,
    from: &Place,
    to: &Place,
    strictly: bool,
) -> bool
    requires from { IsInUse (net_at net.now before).names from.now.base }
    requires to { IsInUse (net_at net.now before).names to.now.base }
    ensures { result ≡ true → TellsWithin (net_at net.now before) from.now to.now (limit strictly) false }
{
    match is_within(net, before, from, to, strictly) {
        Some(is) => !is,
        None => false,
    }
}

// Whether that is sure, at the last commit or now; none where rules lead to both from one point.
fn is_within(net: &DistNet, before: bool, from: &Place, to: &Place, strictly: bool) -> Option<bool>
    requires from { IsInUse (net_at net.now before).names from.now.base }
    requires to { IsInUse (net_at net.now before).names to.now.base }
    ensures { IfSome result (TellsWithin (net_at net.now before) from.now to.now (limit strictly)) }
{
    if from.base == to.base {
        return None;
    }
    let far = far_at(net, before, from.base, to.base);
    Some(is_at_most(far, to.high, from.low, limit(strictly)))
}

// The distance from one point to another, at the last commit or now.
fn far_at(net: &DistNet, before: bool, from: u16, to: u16) -> Bound
    requires from { IsInUse (net_at net.now before).names from }
    requires to { IsInUse (net_at net.now before).names to }
    ensures { result ≡ net_far (net_at net.now before) from to }
{
    if before {
        net.was(from, to)
    } else {
        net.far(from, to)
    }
}

// What the one date less the other is at most.
fn limit(strictly: bool) -> i64
    ensures { result ≡ limit strictly }
{
    if strictly { -1 } else { 0 }
}

// Whether a distance, and what is added to it, less something, is at most so much.
fn is_at_most(far: Bound, more: Bound, less: i64, most: i64) -> bool
    ensures { result ≡ bound_at_most (bound_less (bound_plus far more) less) most }
{
    match far {
        Bound::Finite(far) => match more {
            Bound::Finite(more) => is_sum_at_most(far, more, less, most),
            Bound::Free => false,
        },
        Bound::Free => false,
    }
}

// The same of numbers.
fn is_sum_at_most(far: i64, more: i64, less: i64, most: i64) -> bool
    ensures { result ≡ int_le ((far +ℤ more) -ℤ less) most }
{
    far as i128 + more as i128 - less as i128 <= most as i128
}

// Which distances are others now than at the last commit.
ghost use Rattle.std.specs.Prelude.{◌≡◌, ◌⊎◌, ◌<◌, ℕ, true, false, length, IfOk};
ghost use Rattle.std.specs.List.{Contains};
ghost use Rattle.bearing.specs.Fast.{AreInBoth};
ghost use Rattle.bearing.specs.MovedPairs.{is_of_premise, is_kept, is_moved, is_moved_among, PutsPairs, WereThere};
ghost use Rattle.bearing.specs.PointSets.{is_in, AreThosePairs, HaveOneOf};

use crate::point_sets::is_in;
use dist_net::{DistNet, POINTS};
use std::alloc::Global;
use tmm_model::{Name, NoMemory, PointName};

// The pairs of points that were there, by their numbers, of which the distance is another one now.
// Each of them has one of the points that the net lists as moved.
pub(crate) fn moved_pairs(
    alloc: Global,
    net: &DistNet,
    kept: &[bool],
) -> Result<Vec<bool>, NoMemory>
    requires { AreInBoth net.now kept.now }
    ensures moved { IfOk result (λ pairs. AreThosePairs (is_moved_among net.now (is_in kept.now)) pairs.items) }
    ensures listed { IfOk result (λ pairs. HaveOneOf net.now.moved pairs.items) }
{
    let mut pairs = vec![in alloc; false; POINTS * POINTS]?;
    let moved = net.moved();
    for p in moved {
        note_point(net, kept, *p, &mut pairs);
    }
    Ok(pairs)
}

// Puts those pairs of a point in that moved.
fn note_point(net: &DistNet, kept: &[bool], p: u16, pairs: &mut Vec<bool>)
    requires kept { AreInBoth net.now kept.now }
    requires point { p < 256 }
    requires places { length pairs.old.items ≡ 65536 }
    ensures { PutsPairs (is_moved_among net.now (is_in kept.now)) (λ a b. (a ≡ p) ⊎ (b ≡ p)) pairs.old.items pairs.new.items }
{
    if !is_in(kept, p) {
        return;
    }
    for q in 0..POINTS as u16 {
        note_both(net, kept, p, q, pairs);
    }
}

// Puts the pairs of two points in, one for each direction, if they moved.
fn note_both(net: &DistNet, kept: &[bool], p: u16, q: u16, pairs: &mut Vec<bool>)
    requires kept { AreInBoth net.now kept.now }
    requires point { p < 256 }
    requires other { q < 256 }
    requires places { length pairs.old.items ≡ 65536 }
    ensures { PutsPairs (is_moved_among net.now (is_in kept.now)) (λ a b. ((a ≡ p) × (b ≡ q)) ⊎ ((a ≡ q) × (b ≡ p))) pairs.old.items pairs.new.items }
{
    if !is_in(kept, q) {
        return;
    }
    note_pair(net, kept, p, q, pairs);
    note_pair(net, kept, q, p, pairs);
}

// Puts a pair in if it moved.
fn note_pair(net: &DistNet, kept: &[bool], a: u16, b: u16, pairs: &mut Vec<bool>)
    requires kept { AreInBoth net.now kept.now }
    requires from { a < 256 }
    requires to { b < 256 }
    requires places { length pairs.old.items ≡ 65536 }
    ensures { PutsPairs (is_moved_among net.now (is_in kept.now)) (λ c d. (c ≡ a) × (d ≡ b)) pairs.old.items pairs.new.items }
{
    if is_moved(net, kept, a, b) {
        pairs[a as usize * POINTS + b as usize] = true;
    }
}

// Whether the distance from one point to another is another one now, where both were there.
fn is_moved(net: &DistNet, kept: &[bool], a: u16, b: u16) -> bool
    requires { AreInBoth net.now kept.now }
    ensures { result ≡ is_moved_among net.now (is_in kept.now) a b }
{
    if a == b || !is_in(kept, a) || !is_in(kept, b) {
        return false;
    }
    !net.was(a, b).is(net.far(a, b))
}

/// Whether no point that the net lists as moved was there: then no two that were there are another
/// distance apart.
pub fn none_moved(net: &DistNet, added: &Option<Name>) -> bool
    requires { WereThere net.now added.now }
    ensures { result ≡ true → (a b : ℕ) → is_moved net.now added.now a b ≡ true → ⊥ }
{
    let moved = net.moved();
    !has_kept(net, added, moved)
}

// Whether one of these points was there.
fn has_kept(net: &DistNet, added: &Option<Name>, points: &[u16]) -> bool
    ensures { result ≡ false → (p : ℕ) → Contains points.now p → is_kept net.now.present.names added.now p ≡ false }
{
    points.iter().any(|p| is_kept(net, added, *p))
}

// Whether a number is that of a point, and of none of the premise that is added.
pub(crate) fn is_kept(net: &DistNet, added: &Option<Name>, p: u16) -> bool
    ensures { result ≡ is_kept net.now.present.names added.now p }
{
    match net.name_of(p) {
        Some(point) => !is_of_premise(added, &point),
        None => false,
    }
}

// Whether a point is one of the premise of this name, where there is one.
fn is_of_premise(premise: &Option<Name>, point: &PointName) -> bool
    ensures { result ≡ is_of_premise premise.now point.now }
{
    let Some(name) = premise else {
        return false;
    };
    match point {
        PointName::Start => false,
        PointName::Begin(owner) | PointName::End(owner) => name == owner,
    }
}

// Points that stand fast: no two of them are another distance apart now.
ghost use Rattle.std.specs.Prelude.{◌≡◌, ◌<◌, ◌↔◌, true, length, IsTrue, IfOk};
ghost use Rattle.std.specs.List.{Contains};
ghost use Rattle.bearing.specs.Fast.{AreInBoth, StandFast, IsFastBy};
ghost use Rattle.bearing.specs.MovedPairs.{is_kept, WereThere, AreMoved};
ghost use Rattle.bearing.specs.PointSets.{AreThose, HaveOneOf};

use crate::distances_changed::{is_kept, moved_pairs};
use crate::point_sets::put_if;
use dist_net::{DistNet, POINTS};
use std::alloc::Global;
use tmm_model::{Name, NoMemory};

/// What moved since the last commit.
#[derive(Drop)]
pub struct Moves {
    /// The pairs of points, by their numbers, of which the distance is another one now.
    pub pairs: Vec<bool>,
    /// The points that were there.
    pub kept: Vec<bool>,
    /// Points of these that stand fast: no two of them make a pair.
    pub fast: Vec<bool>,
}

/// What moved since the last commit. Points of the premise that is added were not there.
pub fn moves_of(alloc: Global, net: &DistNet, added: Option<Name>) -> Result<Moves, NoMemory>
    requires there { WereThere net.now added }
    requires start { is_kept net.now.present.names added 0 ≡ true }
    ensures moved { IfOk result (λ moves. AreMoved net.now added moves.pairs.items) }
    ensures listed { IfOk result (λ moves. HaveOneOf net.now.moved moves.pairs.items) }
    ensures kept { IfOk result (λ moves. AreInBoth net.now moves.kept.items) }
    ensures fast { IfOk result (λ moves. StandFast net.now added moves.fast.items) }
{
    let kept = kept_points(alloc, net, &added)?;
    let pairs = moved_pairs(alloc, net, &kept)?;
    let fast = fast_points(alloc, net.moved(), &pairs, &kept)?;
    Ok(Moves { pairs, kept, fast })
}

// The points that were there.
fn kept_points(alloc: Global, net: &DistNet, added: &Option<Name>) -> Result<Vec<bool>, NoMemory>
    ensures { IfOk result (λ kept. AreThose (λ p. (p < 256) × (is_kept net.now.present.names added.now p ≡ true)) kept.items) }
{
    let mut kept = vec![in alloc; false; POINTS]?;
    for p in 0..POINTS as u16 {
        put_if(&mut kept, p as usize, is_kept(net, added, p));
    }
    Ok(kept)
}

// Of the points that were there those that are not listed and make no pair with `start`, and
// `start` itself.
fn fast_points(
    alloc: Global,
    moved: &[u16],
    pairs: &[bool],
    kept: &[bool],
) -> Result<Vec<bool>, NoMemory>
    requires pairs { length pairs.now ≡ 65536 }
    requires kept { length kept.now ≡ 256 }
    ensures { IfOk result (λ fast. AreThose (λ p. (p < 256) × IsFastBy moved.now pairs.now kept.now p) fast.items) }
{
    let mut fast = vec![in alloc; false; POINTS]?;
    for p in 0..POINTS {
        put_if(&mut fast, p, is_fast(moved, pairs, kept, p));
    }
    Ok(fast)
}

// Whether a point was there, and is `start`, or makes no pair with `start` and is not listed.
fn is_fast(moved: &[u16], pairs: &[bool], kept: &[bool], p: usize) -> bool
    requires pairs { length pairs.now ≡ 65536 }
    requires kept { length kept.now ≡ 256 }
    requires point { p < 256 }
    ensures { IsTrue result ↔ IsFastBy moved.now pairs.now kept.now p }
{
    if !kept[p] {
        return false;
    }
    if p == 0 {
        return true;
    }
    if pairs[p * POINTS] || pairs[p] {
        return false;
    }
    !is_listed(moved, p)
}

// Whether a point is listed.
fn is_listed(moved: &[u16], p: usize) -> bool
    ensures { IsTrue result ↔ Contains moved.now p }
{
    moved.iter().any(|q| *q as usize == p)
}

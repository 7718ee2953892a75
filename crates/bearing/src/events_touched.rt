// Events at which what reads some points depends on distances that are others now.
ghost use Rattle.std.specs.Prelude.{◌≡◌, ◌<◌, ◌↔◌, true, length, IsTrue, IfOk};
ghost use Rattle.bearing.specs.PointSets.{PutsIn, HaveOneOf, HaveBothIn};
ghost use Rattle.bearing.specs.Reach.{HasPlaces};
ghost use Rattle.bearing.specs.Touching.{LeadsTo, LeadsFrom, LeadsInto, IsLedToFrom, LeadsIntoBy, IsLedToFromBy, IsTouchedAt};

use crate::events::Events;
use crate::point_sets::{meet, put_if};
use crate::points_of_class::Reach;
use dist_net::POINTS;
use std::alloc::Global;
use tmm_model::NoMemory;

/// The events at which what reads these points depends on one of the pairs. Each pair has one of the
/// points that moved.
pub fn touched_by(
    alloc: Global,
    pairs: &[bool],
    moved: &[u16],
    reach: &Reach,
) -> Result<Events, NoMemory>
    requires pairs { length pairs.now ≡ 65536 }
    requires moved { HaveOneOf moved.now pairs.now }
    requires places { HasPlaces reach.now }
    ensures { IfOk result (IsTouchedAt pairs.now reach.now) }
{
    let mut all = vec![in alloc; false; POINTS]?;
    put_before(pairs, moved, &reach.bounded, &mut all);
    let within = meet(&reach.all, &all);
    put_every(&mut all, within);
    let mut bounded = vec![in alloc; false; POINTS]?;
    put_behind(pairs, moved, &reach.all, &mut bounded);
    Ok(Events::BeginAt { all, bounded })
}

/// The points of the pairs. Each pair has one of the points that moved.
pub fn points_of_pairs(alloc: Global, pairs: &[bool], moved: &[u16]) -> Result<Vec<bool>, NoMemory>
    requires pairs { length pairs.now ≡ 65536 }
    requires moved { HaveOneOf moved.now pairs.now }
    ensures { IfOk result (λ points. HaveBothIn pairs.now points.items) }
{
    let every = vec![in alloc; true; POINTS]?;
    let mut points = vec![in alloc; false; POINTS]?;
    put_before(pairs, moved, &every, &mut points);
    put_behind(pairs, moved, &every, &mut points);
    Ok(points)
}

// Puts all points in, if `is` holds.
fn put_every(into: &mut Vec<bool>, is: bool)
    requires { length into.old.items ≡ 256 }
    ensures { PutsIn (λ p. (p < 256) × (is ≡ true)) into.old.items into.new.items }
{
    for p in 0..POINTS {
        put_if(into, p, is);
    }
}

// Puts those points in from which a pair leads to one of the set. As each pair has one of the
// points that moved, only their pairs are looked at.
fn put_before(pairs: &[bool], moved: &[u16], set: &[bool], into: &mut Vec<bool>)
    requires pairs { length pairs.now ≡ 65536 }
    requires moved { HaveOneOf moved.now pairs.now }
    requires set { length set.now ≡ 256 }
    requires places { length into.old.items ≡ 256 }
    ensures { PutsIn (LeadsInto pairs.now set.now) into.old.items into.new.items }
{
    for p in moved {
        put_before_by(pairs, set, *p as usize, into);
    }
}

// Puts those points in from which a pair leads to one of the set, where `m` is one of the two.
fn put_before_by(pairs: &[bool], set: &[bool], m: usize, into: &mut Vec<bool>)
    requires pairs { length pairs.now ≡ 65536 }
    requires set { length set.now ≡ 256 }
    requires point { m < 256 }
    requires places { length into.old.items ≡ 256 }
    ensures { PutsIn (LeadsIntoBy pairs.now set.now m) into.old.items into.new.items }
{
    put_if(into, m, leads_into(pairs, set, m));
    put_before_one(pairs, set, m, into);
}

// Whether from `p` a pair leads to one of the set.
fn leads_into(pairs: &[bool], set: &[bool], p: usize) -> bool
    requires pairs { length pairs.now ≡ 65536 }
    requires set { length set.now ≡ 256 }
    requires point { p < 256 }
    ensures { IsTrue result ↔ LeadsInto pairs.now set.now p }
{
    for q in 0..POINTS {
        if set[q] && pairs[p * POINTS + q] {
            return true;
        }
    }
    false
}

// Puts those points in from which a pair leads to `q`, if that is in the set.
fn put_before_one(pairs: &[bool], set: &[bool], q: usize, into: &mut Vec<bool>)
    requires pairs { length pairs.now ≡ 65536 }
    requires set { length set.now ≡ 256 }
    requires point { q < 256 }
    requires places { length into.old.items ≡ 256 }
    ensures { PutsIn (LeadsTo pairs.now set.now q) into.old.items into.new.items }
{
    if !set[q] {
        return;
    }
    for p in 0..POINTS {
        put_if(into, p, pairs[p * POINTS + q]);
    }
}

// Puts those points in to which a pair leads from one of the set. As each pair has one of the
// points that moved, only their pairs are looked at.
fn put_behind(pairs: &[bool], moved: &[u16], set: &[bool], into: &mut Vec<bool>)
    requires pairs { length pairs.now ≡ 65536 }
    requires moved { HaveOneOf moved.now pairs.now }
    requires set { length set.now ≡ 256 }
    requires places { length into.old.items ≡ 256 }
    ensures { PutsIn (IsLedToFrom pairs.now set.now) into.old.items into.new.items }
{
    for p in moved {
        put_behind_by(pairs, set, *p as usize, into);
    }
}

// Puts those points in to which a pair leads from one of the set, where `m` is one of the two.
fn put_behind_by(pairs: &[bool], set: &[bool], m: usize, into: &mut Vec<bool>)
    requires pairs { length pairs.now ≡ 65536 }
    requires set { length set.now ≡ 256 }
    requires point { m < 256 }
    requires places { length into.old.items ≡ 256 }
    ensures { PutsIn (IsLedToFromBy pairs.now set.now m) into.old.items into.new.items }
{
    put_if(into, m, is_led_to_from(pairs, set, m));
    put_behind_one(pairs, set, m, into);
}

// Whether to `p` a pair leads from one of the set.
fn is_led_to_from(pairs: &[bool], set: &[bool], p: usize) -> bool
    requires pairs { length pairs.now ≡ 65536 }
    requires set { length set.now ≡ 256 }
    requires point { p < 256 }
    ensures { IsTrue result ↔ IsLedToFrom pairs.now set.now p }
{
    for q in 0..POINTS {
        if set[q] && pairs[q * POINTS + p] {
            return true;
        }
    }
    false
}

// Puts those points in to which a pair leads from `q`, if that is in the set.
fn put_behind_one(pairs: &[bool], set: &[bool], q: usize, into: &mut Vec<bool>)
    requires pairs { length pairs.now ≡ 65536 }
    requires set { length set.now ≡ 256 }
    requires point { q < 256 }
    requires places { length into.old.items ≡ 256 }
    ensures { PutsIn (LeadsFrom pairs.now set.now q) into.old.items into.new.items }
{
    if !set[q] {
        return;
    }
    for p in 0..POINTS {
        put_if(into, p, pairs[q * POINTS + p]);
    }
}

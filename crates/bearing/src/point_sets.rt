// Sets of points, by their numbers below 256.
ghost use Rattle.std.specs.Prelude.{◌≡◌, ◌<◌, ◌↔◌, true, length, IsTrue};
ghost use Rattle.bearing.specs.PointSets.{is_in, PutsIn, Meet};

use dist_net::POINTS;

// Whether a point is in the set.
pub(crate) fn is_in(set: &[bool], point: u16) -> bool
    ensures { result ≡ is_in set.now point }
{
    set.get(point as usize).copied().unwrap_or(false)
}

// Puts a point in, if `is` holds.
pub(crate) fn put_if(set: &mut Vec<bool>, p: usize, is: bool)
    requires { p < length set.old.items }
    ensures { PutsIn (λ k. (k ≡ p) × (is ≡ true)) set.old.items set.new.items }
{
    if is {
        set[p] = true;
    }
}

// Whether some point is in both sets.
pub(crate) fn meet(a: &[bool], b: &[bool]) -> bool
    requires a { length a.now ≡ 256 }
    requires b { length b.now ≡ 256 }
    ensures { IsTrue result ↔ Meet a.now b.now }
{
    for p in 0..POINTS {
        if a[p] && b[p] {
            return true;
        }
    }
    false
}

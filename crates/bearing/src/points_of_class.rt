// The declared points of `start` and of the tokens of a class.
ghost use Rattle.std.specs.Prelude.{◌≡◌, ◌⊎◌, ℕ, ℤ, ◌<◌, false, Some, IfOk};
ghost use Rattle.tmm_model.specs.declared.bound.Bound.TheVariants.{Finite};
ghost use Rattle.spots.specs.declared.spot.Spot.{Spot};
ghost use Rattle.spots.specs.declared.spot.Spot.TheVariants.{Declared};
ghost use Rattle.spots.specs.Forest.{Member};
ghost use Rattle.spots.specs.Spots.{base_of};
ghost use Rattle.spots.proofs.Rows.{IsRowOf};
ghost use Rattle.occ_tree.specs.Places.{forest};
ghost use Rattle.joined.specs.Gaps.{IsClassSpot};
ghost use Rattle.joined.specs.Shifting.{IsSpotOf};
ghost use Rattle.bearing.specs.PointSets.{is_in, PutsIn, AreThose};
ghost use Rattle.bearing.specs.Reach.{IsBaseOf, IsBoundedBaseOf, Notes, HasPlaces, AreBelow256, IsSpotBelow256, IsDeclaredOrLive, IsOff};

use crate::events::is_number;
use crate::point_sets::{is_in, put_if};
use dist_net::POINTS;
use occ_tree::Tree;
use spots::Spot;
use std::alloc::Global;
use tmm_model::{Bound, Name, NoMemory, TokenRow};

/// The declared points from which rules lead to some spots.
#[derive(Drop)]
pub struct Reach {
    /// All of them, by their numbers.
    pub all: Vec<bool>,
    /// Those from which rules lead to one of the spots in bounded time.
    pub bounded: Vec<bool>,
}

/// The point `start`.
pub fn reach_of_start(alloc: Global, tree: &Tree) -> Result<Reach, NoMemory>
    requires below { AreBelow256 (forest tree.now) }
    ensures all { IfOk result (λ reach. AreThose (IsBaseOf (forest tree.now) (λ p. p ≡ Declared 0)) reach.all.items) }
    ensures bounded { IfOk result (λ reach. AreThose (IsBoundedBaseOf (forest tree.now) (λ p. p ≡ Declared 0)) reach.bounded.items) }
{
    let mut reach = reach_of_none(alloc)?;
    note_spot(tree, Spot::Declared(0), &mut reach);
    Ok(reach)
}

/// The points of `start` and of the tokens of a class.
pub fn reach_of(alloc: Global, tree: &Tree, class: &Name) -> Result<Reach, NoMemory>
    requires below { AreBelow256 (forest tree.now) }
    ensures all { IfOk result (λ reach. AreThose (IsBaseOf (forest tree.now) (IsSpotOf (forest tree.now) class.now)) reach.all.items) }
    ensures bounded { IfOk result (λ reach. AreThose (IsBoundedBaseOf (forest tree.now) (IsSpotOf (forest tree.now) class.now)) reach.bounded.items) }
{
    let mut reach = reach_of_none(alloc)?;
    note_spot(tree, Spot::Declared(0), &mut reach);
    note_class(tree, class, &mut reach);
    Ok(reach)
}

// No points.
pub(crate) fn reach_of_none(alloc: Global) -> Result<Reach, NoMemory>
    ensures places { IfOk result HasPlaces }
    ensures all { IfOk result (λ reach. (p : ℕ) → is_in reach.all.items p ≡ false) }
    ensures bounded { IfOk result (λ reach. (p : ℕ) → is_in reach.bounded.items p ≡ false) }
{
    Ok(Reach {
        all: vec![in alloc; false; POINTS]?,
        bounded: vec![in alloc; false; POINTS]?,
    })
}

// Puts the points of the tokens of a class in.
pub(crate) fn note_class(tree: &Tree, class: &Name, reach: &mut Reach)
    requires below { AreBelow256 (forest tree.now) }
    requires places { HasPlaces reach.old }
    ensures { Notes (forest tree.now) (IsClassSpot (forest tree.now) class.now) reach.old reach.new }
{
    let rows = tree.tokens(class);
    for i in 0..rows.len() {
        note_token(tree, &rows[i], reach);
    }
}

// Puts the points of a token in.
pub(crate) fn note_token(tree: &Tree, row: &TokenRow<Spot>, reach: &mut Reach)
    requires row { (x : ℕ) × (m : Member) × IsRowOf (forest tree.now) row.now x m }
    requires below { AreBelow256 (forest tree.now) }
    requires places { HasPlaces reach.old }
    ensures { Notes (forest tree.now) (λ p. (p ≡ row.now.spot) ⊎ (row.now.end ≡ Some p)) reach.old reach.new }
{
    note_spot(tree, row.spot, reach);
    if let Some(end) = row.end {
        note_spot(tree, end, reach);
    }
}

// Puts the point of a spot in.
pub(crate) fn note_spot(tree: &Tree, spot: Spot, reach: &mut Reach)
    requires spot { IsSpotBelow256 (forest tree.now) spot }
    requires below { AreBelow256 (forest tree.now) }
    requires places { HasPlaces reach.old }
    ensures { Notes (forest tree.now) (λ p. p ≡ spot) reach.old reach.new }
{
    match spot {
        Spot::Declared(point) => note(point, Bound::Finite(0), reach),
        Spot::Node(x) => {
            let row = tree.row(x);
            note(row.begin, row.high, reach);
        }
    }
}

// Puts a point in from which rules lead to a spot in this time.
fn note(point: u16, most: Bound, reach: &mut Reach)
    requires point { point < 256 }
    requires places { HasPlaces reach.old }
    ensures all { PutsIn (λ p. p ≡ point) reach.old.all.items reach.new.all.items }
    ensures bounded { PutsIn (λ p. (p ≡ point) × (x : ℤ) × (most ≡ Finite x)) reach.old.bounded.items reach.new.bounded.items }
{
    put_if(&mut reach.all, point as usize, true);
    put_if(&mut reach.bounded, point as usize, is_number(most));
}

/// Whether `start` or a token of a class is at one of these points.
pub fn is_class_at(tree: &Tree, class: &Name, points: &[bool]) -> bool
    ensures { result ≡ false → (p : Spot) → IsSpotOf (forest tree.now) class.now p → IsOff (forest tree.now) points.now p }
{
    is_in(points, 0) || has_token_at(tree, class, points)
}

// Whether a token of a class begins or ends at one of these points.
fn has_token_at(tree: &Tree, class: &Name, points: &[bool]) -> bool
    ensures { result ≡ false → (p : Spot) → IsClassSpot (forest tree.now) class.now p → IsOff (forest tree.now) points.now p }
{
    let rows = tree.tokens(class);
    for i in 0..rows.len() {
        if is_token_at(tree, &rows[i], points) {
            return true;
        }
    }
    false
}

// Whether a token begins or ends at one of these points.
fn is_token_at(tree: &Tree, row: &TokenRow<Spot>, points: &[bool]) -> bool
    requires { (x : ℕ) × (m : Member) × IsRowOf (forest tree.now) row.now x m }
    ensures { result ≡ false → (p : Spot) → (p ≡ row.now.spot) ⊎ (row.now.end ≡ Some p) → IsOff (forest tree.now) points.now p }
{
    if is_spot_at(tree, row.spot, points) {
        return true;
    }
    match row.end {
        Some(end) => is_spot_at(tree, end, points),
        None => false,
    }
}

// Whether a spot is at one of these points.
fn is_spot_at(tree: &Tree, spot: Spot, points: &[bool]) -> bool
    requires { IsDeclaredOrLive (forest tree.now) spot }
    ensures { result ≡ is_in points.now (base_of (forest tree.now) spot) }
{
    match spot {
        Spot::Declared(point) => is_in(points, point),
        Spot::Node(x) => is_in(points, tree.row(x).begin),
    }
}

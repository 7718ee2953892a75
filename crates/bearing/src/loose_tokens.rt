// Tokens that are loose, with fast tokens behind them, and where they bear on no decision.
ghost use Rattle.std.specs.Prelude.{◌≡◌, ◌<◌, ℕ, List, true, IfOk, OnOk, IfSome, length};
ghost use Rattle.std.specs.List.{All};
ghost use Rattle.spots.specs.Forest.{Member, IsLive};
ghost use Rattle.spots.proofs.Rows.{IsRowOf};
ghost use Rattle.occ_tree.specs.Places.{forest};
ghost use Rattle.joined.specs.Shifting.{IsSpotOf, SparesClass};
ghost use Rattle.bearing.specs.Fast.{IsInBoth, AreInBoth, is_out};
ghost use Rattle.bearing.specs.Places.{IsPlaceOf};
ghost use Rattle.bearing.specs.PointSets.{is_in, AreThose};
ghost use Rattle.bearing.specs.Reach.{IsBaseOf};
ghost use Rattle.bearing.specs.Shifts.{stands_fast, IsFastToken, IsSparedBy, TokensHaveBoth, ShiftHasBoth, IsShift, AreShifts, NotesRow};

use crate::lists::push;
use crate::places::{Place, is_not_within, place_of};
use crate::point_sets::is_in;
use crate::walls::{FastToken, LIMIT, are_walls, tokens_behind};
use crate::what_moved::Moves;
use dist_net::{DistNet, POINTS};
use occ_tree::Tree;
use spots::Spot;
use std::alloc::Global;
use tmm_model::{Name, NoMemory, TokenRow};

/// A token that is loose.
#[derive(Drop)]
pub struct Shift {
    /// Where it begins.
    pub place: Place,
    /// Fast tokens of its class that surely began after it at the last commit. None of a span:
    /// walls do not end it.
    pub before: Vec<FastToken>,
    /// Those that surely begin after it now.
    pub after: Vec<FastToken>,
}

/// The loose tokens of a class; none where they are too many, or one of them is new.
pub fn shifts_of(
    alloc: Global,
    net: &DistNet,
    tree: &Tree,
    moves: &Moves,
    all: &[bool],
    class: &Name,
) -> Result<Option<Vec<Shift>>, NoMemory>
    requires kept { AreInBoth net.now moves.now.kept.items }
    requires fast { AreInBoth net.now moves.now.fast.items }
    requires all { AreThose (IsBaseOf (forest tree.now) (IsSpotOf (forest tree.now) class.now)) all.now }
    ensures { IfOk result (λ shifts. IfSome shifts (λ list. AreShifts net.now (forest tree.now) (is_out moves.now.fast.items) class.now list.items)) }
{
    let mut shifts = Vec::new(alloc);
    if are_among(all, &moves.fast) {
        return Ok(Some(shifts));
    }
    let tokens = fast_tokens(alloc, tree, &moves.fast, class)?;
    let rows = tree.tokens(class);
    for i in 0..rows.len() {
        let noted = note_row(alloc, net, tree, moves, &rows[i], &tokens, &mut shifts)?;
        if !noted {
            return Ok(None);
        }
    }
    Ok(Some(shifts))
}

// Whether all points of a set are in another one.
fn are_among(set: &[bool], other: &[bool]) -> bool
    ensures { result ≡ true → (p : ℕ) → p < 256 → is_in set.now p ≡ true → is_in other.now p ≡ true }
{
    for p in 0..POINTS as u16 {
        if is_in(set, p) && !is_in(other, p) {
            return false;
        }
    }
    true
}

// The fast tokens of a class, in their order.
fn fast_tokens(
    alloc: Global,
    tree: &Tree,
    fast: &[bool],
    class: &Name,
) -> Result<Vec<FastToken>, NoMemory>
    ensures { IfOk result (λ tokens. All (IsFastToken (forest tree.now) (is_out fast.now) class.now) tokens.items) }
{
    let rows = tree.tokens(class);
    let mut tokens = Vec::new(alloc);
    for i in 0..rows.len() {
        note_fast(tree, fast, &rows[i], &mut tokens)?;
    }
    Ok(tokens)
}

// Adds a token if it is fast.
fn note_fast(
    tree: &Tree,
    fast: &[bool],
    row: &TokenRow<Spot>,
    tokens: &mut Vec<FastToken>,
) -> Result<(), NoMemory>
    requires row { (x : ℕ) × (m : Member) × IsRowOf (forest tree.now) row.now x m }
    ensures { OnOk result (All (IsFastToken (forest tree.now) (is_out fast.now) row.now.class) tokens.old.items → All (IsFastToken (forest tree.now) (is_out fast.now) row.now.class) tokens.new.items) }
{
    let place = place_at(tree, row.spot);
    if !stands_fast(fast, &place, row.end) {
        return Ok(());
    }
    let token = FastToken {
        place,
        fact: row.fact,
    };
    push(tokens, token)?;
    Ok(())
}

// The place of a token's node.
pub(crate) fn place_at(tree: &Tree, spot: Spot) -> Place
    requires { (x : ℕ) × (IsLive (forest tree.now) x) × (spot ≡ Spot.Node x) }
    ensures { (x : ℕ) → spot ≡ Spot.Node x → IsPlaceOf (forest tree.now) x result }
{
    match spot {
        Spot::Node(x) => place_of(tree, x),
        Spot::Declared(_) => unreachable!(),
    }
}

// Whether neither begin nor end of a token is loose.
fn stands_fast(fast: &[bool], place: &Place, end: Option<Spot>) -> bool
    ensures { result ≡ stands_fast fast.now place.now end }
{
    match end {
        Some(Spot::Declared(e)) => is_in(fast, place.base) && is_in(fast, e),
        Some(Spot::Node(_)) => false,
        None => is_in(fast, place.base),
    }
}

// Adds a token if it is loose. Answers whether there was room, and it is not new.
fn note_row(
    alloc: Global,
    net: &DistNet,
    tree: &Tree,
    moves: &Moves,
    row: &TokenRow<Spot>,
    tokens: &[FastToken],
    shifts: &mut Vec<Shift>,
) -> Result<bool, NoMemory>
    requires kept { AreInBoth net.now moves.now.kept.items }
    requires fast { AreInBoth net.now moves.now.fast.items }
    requires row { (x : ℕ) × (m : Member) × IsRowOf (forest tree.now) row.now x m }
    requires tokens { All (IsFastToken (forest tree.now) (is_out moves.now.fast.items) row.now.class) tokens.now }
    ensures { IfOk result (λ more. more ≡ true → NotesRow net.now (forest tree.now) (is_out moves.now.fast.items) row.now shifts.old.items shifts.new.items) }
{
    let place = place_at(tree, row.spot);
    if stands_fast(&moves.fast, &place, row.end) {
        return Ok(true);
    }
    if shifts.len() >= LIMIT {
        return Ok(false);
    }
    if !is_in(&moves.kept, place.base) {
        return Ok(false);
    }
    let shift = shift_of(alloc, net, place, row.end, tokens)?;
    push(shifts, shift)?;
    Ok(true)
}

// A loose token, with the fast ones that were and are behind it.
fn shift_of(
    alloc: Global,
    net: &DistNet,
    place: Place,
    end: Option<Spot>,
    tokens: &[FastToken],
) -> Result<Shift, NoMemory>
    requires place { IsInBoth net.now place.base }
    requires tokens { TokensHaveBoth net.now tokens.now }
    ensures { IfOk result (λ shift. IsShift net.now place end tokens.now shift) }
{
    if end.is_some() {
        return Ok(Shift {
            place,
            before: Vec::new(alloc),
            after: Vec::new(alloc),
        });
    }
    let before = tokens_behind(alloc, net, true, tokens, &place)?;
    let after = tokens_behind(alloc, net, false, tokens, &place)?;
    Ok(Shift {
        place,
        before,
        after,
    })
}

/// Whether all loose tokens of a class bear on no decision at the event of a node, before and after.
pub fn spares(net: &DistNet, tree: &Tree, fast: &[bool], shifts: &[Shift], x: u32) -> bool
    requires fast { AreInBoth net.now fast.now }
    requires shifts { All (ShiftHasBoth net.now) shifts.now }
    requires node { IsLive (forest tree.now) x }
    ensures { result ≡ true → (class : List ℕ) → AreShifts net.now (forest tree.now) (is_out fast.now) class shifts.now → SparesClass net.now (forest tree.now) (is_out fast.now) class x }
{
    let event = place_of(tree, x);
    if !is_in(fast, event.base) {
        return false;
    }
    for i in 0..shifts.len() {
        if !is_spared(net, &shifts[i], &event) {
            return false;
        }
    }
    true
}

// Whether a loose token bears on no decision at the event at a place, before and after.
fn is_spared(net: &DistNet, shift: &Shift, event: &Place) -> bool
    requires shift { ShiftHasBoth net.now shift.now }
    requires event { IsInBoth net.now event.now.base }
    ensures before { result ≡ true → IsSparedBy net.now.committed shift.now.place shift.now.before.items event.now }
    ensures after { result ≡ true → IsSparedBy net.now.present shift.now.place shift.now.after.items event.now }
{
    // most events come before the token has begun, so that is asked here
    let place = &shift.place;
    if !is_not_within(net, true, event, place, false)
        && !are_walls(net, true, &shift.before, event)
    {
        return false;
    }
    is_not_within(net, false, event, place, false) || are_walls(net, false, &shift.after, event)
}

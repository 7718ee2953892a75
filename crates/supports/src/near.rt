// What clips a token of a class, by the nearest of those behind it.
ghost use Rattle.std.specs.Prelude.{◌≡◌, ◌<◌, ◌≤◌, ℕ, List, length};
ghost use Rattle.tmm_model.specs.Tokens.{of_one_class, clips};
ghost use Rattle.clipping.specs.ByDate.{IsByDate, IsFirstPlaceIn};
ghost use Rattle.supports.specs.Entries.{fact_at};
ghost use Rattle.supports.specs.Firsts.{IsClipper};
ghost use Rattle.spots.specs.declared.spot.Spot.{Spot};
ghost use Rattle.spots.specs.Spots.{AreTokens, IsSpot, spot_distance, spot_early, spot_cmp};
ghost use Rattle.occ_tree.specs.OfLists.{IsTreeIn};
ghost use Rattle.occ_tree.specs.Places.{forest};
ghost use Rattle.supports.specs.Near.{AreAlike, IsNear};

use clipping::{Dated, by_date};
use occ_tree::Order;
use spots::Spot;
use tmm_model::{Name, Sure, TokenRow};

// How many tokens are asked one after the other. Where so many begin at no sure time behind a
// token, there are mostly many more.
const MOST_ASKED: usize = 128;

// What a search among the nearest tokens tells.
pub(crate) enum Near {
    // The place of the first that clips the token, none where none does.
    Found(Option<usize>),
    // None of those that were asked does, and there are more.
    Open,
}

// Tokens of one fact, from a place in their list on and before another.
#[derive(Clone, Copy)]
pub(crate) struct Stretch {
    pub first: usize,
    pub end: usize,
}

// The place of the first token that clips the one at `i`, were it no span, where it is soon found.
// Tokens up to its date do not clip it, nor do those of its fact, which are passed over: right
// behind it at once where they are known from a search before.
pub(crate) fn near_clip(
    order: &Order<'_>,
    rows: &[TokenRow<Spot>],
    i: usize,
    passed: &mut Stretch,
) -> Near
    requires dates { IsTreeIn order.now.net.now.present order.now.tree.now }
    requires tokens { (class : List ℕ) × AreTokens (forest order.now.tree.now) class rows.now }
    requires by_date { IsByDate (spot_early order.now.net.now.present (forest order.now.tree.now)) (spot_cmp order.now.net.now.present (forest order.now.tree.now)) rows.now }
    requires within { i < length rows.now }
    requires passed { AreAlike rows.now passed.old }
    ensures near { IsNear order.now.net.now.present (forest order.now.tree.now) rows.now i result }
    ensures passed { AreAlike rows.now passed.new }
{
    let k = &rows[i];
    let from = behind_own(rows, &k.fact, first_later(order, rows, i), passed);
    let end = rows.len().min(from.saturating_add(MOST_ASKED));
    match first_between(order, rows, k, from, end) {
        Some(place) => Near::Found(Some(place)),
        None => {
            if end == rows.len() {
                Near::Found(None)
            } else {
                Near::Open
            }
        }
    }
}

// The place of the first token of a later date than the one at `i`, that behind all where there is
// none. It is mostly the next one.
fn first_later(order: &Order<'_>, rows: &[TokenRow<Spot>], i: usize) -> usize
    requires dates { IsTreeIn order.now.net.now.present order.now.tree.now }
    requires tokens { (class : List ℕ) × AreTokens (forest order.now.tree.now) class rows.now }
    requires by_date { IsByDate (spot_early order.now.net.now.present (forest order.now.tree.now)) (spot_cmp order.now.net.now.present (forest order.now.tree.now)) rows.now }
    requires within { i < length rows.now }
    ensures within { result ≤ length rows.now }
    ensures none { (j : ℕ) → j < result → IsClipper order.now.net.now.present (forest order.now.tree.now) rows.now i j → ⊥ }
{
    let next = i + 1;
    if next == rows.len() || order.date(rows[i].spot) < order.date(rows[next].spot) {
        return next;
    }
    by_date::count_until(order, rows, rows[i].spot)
}

// The place behind those tokens of a fact that stand from `from` on. They are known from then on.
fn behind_own(rows: &[TokenRow<Spot>], fact: &Name, from: usize, passed: &mut Stretch) -> usize
    requires within { from ≤ length rows.now }
    requires passed { AreAlike rows.now passed.old }
    ensures within { result ≤ length rows.now }
    ensures own { (j : ℕ) → from ≤ j → j < result → fact_at rows.now j ≡ fact.now }
    ensures behind { from ≤ result }
    ensures passed { AreAlike rows.now passed.new }
{
    let mut end = from;
    while end < rows.len() && rows[end].fact == *fact {
        end = if passed.first <= end && end < passed.end {
            passed.end
        } else {
            end + 1
        };
    }
    if end > from {
        *passed = Stretch { first: from, end };
    }
    end
}

// The first place, from `low` on and before `high`, of a token that clips `k`.
fn first_between(
    order: &Order<'_>,
    rows: &[TokenRow<Spot>],
    k: &TokenRow<Spot>,
    low: usize,
    high: usize,
) -> Option<usize>
    requires dates { IsTreeIn order.now.net.now.present order.now.tree.now }
    requires tokens { (class : List ℕ) × AreTokens (forest order.now.tree.now) class rows.now }
    requires k_live { IsSpot order.now.net.now.present.names (forest order.now.tree.now) k.now.spot }
    requires within { high ≤ length rows.now }
    ensures { IsFirstPlaceIn (clips of_one_class (spot_distance order.now.net.now.present (forest order.now.tree.now)) k.now) rows.now low high result }
{
    for at in low..high {
        if clips_after(order, k, &rows[at]) {
            return Some(at);
        }
    }
    None
}

// Whether `c` contradicts `k`, and surely begins after it.
fn clips_after(order: &Order<'_>, k: &TokenRow<Spot>, c: &TokenRow<Spot>) -> bool
    requires dates { IsTreeIn order.now.net.now.present order.now.tree.now }
    requires k_live { IsSpot order.now.net.now.present.names (forest order.now.tree.now) k.now.spot }
    requires c_live { IsSpot order.now.net.now.present.names (forest order.now.tree.now) c.now.spot }
    ensures { result ≡ clips of_one_class (spot_distance order.now.net.now.present (forest order.now.tree.now)) k.now c.now }
{
    k.fact != c.fact && order.at_most(c.spot, k.spot, -1) && k.class == c.class
}

// The first supporter among the tokens of a class, with guesses of what cuts each token where the
// search would take long without.
//
// A token `c` surely begins after a token `k` exactly where it does by way of the last node above
// both, or of its own root where there is none. So of the tokens below a node it is the latest that
// tells, and for each `k` the nodes on its way up are asked, and then the other roots. Nothing here
// is believed: the search tries each guess.
ghost use Rattle.std.specs.Prelude.{◌≡◌, ◌≤◌, ℕ, length};
ghost use Rattle.std.specs.List.{All, list_any};
ghost use Rattle.std.specs.Ordering.{on};
ghost use Rattle.tmm_model.specs.Tokens.{of_one_class, supports};
ghost use Rattle.belief_theory.specs.FirstPlaces.{IsFirstPlace};
ghost use Rattle.clipping.specs.ByDate.{IsByDate};
ghost use Rattle.clipping.specs.Live.{IsLive as HasLiveSpots};
ghost use Rattle.occ_tree.specs.Dated.{IsKnown};
ghost use Rattle.occ_tree.specs.Places.{forest};
ghost use Rattle.occ_tree.specs.Standing.{present};
ghost use Rattle.spots.specs.Spots.{spot_distance, spot_early, spot_cmp};

use clipping::by_date;
use occ_tree::{Order, Tree};
use spots::Spot;
use std::alloc::Global;
use tmm_model::{Name, Sure, TokenRow};

// In the place of a token where there is none.
const NONE: u32 = u32::MAX;

// Under how many roots tokens are asked that stand below another one.
const ROOTS: usize = 256;

/// Room for guesses of what cuts the tokens of a class. It is taken where a search takes long
/// without them. Without memory the answers are the same, and may take long.
#[derive(Drop)]
pub struct Guesses {
    // tokens stand in it by their places in the class: under each node, the latest of those at it
    // and below it that may cut
    latest: Vec<u32>,
    // the latest under each of some roots
    roots: Vec<u32>,
    // for each place in the class, a token that may cut the one there
    cutters: Vec<u32>,
}

impl Guesses {
    /// No room yet, which takes no memory.
    pub fn make(alloc: Global) -> Guesses {
        Guesses {
            latest: Vec::new(alloc),
            roots: Vec::new(alloc),
            cutters: Vec::new(alloc),
        }
    }

    // Guesses what cuts the tokens of the fact before `q` that surely begin at or before `p`, for a
    // search that goes on from the first of them or back from the last.
    fn prepare(
        &mut self,
        order: &Order<'_>,
        rows: &[TokenRow<Spot>],
        fact: &Name,
        p: Spot,
        q: Spot,
        back: bool,
    )
        requires live { All (HasLiveSpots (IsKnown order.now.net.now.present (present order.now.tree.now))) rows.now }
        requires by_date { IsByDate (spot_early order.now.net.now.present (forest order.now.tree.now)) (spot_cmp order.now.net.now.present (forest order.now.tree.now)) rows.now }
        requires p_live { IsKnown order.now.net.now.present (present order.now.tree.now) p }
        requires q_live { IsKnown order.now.net.now.present (present order.now.tree.now) q }
    {
        refill(&mut self.latest, order.tree.limit() as usize);
        refill(&mut self.roots, ROOTS);
        refill(&mut self.cutters, rows.len());
        let reach = by_date::count_until(order, rows, q);
        gather(
            order,
            rows,
            reach,
            fact,
            q,
            &mut self.latest,
            &mut self.roots,
        );
        let until = by_date::count_until(order, rows, p);
        guess(
            order,
            until,
            rows,
            fact,
            p,
            back,
            self.latest.as_slice(),
            self.roots.as_slice(),
            &mut self.cutters,
        );
    }
}

// Makes a list this long, with no token at any place. Without memory it is empty.
fn refill(list: &mut Vec<u32>, places: usize) {
    list.clear();
    let _ = list.resize(places, NONE);
}

// Writes under each node the latest of the tokens at it and below it that are of another fact and
// surely begin at or before `q`. They are gone through from the last back, so the first to come to
// a node is its latest. Those that come to a root are kept, of as many as there is place for.
fn gather(
    order: &Order<'_>,
    rows: &[TokenRow<Spot>],
    reach: usize,
    fact: &Name,
    q: Spot,
    latest: &mut Vec<u32>,
    roots: &mut Vec<u32>,
)
    requires live { All (HasLiveSpots (IsKnown order.now.net.now.present (present order.now.tree.now))) rows.now }
    requires q_live { IsKnown order.now.net.now.present (present order.now.tree.now) q }
    requires within { reach ≤ length rows.now }
{
    let mut count = 0;
    for i in (0..reach).rev() {
        let c = &rows[i];
        let place = number_of(i);
        if c.fact != *fact
            && order.at_most(q, c.spot, 0)
            && is_first_of_root(order.tree, latest, c.spot, place)
        {
            set(roots, count, place);
            count = count.saturating_add(1);
        }
    }
}

// Writes that the token at a spot is the latest under each node from its own up to the first that
// has one already; whether there is none up to the root.
fn is_first_of_root(tree: &Tree, latest: &mut Vec<u32>, spot: Spot, place: u32) -> bool {
    let Spot::Node(x) = spot else {
        return false;
    };
    let mut at = x;
    // no way is longer
    for _ in 0..tree.limit() {
        if get(latest.as_slice(), at) != NONE {
            return false;
        }
        set(latest, at as usize, place);
        match parent_of(tree, at) {
            Some(parent) => at = parent,
            None => return true,
        }
    }
    false
}

// Guesses what cuts each of the first tokens that is of the fact and surely begins at or before
// `p`. Where one has none, it is where the search ends, unless there were more roots than are kept.
fn guess(
    order: &Order<'_>,
    first: usize,
    rows: &[TokenRow<Spot>],
    fact: &Name,
    p: Spot,
    back: bool,
    latest: &[u32],
    roots: &[u32],
    cutters: &mut Vec<u32>,
)
    requires live { All (HasLiveSpots (IsKnown order.now.net.now.present (present order.now.tree.now))) rows.now }
    requires p_live { IsKnown order.now.net.now.present (present order.now.tree.now) p }
    requires within { first ≤ length rows.now }
{
    for n in 0..first {
        let i = if back { first - 1 - n } else { n };
        let k = &rows[i];
        if k.fact == *fact && k.end.is_none() && order.at_most(p, k.spot, 0) {
            let place = cutter_of(order, rows, latest, roots, k.spot);
            if place == NONE && !is_full(roots) {
                return;
            }
            set(cutters, i, place);
        }
    }
}

// Whether there may be more roots than are kept.
fn is_full(roots: &[u32]) -> bool {
    match roots.get(ROOTS - 1) {
        Some(place) => *place != NONE,
        None => false,
    }
}

// The place of a token that surely begins after a spot: the latest under a node on the way up from
// it, or under another root.
fn cutter_of(
    order: &Order<'_>,
    rows: &[TokenRow<Spot>],
    latest: &[u32],
    roots: &[u32],
    spot: Spot,
) -> u32
    requires live { All (HasLiveSpots (IsKnown order.now.net.now.present (present order.now.tree.now))) rows.now }
    requires spot_live { IsKnown order.now.net.now.present (present order.now.tree.now) spot }
{
    let above = above_cutter(order, rows, latest, spot);
    if above != NONE {
        return above;
    }
    for place in roots {
        if *place == NONE {
            return NONE;
        }
        if is_behind(order, rows, *place, spot) {
            return *place;
        }
    }
    NONE
}

// The latest under a node on the way up from a spot that surely begins after it.
fn above_cutter(order: &Order<'_>, rows: &[TokenRow<Spot>], latest: &[u32], spot: Spot) -> u32
    requires live { All (HasLiveSpots (IsKnown order.now.net.now.present (present order.now.tree.now))) rows.now }
    requires spot_live { IsKnown order.now.net.now.present (present order.now.tree.now) spot }
{
    let Spot::Node(x) = spot else {
        return NONE;
    };
    let mut at = x;
    let mut tried = NONE;
    // no way is longer
    for _ in 0..order.tree.limit() {
        let place = get(latest, at);
        if place != tried && is_behind(order, rows, place, spot) {
            return place;
        }
        tried = place;
        match parent_of(order.tree, at) {
            Some(parent) => at = parent,
            None => return NONE,
        }
    }
    NONE
}

// Whether there is a token at the place, and it surely begins after a spot.
fn is_behind(order: &Order<'_>, rows: &[TokenRow<Spot>], place: u32, spot: Spot) -> bool
    requires live { All (HasLiveSpots (IsKnown order.now.net.now.present (present order.now.tree.now))) rows.now }
    requires spot_live { IsKnown order.now.net.now.present (present order.now.tree.now) spot }
{
    let place = place as usize;
    place < rows.len() && order.at_most(rows[place].spot, spot, -1)
}

// A place as it stands in the lists.
fn number_of(place: usize) -> u32 {
    match u32::try_from(place) {
        Ok(number) => number,
        Err(_) => NONE,
    }
}

// The node right above a node.
fn parent_of(tree: &Tree, x: u32) -> Option<u32> {
    if tree.is_live(x) {
        tree.row(x).parent
    } else {
        None
    }
}

fn get(numbers: &[u32], i: u32) -> u32 {
    numbers.get(i as usize).copied().unwrap_or(NONE)
}

fn set(numbers: &mut Vec<u32>, i: usize, number: u32) {
    if let Some(at) = numbers.get_mut(i) {
        *at = number;
    }
}

// Over how many tokens a search goes before guesses are made: they cost about as much.
fn most(tokens: usize) -> usize {
    tokens.saturating_mul(4).saturating_add(1000)
}

// The place of the first token that supports the fact throughout `p` to `q`.
pub(crate) fn first_holder(
    order: &Order<'_>,
    rows: &[TokenRow<Spot>],
    fact: Name,
    p: Spot,
    q: Spot,
    guesses: &mut Guesses,
) -> Option<usize>
    requires live { All (HasLiveSpots (IsKnown order.now.net.now.present (present order.now.tree.now))) rows.now }
    requires by_date { IsByDate (spot_early order.now.net.now.present (forest order.now.tree.now)) (spot_cmp order.now.net.now.present (forest order.now.tree.now)) rows.now }
    requires p_live { IsKnown order.now.net.now.present (present order.now.tree.now) p }
    requires q_live { IsKnown order.now.net.now.present (present order.now.tree.now) q }
    ensures { IsFirstPlace (on (λ k. k.spot) (spot_cmp order.now.net.now.present (forest order.now.tree.now))) (supports of_one_class (spot_distance order.now.net.now.present (forest order.now.tree.now)) rows.now fact p q) rows.now result }
{
    if let Some(place) = by_date::holder_soon(order, rows, fact, p, q, most(rows.len())) {
        return place;
    }
    guesses.prepare(order, rows, &fact, p, q, false);
    by_date::holder(order, rows, guesses.cutters.as_slice(), fact, p, q)
}

// Whether a token supports the fact throughout `p` to `q`.
pub(crate) fn is_held(
    order: &Order<'_>,
    rows: &[TokenRow<Spot>],
    fact: Name,
    p: Spot,
    q: Spot,
    guesses: &mut Guesses,
) -> bool
    requires live { All (HasLiveSpots (IsKnown order.now.net.now.present (present order.now.tree.now))) rows.now }
    requires by_date { IsByDate (spot_early order.now.net.now.present (forest order.now.tree.now)) (spot_cmp order.now.net.now.present (forest order.now.tree.now)) rows.now }
    requires p_live { IsKnown order.now.net.now.present (present order.now.tree.now) p }
    requires q_live { IsKnown order.now.net.now.present (present order.now.tree.now) q }
    ensures { result ≡ list_any (supports of_one_class (spot_distance order.now.net.now.present (forest order.now.tree.now)) rows.now fact p q) rows.now }
{
    if let Some(held) = by_date::is_held_soon(order, rows, fact, p, q, most(rows.len())) {
        return held;
    }
    guesses.prepare(order, rows, &fact, p, q, true);
    by_date::is_held(order, rows, guesses.cutters.as_slice(), fact, p, q)
}

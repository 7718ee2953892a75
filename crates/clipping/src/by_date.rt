//! Answers among tokens of one class in the order of their earliest dates, for a map that keeps
//! those of each class so.
//!
//! The first supporter or clip in the list is the first by the order, so a search stops at the
//! first that it finds. No search looks at a token whose date alone rules it out: what supports at
//! a point has a date up to the point's, what clips a token has a later one than the token's, and
//! what cuts it before a point has one up to that point's. The bounds of a search are found by
//! halving. No call takes memory.
//!
//! `is_held` and `holder` cost, for each token of the fact that they pass over, one test where it
//! is cut by what cut the one before, and else the way from there to what cuts this one: little
//! where those that cut stand in the order of those that they cut. Where they stand in quite
//! another order it comes to the square of the tokens up to the last point, but for two things:
//!
//! - `holder_soon` and `is_held_soon` give up when the ways come to more than a caller allows.
//! - `holder` and `is_held` take guesses of what cuts each token. Each is tried, and none is
//!   believed: a right one passes over its token in one test, a wrong one costs that test. Where
//!   all are right, one search is made, for what cuts the token that is found.
ghost use Rattle.std.specs.Prelude.{◌≡◌, ◌<◌, ◌≤◌, ◌+◌, length, IsTrue, IsSome, Some, None, true, false, IfSome, MatchOption, slice_index_or};
ghost use Rattle.std.specs.List.{All, list_any};
ghost use Rattle.std.specs.Option.{ForSome};
ghost use Rattle.std.specs.Ordering.{on};
ghost use Rattle.tmm_model.specs.declared.token.TokenRow.{TokenRow};
ghost use Rattle.tmm_model.specs.Tokens.{of_one_class, supports, cuts};
ghost use Rattle.belief_theory.specs.FirstPlaces.{IsFirstPlace};
ghost use Rattle.clipping.specs.ByDate.{IsByDate, AreUntil, AreBefore, IsAnyPlaceIn, IsFirstPlaceIn, IsPlaceOf};
ghost use Rattle.clipping.specs.Cutters.{BeginsBy, clips_until, is_after, is_between};
ghost use Rattle.clipping.specs.Live.{IsLive};

use crate::{Dated, clips_until, cuts_before, is_cut_by};
use tmm_model::{Name, TokenRow};

// How many tokens have a date up to this one.
fn count_by_date<S: Dated>(order: &S, tokens: &[TokenRow<S::Spot>], until: i64) -> usize
    requires all_live { All (IsLive (S.live order.now)) tokens.now }
    requires by_date { IsByDate (S.date order.now) (S.order order.now) tokens.now }
    ensures { AreUntil (S.date order.now) tokens.now until result }
{
    let mut low = 0;
    let mut high = tokens.len();
    while low < high {
        let middle = low + (high - low) / 2;
        if order.date(tokens[middle].spot) <= until {
            low = middle + 1;
        } else {
            high = middle;
        }
    }
    low
}

/// How many tokens have a date up to that of a spot. They are the first. It is found by halving.
pub fn count_until<S: Dated>(order: &S, tokens: &[TokenRow<S::Spot>], q: S::Spot) -> usize
    requires all_live { All (IsLive (S.live order.now)) tokens.now }
    requires by_date { IsByDate (S.date order.now) (S.order order.now) tokens.now }
    requires q_live { S.live order.now q }
    ensures { AreUntil (S.date order.now) tokens.now (S.date order.now q) result }
{
    count_by_date(order, tokens, order.date(q))
}

// How many tokens have a date up to that of `q`, where `until` have one up to that of `p`. Both are
// mostly one point.
pub(crate) fn count_on<S: Dated>(
    order: &S,
    tokens: &[TokenRow<S::Spot>],
    p: S::Spot,
    until: usize,
    q: S::Spot,
) -> usize
    requires all_live { All (IsLive (S.live order.now)) tokens.now }
    requires by_date { IsByDate (S.date order.now) (S.order order.now) tokens.now }
    requires p_live { S.live order.now p }
    requires q_live { S.live order.now q }
    requires until { AreUntil (S.date order.now) tokens.now (S.date order.now p) until }
    ensures { AreUntil (S.date order.now) tokens.now (S.date order.now q) result }
{
    let date = order.date(q);
    if date == order.date(p) {
        until
    } else {
        count_by_date(order, tokens, date)
    }
}

// How many tokens have a date up to that of a point where one is given: all where none is.
pub(crate) fn count_reached<S: Dated>(
    order: &S,
    tokens: &[TokenRow<S::Spot>],
    until: Option<S::Spot>,
) -> usize
    requires all_live { All (IsLive (S.live order.now)) tokens.now }
    requires by_date { IsByDate (S.date order.now) (S.order order.now) tokens.now }
    requires until_live { ForSome until (λ q. S.live order.now q) }
    ensures { MatchOption until (result ≡ length tokens.now) (λ q. AreUntil (S.date order.now) tokens.now (S.date order.now q) result) }
{
    match until {
        None => tokens.len(),
        Some(q) => count_until(order, tokens, q),
    }
}

// How many tokens are before a spot.
fn count_before<S: Dated>(order: &S, tokens: &[TokenRow<S::Spot>], spot: S::Spot) -> usize
    requires all_live { All (IsLive (S.live order.now)) tokens.now }
    requires by_date { IsByDate (S.date order.now) (S.order order.now) tokens.now }
    requires spot_live { S.live order.now spot }
    ensures { AreBefore (S.order order.now) tokens.now spot result }
{
    let mut low = 0;
    let mut high = tokens.len();
    while low < high {
        let middle = low + (high - low) / 2;
        if order.rank(tokens[middle].spot, spot).is_lt() {
            low = middle + 1;
        } else {
            high = middle;
        }
    }
    low
}

/// The place of the token that begins at a spot, none exactly where no token does. It is found by
/// halving.
pub fn place_of<S: Dated>(order: &S, tokens: &[TokenRow<S::Spot>], spot: S::Spot) -> Option<usize>
    requires all_live { All (IsLive (S.live order.now)) tokens.now }
    requires by_date { IsByDate (S.date order.now) (S.order order.now) tokens.now }
    requires spot_live { S.live order.now spot }
    ensures { IsPlaceOf tokens.now spot result }
{
    let place = count_before(order, tokens, spot);
    let token = tokens.get(place)?;
    if order.rank(token.spot, spot).is_eq() {
        Some(place)
    } else {
        None
    }
}

// The first place, from `low` on and before `high`, of a token that clips `k`, and begins surely at
// or before a point where one is given.
fn first_between<S: Dated>(
    order: &S,
    tokens: &[TokenRow<S::Spot>],
    k: &TokenRow<S::Spot>,
    until: Option<S::Spot>,
    low: usize,
    high: usize,
) -> Option<usize>
    requires all_live { All (IsLive (S.live order.now)) tokens.now }
    requires k_live { S.live order.now k.now.spot }
    requires until_live { ForSome until (λ q. S.live order.now q) }
    requires within { high ≤ length tokens.now }
    ensures { IsFirstPlaceIn (clips_until of_one_class (S.distance order.now) k.now until) tokens.now low high result }
{
    for i in low..high {
        if clips_until(order, k, &tokens[i], until) {
            return Some(i);
        }
    }
    None
}

// A place, from `low` on and before `high`, of a token that cuts `k` before `q`. It is looked for
// from the last one back.
fn last_between<S: Dated>(
    order: &S,
    tokens: &[TokenRow<S::Spot>],
    k: &TokenRow<S::Spot>,
    q: S::Spot,
    low: usize,
    high: usize,
) -> Option<usize>
    requires all_live { All (IsLive (S.live order.now)) tokens.now }
    requires k_live { S.live order.now k.now.spot }
    requires q_live { S.live order.now q }
    requires within { high ≤ length tokens.now }
    ensures { IsAnyPlaceIn (cuts of_one_class (S.distance order.now) k.now q) tokens.now low high result }
{
    for i in (low..high).rev() {
        if cuts_before(order, k, &tokens[i], q) {
            return Some(i);
        }
    }
    None
}

// Where the search for what cuts a token begins. Of the first token it is looked for from the last
// one back: what begins late cuts most. From then on it begins at what cut the token before, near
// which mostly stands what cuts this one, and goes the way that the tokens themselves are gone
// through.
#[derive(Clone, Copy)]
enum Near {
    // on from this place
    On(usize),
    // back from right before this place
    Back(usize),
}

// How the search for what cuts one token after the other stands.
#[derive(Drop)]
pub(crate) struct Search {
    // where it begins for the next one
    near: Near,
    // whether the tokens are gone through from the first on, and not back from the last
    goes_on: bool,
    // how many tokens it went over that do not cut
    walked: usize,
    // the place of the token that cut one last, which mostly cuts the next one too
    cutter: Option<usize>,
}

impl Search {
    // A search back from this place.
    pub(crate) fn new(reach: usize, goes_on: bool) -> Search
        ensures { result.cutter ≡ None }
    {
        Search {
            near: Near::Back(reach),
            goes_on,
            walked: 0,
            cutter: None,
        }
    }

    // Counts the way to the place that was found from `low` on and before `high`, where the next
    // search begins.
    fn go_to(&mut self, found: usize, low: usize, high: usize)
        ensures { self.new.cutter ≡ Some found }
    {
        let steps = steps_to(self.near, found, low, high);
        self.walked = self.walked.saturating_add(steps);
        self.near = if self.goes_on {
            Near::On(found)
        } else {
            Near::Back(found.saturating_add(1))
        };
        self.cutter = Some(found);
    }
}

// How many tokens a search goes over, from `low` on and before `high`, until it comes to the one
// that it finds.
fn steps_to(near: Near, found: usize, low: usize, high: usize) -> usize {
    match near {
        Near::On(place) => {
            let from = place.max(low).min(high);
            if from <= found {
                found - from
            } else {
                high.saturating_sub(from)
                    .saturating_add(found.saturating_sub(low))
            }
        }
        Near::Back(place) => {
            let from = place.max(low).min(high);
            if found < from {
                from - found
            } else {
                from.saturating_sub(low)
                    .saturating_add(high.saturating_sub(found))
            }
        }
    }
}

// Whether a search went over more tokens than it may, where there is a bound.
fn is_over(walked: usize, most: Option<usize>) -> bool
    ensures { most ≡ None → result ≡ false }
{
    match most {
        Some(most) => walked > most,
        None => false,
    }
}

// A place, from `low` on and before `high`, of a token that cuts `k` before `q`.
fn cutter_near<S: Dated>(
    order: &S,
    tokens: &[TokenRow<S::Spot>],
    k: &TokenRow<S::Spot>,
    q: S::Spot,
    low: usize,
    high: usize,
    near: Near,
) -> Option<usize>
    requires all_live { All (IsLive (S.live order.now)) tokens.now }
    requires k_live { S.live order.now k.now.spot }
    requires q_live { S.live order.now q }
    requires within { high ≤ length tokens.now }
    ensures { IsAnyPlaceIn (cuts of_one_class (S.distance order.now) k.now q) tokens.now low high result }
{
    match near {
        Near::On(place) => {
            let from = place.max(low).min(high);
            match first_between(order, tokens, k, Some(q), from, high) {
                Some(c) => Some(c),
                None => first_between(order, tokens, k, Some(q), low, from),
            }
        }
        Near::Back(place) => {
            let from = place.max(low).min(high);
            match last_between(order, tokens, k, q, low, from) {
                Some(c) => Some(c),
                None => last_between(order, tokens, k, q, from, high),
            }
        }
    }
}

// Whether the token that is guessed to cut the one at `i` does so before `q`.
fn is_cut_as_guessed<S: Dated>(
    order: &S,
    tokens: &[TokenRow<S::Spot>],
    guesses: &[u32],
    i: usize,
    q: S::Spot,
) -> bool
    requires all_live { All (IsLive (S.live order.now)) tokens.now }
    requires within { i < length tokens.now }
    requires q_live { S.live order.now q }
    ensures { (d : TokenRow S.Spot) → IsTrue result → list_any (cuts of_one_class (S.distance order.now) (slice_index_or tokens.now i d) q) tokens.now ≡ true }
{
    let Some(guess) = guesses.get(i) else {
        return false;
    };
    let place = *guess as usize;
    place < tokens.len() && cuts_before(order, &tokens[i], &tokens[place], q)
}

// Whether a token cuts the one at `i` before `q`, where the tokens that begin by the date of `q`
// are the first `reach`. Only those behind the one at `i` can. The one that is guessed is asked
// first.
fn is_cut<S: Dated>(
    order: &S,
    tokens: &[TokenRow<S::Spot>],
    guesses: &[u32],
    i: usize,
    q: S::Spot,
    reach: usize,
    search: &mut Search,
) -> bool
    requires all_live { All (IsLive (S.live order.now)) tokens.now }
    requires by_date { IsByDate (S.date order.now) (S.order order.now) tokens.now }
    requires within { i < length tokens.now }
    requires q_live { S.live order.now q }
    requires reach { AreUntil (S.date order.now) tokens.now (S.date order.now q) reach }
    ensures cut { (d : TokenRow S.Spot) → result ≡ list_any (cuts of_one_class (S.distance order.now) (slice_index_or tokens.now i d) q) tokens.now }
    ensures begins { BeginsBy (S.distance order.now) tokens.now q search.old.cutter → BeginsBy (S.distance order.now) tokens.now q search.new.cutter }
{
    if is_cut_as_guessed(order, tokens, guesses, i, q) {
        return true;
    }
    let k = &tokens[i];
    match cutter_near(order, tokens, k, q, i + 1, reach, search.near) {
        Some(c) => {
            search.go_to(c, i + 1, reach);
            true
        }
        None => false,
    }
}

// Whether the token at `i` supports its own fact throughout `p` to `q`, where the tokens that begin
// by the date of `q` are the first `reach`.
pub(crate) fn supports_its_fact<S: Dated>(
    order: &S,
    tokens: &[TokenRow<S::Spot>],
    guesses: &[u32],
    i: usize,
    p: S::Spot,
    q: S::Spot,
    reach: usize,
    search: &mut Search,
) -> bool
    requires all_live { All (IsLive (S.live order.now)) tokens.now }
    requires by_date { IsByDate (S.date order.now) (S.order order.now) tokens.now }
    requires within { i < length tokens.now }
    requires p_live { S.live order.now p }
    requires q_live { S.live order.now q }
    requires reach { AreUntil (S.date order.now) tokens.now (S.date order.now q) reach }
    requires begins { BeginsBy (S.distance order.now) tokens.now q search.old.cutter }
    ensures supports { (d : TokenRow S.Spot) → result ≡ supports of_one_class (S.distance order.now) tokens.now (slice_index_or tokens.now i d).fact p q (slice_index_or tokens.now i d) }
    ensures begins { BeginsBy (S.distance order.now) tokens.now q search.new.cutter }
{
    let k = &tokens[i];
    if is_cut_by(order, tokens, k, q, search.cutter) || !order.at_most(p, k.spot, 0) {
        return false;
    }
    match k.end {
        Some(end) => order.at_most(end, q, -1),
        None => !is_cut(order, tokens, guesses, i, q, reach, search),
    }
}

// Whether the token at `i` supports the fact throughout `p` to `q`, where the tokens that begin by
// the date of `q` are the first `reach`. Most are of another fact.
fn is_supporter<S: Dated>(
    order: &S,
    tokens: &[TokenRow<S::Spot>],
    guesses: &[u32],
    i: usize,
    fact: &Name,
    p: S::Spot,
    q: S::Spot,
    reach: usize,
    search: &mut Search,
) -> bool
    requires all_live { All (IsLive (S.live order.now)) tokens.now }
    requires by_date { IsByDate (S.date order.now) (S.order order.now) tokens.now }
    requires within { i < length tokens.now }
    requires p_live { S.live order.now p }
    requires q_live { S.live order.now q }
    requires reach { AreUntil (S.date order.now) tokens.now (S.date order.now q) reach }
    requires begins { BeginsBy (S.distance order.now) tokens.now q search.old.cutter }
    ensures supports { (d : TokenRow S.Spot) → result ≡ supports of_one_class (S.distance order.now) tokens.now fact.now p q (slice_index_or tokens.now i d) }
    ensures begins { BeginsBy (S.distance order.now) tokens.now q search.new.cutter }
{
    tokens[i].fact == *fact && supports_its_fact(order, tokens, guesses, i, p, q, reach, search)
}

// Whether a token supports the fact throughout `p` to `q`. Where a bound is given, none when the
// search went over more tokens.
fn is_held_within<S: Dated>(
    order: &S,
    tokens: &[TokenRow<S::Spot>],
    guesses: &[u32],
    fact: Name,
    p: S::Spot,
    q: S::Spot,
    most: Option<usize>,
) -> Option<bool>
    requires all_live { All (IsLive (S.live order.now)) tokens.now }
    requires by_date { IsByDate (S.date order.now) (S.order order.now) tokens.now }
    requires p_live { S.live order.now p }
    requires q_live { S.live order.now q }
    ensures held { IfSome result (λ held. held ≡ list_any (supports of_one_class (S.distance order.now) tokens.now fact p q) tokens.now) }
    ensures found { most ≡ None → IsSome result }
{
    let until = count_until(order, tokens, p);
    let reach = count_on(order, tokens, p, until, q);
    let mut search = Search::new(reach, false);
    for i in (0..until).rev() {
        if is_supporter(order, tokens, guesses, i, &fact, p, q, reach, &mut search) {
            return Some(true);
        }
        if is_over(search.walked, most) {
            return None;
        }
    }
    Some(false)
}

/// Whether a token supports the fact throughout `p` to `q`. Those with a date up to that of `p` are
/// asked, from the last back to the first that does: what supports now is mostly among the last
/// that began.
///
/// For the token at the place `i`, `guesses[i]` is the place of one that may cut it. They may be
/// any numbers, and as few as there are: what is answered does not depend on them.
pub fn is_held<S: Dated>(
    order: &S,
    tokens: &[TokenRow<S::Spot>],
    guesses: &[u32],
    fact: Name,
    p: S::Spot,
    q: S::Spot,
) -> bool
    requires all_live { All (IsLive (S.live order.now)) tokens.now }
    requires by_date { IsByDate (S.date order.now) (S.order order.now) tokens.now }
    requires p_live { S.live order.now p }
    requires q_live { S.live order.now q }
    ensures { result ≡ list_any (supports of_one_class (S.distance order.now) tokens.now fact p q) tokens.now }
{
    match is_held_within(order, tokens, guesses, fact, p, q, None) {
        Some(held) => held,
        None => unreachable!(),
    }
}

/// What `is_held` answers without guesses, where that is found soon: none where the search for what
/// cuts tokens went over more than `most` tokens, of which nothing follows.
pub fn is_held_soon<S: Dated>(
    order: &S,
    tokens: &[TokenRow<S::Spot>],
    fact: Name,
    p: S::Spot,
    q: S::Spot,
    most: usize,
) -> Option<bool>
    requires all_live { All (IsLive (S.live order.now)) tokens.now }
    requires by_date { IsByDate (S.date order.now) (S.order order.now) tokens.now }
    requires p_live { S.live order.now p }
    requires q_live { S.live order.now q }
    ensures { IfSome result (λ held. held ≡ list_any (supports of_one_class (S.distance order.now) tokens.now fact p q) tokens.now) }
{
    is_held_within(order, tokens, &[], fact, p, q, Some(most))
}

// The place of the first token that supports the fact throughout `p` to `q`. Where a bound is
// given, none when the search went over more tokens.
fn holder_within<S: Dated>(
    order: &S,
    tokens: &[TokenRow<S::Spot>],
    guesses: &[u32],
    fact: Name,
    p: S::Spot,
    q: S::Spot,
    most: Option<usize>,
) -> Option<Option<usize>>
    requires all_live { All (IsLive (S.live order.now)) tokens.now }
    requires by_date { IsByDate (S.date order.now) (S.order order.now) tokens.now }
    requires p_live { S.live order.now p }
    requires q_live { S.live order.now q }
    ensures first { IfSome result (IsFirstPlace (on (λ k. k.spot) (S.order order.now)) (supports of_one_class (S.distance order.now) tokens.now fact p q) tokens.now) }
    ensures found { most ≡ None → IsSome result }
{
    let until = count_until(order, tokens, p);
    let reach = count_on(order, tokens, p, until, q);
    let mut search = Search::new(reach, true);
    for i in 0..until {
        if is_supporter(order, tokens, guesses, i, &fact, p, q, reach, &mut search) {
            return Some(Some(i));
        }
        if is_over(search.walked, most) {
            return None;
        }
    }
    Some(None)
}

/// The place of the first token that supports the fact throughout `p` to `q`, none exactly where no
/// token does. Those with a date up to that of `p` are asked, from the first on to the first that
/// does.
///
/// For the token at the place `i`, `guesses[i]` is the place of one that may cut it. They may be
/// any numbers, and as few as there are: what is answered does not depend on them.
pub fn holder<S: Dated>(
    order: &S,
    tokens: &[TokenRow<S::Spot>],
    guesses: &[u32],
    fact: Name,
    p: S::Spot,
    q: S::Spot,
) -> Option<usize>
    requires all_live { All (IsLive (S.live order.now)) tokens.now }
    requires by_date { IsByDate (S.date order.now) (S.order order.now) tokens.now }
    requires p_live { S.live order.now p }
    requires q_live { S.live order.now q }
    ensures { IsFirstPlace (on (λ k. k.spot) (S.order order.now)) (supports of_one_class (S.distance order.now) tokens.now fact p q) tokens.now result }
{
    match holder_within(order, tokens, guesses, fact, p, q, None) {
        Some(place) => place,
        None => unreachable!(),
    }
}

/// What `holder` answers without guesses, where that is found soon: none where the search for what
/// cuts tokens went over more than `most` tokens, of which nothing follows.
pub fn holder_soon<S: Dated>(
    order: &S,
    tokens: &[TokenRow<S::Spot>],
    fact: Name,
    p: S::Spot,
    q: S::Spot,
    most: usize,
) -> Option<Option<usize>>
    requires all_live { All (IsLive (S.live order.now)) tokens.now }
    requires by_date { IsByDate (S.date order.now) (S.order order.now) tokens.now }
    requires p_live { S.live order.now p }
    requires q_live { S.live order.now q }
    ensures { IfSome result (IsFirstPlace (on (λ k. k.spot) (S.order order.now)) (supports of_one_class (S.distance order.now) tokens.now fact p q) tokens.now) }
{
    holder_within(order, tokens, &[], fact, p, q, Some(most))
}

// The place of the first token that clips `k`, and begins surely at or before a point where one is
// given.
pub(crate) fn first_clip<S: Dated>(
    order: &S,
    tokens: &[TokenRow<S::Spot>],
    k: &TokenRow<S::Spot>,
    until: Option<S::Spot>,
) -> Option<usize>
    requires all_live { All (IsLive (S.live order.now)) tokens.now }
    requires by_date { IsByDate (S.date order.now) (S.order order.now) tokens.now }
    requires k_live { S.live order.now k.now.spot }
    requires until_live { ForSome until (λ q. S.live order.now q) }
    ensures { IsFirstPlace (on (λ k. k.spot) (S.order order.now)) (clips_until of_one_class (S.distance order.now) k.now until) tokens.now result }
{
    // what clips `k` has a later date
    let low = count_until(order, tokens, k.spot);
    let high = count_reached(order, tokens, until);
    first_between(order, tokens, k, until, low, high)
}

// Whether a token is of the fact, and surely begins after a spot.
fn is_after<S: Dated>(order: &S, c: &TokenRow<S::Spot>, fact: &Name, spot: S::Spot) -> bool
    requires c_live { S.live order.now c.now.spot }
    requires spot_live { S.live order.now spot }
    ensures { result ≡ is_after fact.now (S.distance order.now) spot c.now }
{
    c.fact == *fact && order.at_most(c.spot, spot, -1)
}

// The first place, from `low` on and before `high`, of a token of the fact that surely begins after
// a spot.
fn first_after<S: Dated>(
    order: &S,
    tokens: &[TokenRow<S::Spot>],
    fact: &Name,
    spot: S::Spot,
    low: usize,
    high: usize,
) -> Option<usize>
    requires all_live { All (IsLive (S.live order.now)) tokens.now }
    requires spot_live { S.live order.now spot }
    requires within { high ≤ length tokens.now }
    ensures { IsFirstPlaceIn (is_after fact.now (S.distance order.now) spot) tokens.now low high result }
{
    for i in low..high {
        if is_after(order, &tokens[i], fact, spot) {
            return Some(i);
        }
    }
    None
}

// How many tokens are before a spot where one is given: all where none is.
fn count_ahead<S: Dated>(order: &S, tokens: &[TokenRow<S::Spot>], before: Option<S::Spot>) -> usize
    requires all_live { All (IsLive (S.live order.now)) tokens.now }
    requires by_date { IsByDate (S.date order.now) (S.order order.now) tokens.now }
    requires before_live { ForSome before (λ q. S.live order.now q) }
    ensures { MatchOption before (result ≡ length tokens.now) (λ q. AreBefore (S.order order.now) tokens.now q result) }
{
    match before {
        None => tokens.len(),
        Some(q) => count_before(order, tokens, q),
    }
}

/// The place of the first token of a fact that surely begins after a spot, and comes before another
/// spot where one is given, none exactly where no token does. Those with a later date are asked,
/// to the first that does.
pub fn first_of_fact<S: Dated>(
    order: &S,
    tokens: &[TokenRow<S::Spot>],
    fact: &Name,
    spot: S::Spot,
    before: Option<S::Spot>,
) -> Option<usize>
    requires all_live { All (IsLive (S.live order.now)) tokens.now }
    requires by_date { IsByDate (S.date order.now) (S.order order.now) tokens.now }
    requires spot_live { S.live order.now spot }
    requires before_live { ForSome before (λ q. S.live order.now q) }
    ensures { IsFirstPlace (on (λ k. k.spot) (S.order order.now)) (is_between fact.now (S.distance order.now) (S.order order.now) spot before) tokens.now result }
{
    // what surely begins after a spot has a later date
    let low = count_until(order, tokens, spot);
    let high = count_ahead(order, tokens, before);
    first_after(order, tokens, fact, spot, low, high)
}

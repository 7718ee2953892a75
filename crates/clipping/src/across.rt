//! Answers where facts of other classes contradict too, over several lists of tokens, a
//! list for each class, each in the order of their earliest dates.
//!
//! Two facts contradict each other where one class declares both or they are against each other by
//! a relation that is given (`Rivals`). Of its own list a token asks what the calls for one class
//! ask. Of each other list it asks those tokens alone that begin later than it, up to the last
//! point: whether their facts are against its own, and then where they begin. So where there is no
//! other list, an answer costs what it costs for one class. No call takes memory.
ghost use Rattle.std.specs.Prelude.{◌≡◌, ◌≢◌, ◌↔◌, ◌<◌, ◌≤◌, ◌+◌, ℕ, Bool, length, IsTrue, IsFalse, IsSome, None, true, false, IfSome, MatchOption, slice_get, slice_index_or};
ghost use Rattle.std.specs.List.{All, Contains, list_any};
ghost use Rattle.std.specs.Option.{ForSome};
ghost use Rattle.std.specs.Ordering.{on};
ghost use Rattle.tmm_model.specs.declared.token.TokenRow.{TokenRow as Row};
ghost use Rattle.tmm_model.specs.Points.{same_name};
ghost use Rattle.tmm_model.specs.Tokens.{is_before, supports, cuts, clips};
ghost use Rattle.belief_theory.specs.FirstPlaces.{IsFirstPlace};
ghost use Rattle.clipping.specs.Across.{list_at, all_of, IsCutSpot, IsClassList, IsPlace, at_place, IsFirstPlaceInLists, IsFirstPlaceOfAll, IsFault};
ghost use Rattle.clipping.specs.ByDate.{IsByDate, AreUntil, IsAnyPlaceIn, IsFirstPlaceIn};
ghost use Rattle.clipping.specs.Cutters.{BeginsBy, clips_until};
ghost use Rattle.clipping.specs.Live.{IsLive};
ghost use Rattle.clipping.specs.Rivals.{are_rivals, of_rivals};

use crate::by_date::{self, Search, count_on, count_reached, count_until};
use crate::{Dated, Tokens};
use tmm_model::{Name, Rivals, TokenRow};

/// Where a token stands.
#[derive(Clone, Copy, PartialEq, Eq, Debug)]
pub struct Place {
    /// In which list.
    pub list: usize,
    /// At which place in it.
    pub at: usize,
}

/// Why a token does not support its fact.
#[derive(Clone, Copy, PartialEq, Eq, Debug)]
pub enum Fault {
    /// It does not surely begin at or before the first point.
    Late,
    /// The token at this place is the first that clips it surely at or before the last point.
    Clipped(Place),
    /// It is a span that does not surely end after the last point.
    Ends,
}

// Whether the fact of `c` is against that of `k`, and `c` surely begins after it, and at or before
// a point where one is given.
fn is_rival_clip<S: Dated, R: Rivals>(
    order: &S,
    rivals: &R,
    k: &TokenRow<S::Spot>,
    c: &TokenRow<S::Spot>,
    until: Option<S::Spot>,
) -> bool
    requires k_live { S.live order.now k.now.spot }
    requires c_live { S.live order.now c.now.spot }
    requires until_live { ForSome until (λ q. S.live order.now q) }
    ensures { result ≡ clips_until (are_rivals (R.against rivals.now)) (S.distance order.now) k.now until c.now }
{
    // few facts are against each other, and names are compared sooner than distances
    let clips = rivals.are_against(&k.fact, &c.fact) && order.at_most(c.spot, k.spot, -1);
    match until {
        None => clips,
        Some(q) => clips && order.at_most(q, c.spot, 0),
    }
}

// The first place, from `low` on and before `high`, of a token whose fact is against that of `k`
// and that clips it, and begins surely at or before a point where one is given.
fn first_rival_between<S: Dated, R: Rivals>(
    order: &S,
    rivals: &R,
    tokens: &[TokenRow<S::Spot>],
    k: &TokenRow<S::Spot>,
    until: Option<S::Spot>,
    low: usize,
    high: usize,
) -> Option<usize>
    requires all_live { All (IsLive (S.live order.now)) tokens.now }
    requires k_live { S.live order.now k.now.spot }
    requires until_live { ForSome until (λ q. S.live order.now q) }
    requires within { high ≤ length tokens.now }
    ensures { IsFirstPlaceIn (clips_until (are_rivals (R.against rivals.now)) (S.distance order.now) k.now until) tokens.now low high result }
{
    for i in low..high {
        if is_rival_clip(order, rivals, k, &tokens[i], until) {
            return Some(i);
        }
    }
    None
}

// The place of the first token whose fact is against that of `k` and that clips it, and begins
// surely at or before a point where one is given.
fn first_rival<S: Dated, R: Rivals>(
    order: &S,
    rivals: &R,
    tokens: &[TokenRow<S::Spot>],
    k: &TokenRow<S::Spot>,
    until: Option<S::Spot>,
) -> Option<usize>
    requires all_live { All (IsLive (S.live order.now)) tokens.now }
    requires by_date { IsByDate (S.date order.now) (S.order order.now) tokens.now }
    requires k_live { S.live order.now k.now.spot }
    requires until_live { ForSome until (λ q. S.live order.now q) }
    ensures { IsFirstPlace (on (λ k. k.spot) (S.order order.now)) (clips_until (are_rivals (R.against rivals.now)) (S.distance order.now) k.now until) tokens.now result }
{
    // what clips `k` has a later date
    let low = count_until(order, tokens, k.spot);
    let high = count_reached(order, tokens, until);
    first_rival_between(order, rivals, tokens, k, until, low, high)
}

// The place in the list `i` of the first token that clips `k`, a token of the list `own`, and
// begins surely at or before a point where one is given.
fn first_in<S: Dated, T: Tokens<Spot = S::Spot>, R: Rivals>(
    order: &S,
    tokens: &T,
    rivals: &R,
    own: usize,
    k: &TokenRow<S::Spot>,
    until: Option<S::Spot>,
    i: usize,
) -> Option<usize>
    requires all_live { All (All (IsLive (S.live order.now))) (T.lists tokens.now) }
    requires by_date { All (IsByDate (S.date order.now) (S.order order.now)) (T.lists tokens.now) }
    requires own { own < length (T.lists tokens.now) }
    requires by_class { IsClassList (T.lists tokens.now) own }
    requires k { Contains (list_at (T.lists tokens.now) own) k.now }
    requires k_live { S.live order.now k.now.spot }
    requires until_live { ForSome until (λ q. S.live order.now q) }
    requires within { i < length (T.lists tokens.now) }
    ensures { IsFirstPlace (on (λ k. k.spot) (S.order order.now)) (clips_until (of_rivals (R.against rivals.now)) (S.distance order.now) k.now until) (list_at (T.lists tokens.now) i) result }
{
    let list = tokens.list(i);
    if i == own {
        by_date::first_clip(order, list, k, until)
    } else {
        first_rival(order, rivals, list, k, until)
    }
}

// A place, from `low` on and before `high`, of a token whose fact is against that of `k` and that
// cuts it before `q`. It is looked for from the last one back: what begins late cuts most.
fn last_rival_between<S: Dated, R: Rivals>(
    order: &S,
    rivals: &R,
    tokens: &[TokenRow<S::Spot>],
    k: &TokenRow<S::Spot>,
    q: S::Spot,
    low: usize,
    high: usize,
) -> Option<usize>
    requires all_live { All (IsLive (S.live order.now)) tokens.now }
    requires k_live { S.live order.now k.now.spot }
    requires q_live { S.live order.now q }
    requires within { high ≤ length tokens.now }
    ensures { IsAnyPlaceIn (cuts (are_rivals (R.against rivals.now)) (S.distance order.now) k.now q) tokens.now low high result }
{
    for i in (low..high).rev() {
        if is_rival_clip(order, rivals, k, &tokens[i], Some(q)) {
            return Some(i);
        }
    }
    None
}

// Where a token of the list `i` begins that cuts `k`, a token of another list, before `q`.
fn cut_in<S: Dated, T: Tokens<Spot = S::Spot>, R: Rivals>(
    order: &S,
    tokens: &T,
    rivals: &R,
    own: usize,
    k: &TokenRow<S::Spot>,
    q: S::Spot,
    i: usize,
) -> Option<S::Spot>
    requires all_live { All (All (IsLive (S.live order.now))) (T.lists tokens.now) }
    requires by_date { All (IsByDate (S.date order.now) (S.order order.now)) (T.lists tokens.now) }
    requires own { own < length (T.lists tokens.now) }
    requires by_class { IsClassList (T.lists tokens.now) own }
    requires k { Contains (list_at (T.lists tokens.now) own) k.now }
    requires k_live { S.live order.now k.now.spot }
    requires q_live { S.live order.now q }
    requires within { i < length (T.lists tokens.now) }
    requires other { i ≢ own }
    ensures cut { ForSome result (IsCutSpot (of_rivals (R.against rivals.now)) (S.distance order.now) (S.live order.now) (all_of (T.lists tokens.now)) k.now.fact q) }
    ensures uncut { result ≡ None → list_any (cuts (of_rivals (R.against rivals.now)) (S.distance order.now) k.now q) (list_at (T.lists tokens.now) i) ≡ false }
    ensures found { IsSome result → list_any (cuts (of_rivals (R.against rivals.now)) (S.distance order.now) k.now q) (all_of (T.lists tokens.now)) ≡ true }
{
    let list = tokens.list(i);
    // what cuts `k` has a later date
    let low = count_until(order, list, k.spot);
    let high = count_until(order, list, q);
    let place = last_rival_between(order, rivals, list, k, q, low, high)?;
    Some(list[place].spot)
}

// Where a token of another list than `own` begins that cuts `k`, a token of that one, before `q`.
fn cut_elsewhere<S: Dated, T: Tokens<Spot = S::Spot>, R: Rivals>(
    order: &S,
    tokens: &T,
    rivals: &R,
    own: usize,
    k: &TokenRow<S::Spot>,
    q: S::Spot,
) -> Option<S::Spot>
    requires all_live { All (All (IsLive (S.live order.now))) (T.lists tokens.now) }
    requires by_date { All (IsByDate (S.date order.now) (S.order order.now)) (T.lists tokens.now) }
    requires own { own < length (T.lists tokens.now) }
    requires by_class { IsClassList (T.lists tokens.now) own }
    requires k { Contains (list_at (T.lists tokens.now) own) k.now }
    requires k_live { S.live order.now k.now.spot }
    requires q_live { S.live order.now q }
    ensures cut { ForSome result (IsCutSpot (of_rivals (R.against rivals.now)) (S.distance order.now) (S.live order.now) (all_of (T.lists tokens.now)) k.now.fact q) }
    ensures uncut { result ≡ None → (i : ℕ) → i < length (T.lists tokens.now) → i ≢ own → list_any (cuts (of_rivals (R.against rivals.now)) (S.distance order.now) k.now q) (list_at (T.lists tokens.now) i) ≡ false }
    ensures found { IsSome result → list_any (cuts (of_rivals (R.against rivals.now)) (S.distance order.now) k.now q) (all_of (T.lists tokens.now)) ≡ true }
{
    for i in 0..tokens.count() {
        if i != own {
            if let Some(spot) = cut_in(order, tokens, rivals, own, k, q, i) {
                return Some(spot);
            }
        }
    }
    None
}

// Whether a token of another list than `own` cuts `k`, a token of that one, before `q`. Where one
// that does so begins is kept.
fn is_cut_elsewhere<S: Dated, T: Tokens<Spot = S::Spot>, R: Rivals>(
    order: &S,
    tokens: &T,
    rivals: &R,
    own: usize,
    k: &TokenRow<S::Spot>,
    q: S::Spot,
    elsewhere: &mut Option<S::Spot>,
) -> bool
    requires all_live { All (All (IsLive (S.live order.now))) (T.lists tokens.now) }
    requires by_date { All (IsByDate (S.date order.now) (S.order order.now)) (T.lists tokens.now) }
    requires own { own < length (T.lists tokens.now) }
    requires by_class { IsClassList (T.lists tokens.now) own }
    requires k { Contains (list_at (T.lists tokens.now) own) k.now }
    requires k_live { S.live order.now k.now.spot }
    requires q_live { S.live order.now q }
    ensures cut { IsTrue result → list_any (cuts (of_rivals (R.against rivals.now)) (S.distance order.now) k.now q) (all_of (T.lists tokens.now)) ≡ true }
    ensures uncut { IsFalse result → (i : ℕ) → i < length (T.lists tokens.now) → i ≢ own → list_any (cuts (of_rivals (R.against rivals.now)) (S.distance order.now) k.now q) (list_at (T.lists tokens.now) i) ≡ false }
    ensures spot { ForSome elsewhere.old (IsCutSpot (of_rivals (R.against rivals.now)) (S.distance order.now) (S.live order.now) (all_of (T.lists tokens.now)) k.now.fact q) → ForSome elsewhere.new (IsCutSpot (of_rivals (R.against rivals.now)) (S.distance order.now) (S.live order.now) (all_of (T.lists tokens.now)) k.now.fact q) }
{
    match cut_elsewhere(order, tokens, rivals, own, k, q) {
        Some(spot) => {
            *elsewhere = Some(spot);
            true
        }
        None => false,
    }
}

// Whether `k` is a persistence that surely begins before the spot, if there is one.
fn is_cut_at<S: Dated>(order: &S, k: &TokenRow<S::Spot>, spot: Option<S::Spot>) -> bool
    requires k_live { S.live order.now k.now.spot }
    requires spot_live { ForSome spot (λ r. S.live order.now r) }
    ensures { MatchOption spot (IsFalse result) (λ r. IsTrue result → (k.now.end ≡ None) × IsTrue (is_before (S.distance order.now) k.now.spot r)) }
{
    match spot {
        Some(r) => k.end.is_none() && order.at_most(r, k.spot, -1),
        None => false,
    }
}

// Whether the token at `i` of its list supports the fact throughout `p` to `q` among the tokens of
// all lists, where the tokens of its list that begin by the date of `q` are the first `reach`. What
// cut a token before from another list mostly cuts this one as well: that is asked first, by the
// spot where it begins.
fn is_supporter<S: Dated, T: Tokens<Spot = S::Spot>, R: Rivals>(
    order: &S,
    tokens: &T,
    rivals: &R,
    own: usize,
    guesses: &[u32],
    i: usize,
    fact: &Name,
    p: S::Spot,
    q: S::Spot,
    reach: usize,
    search: &mut Search,
    elsewhere: &mut Option<S::Spot>,
) -> bool
    requires all_live { All (All (IsLive (S.live order.now))) (T.lists tokens.now) }
    requires by_date { All (IsByDate (S.date order.now) (S.order order.now)) (T.lists tokens.now) }
    requires own { own < length (T.lists tokens.now) }
    requires by_class { IsClassList (T.lists tokens.now) own }
    requires within { i < length (list_at (T.lists tokens.now) own) }
    requires p_live { S.live order.now p }
    requires q_live { S.live order.now q }
    requires reach { AreUntil (S.date order.now) (list_at (T.lists tokens.now) own) (S.date order.now q) reach }
    requires begins { BeginsBy (S.distance order.now) (list_at (T.lists tokens.now) own) q search.old.cutter }
    requires cut { ForSome elsewhere.old (IsCutSpot (of_rivals (R.against rivals.now)) (S.distance order.now) (S.live order.now) (all_of (T.lists tokens.now)) fact.now q) }
    ensures supports { (d : Row S.Spot) → result ≡ supports (of_rivals (R.against rivals.now)) (S.distance order.now) (all_of (T.lists tokens.now)) fact.now p q (slice_index_or (list_at (T.lists tokens.now) own) i d) }
    ensures begins { BeginsBy (S.distance order.now) (list_at (T.lists tokens.now) own) q search.new.cutter }
    ensures cut { ForSome elsewhere.new (IsCutSpot (of_rivals (R.against rivals.now)) (S.distance order.now) (S.live order.now) (all_of (T.lists tokens.now)) fact.now q) }
{
    let list = tokens.list(own);
    let k = &list[i];
    if k.fact != *fact {
        return false;
    }
    if is_cut_at(order, k, *elsewhere) {
        return false;
    }
    if !by_date::supports_its_fact(order, list, guesses, i, p, q, reach, search) {
        return false;
    }
    match k.end {
        Some(_) => true,
        None => !is_cut_elsewhere(order, tokens, rivals, own, k, q, elsewhere),
    }
}

/// The place in the list `own` of the first token that supports the fact throughout `p` to `q`
/// among the tokens of all lists, none exactly where none does. `own` is the list of the fact's
/// class: no token of the fact stands in another one, and the first of the list is the first of
/// all.
///
/// For the token at the place `i` of the list, `guesses[i]` is the place in it of one that may cut
/// it. They may be any numbers, and as few as there are: what is answered does not depend on them.
pub fn holder<S: Dated, T: Tokens<Spot = S::Spot>, R: Rivals>(
    order: &S,
    tokens: &T,
    rivals: &R,
    own: usize,
    guesses: &[u32],
    fact: Name,
    p: S::Spot,
    q: S::Spot,
) -> Option<usize>
    requires all_live { All (All (IsLive (S.live order.now))) (T.lists tokens.now) }
    requires by_date { All (IsByDate (S.date order.now) (S.order order.now)) (T.lists tokens.now) }
    requires own { own < length (T.lists tokens.now) }
    requires by_class { IsClassList (T.lists tokens.now) own }
    requires p_live { S.live order.now p }
    requires q_live { S.live order.now q }
    ensures { IsFirstPlace (on (λ k. k.spot) (S.order order.now)) (supports (of_rivals (R.against rivals.now)) (S.distance order.now) (all_of (T.lists tokens.now)) fact p q) (list_at (T.lists tokens.now) own) result }
{
    let list = tokens.list(own);
    let until = count_until(order, list, p);
    let reach = count_on(order, list, p, until, q);
    let mut search = Search::new(reach, true);
    let mut elsewhere = None;
    for i in 0..until {
        if is_supporter(
            order,
            tokens,
            rivals,
            own,
            guesses,
            i,
            &fact,
            p,
            q,
            reach,
            &mut search,
            &mut elsewhere,
        ) {
            return Some(i);
        }
    }
    None
}

/// Whether a token supports the fact throughout `p` to `q` among the tokens of all lists. `own` is
/// the list of the fact's class, and for the token at the place `i` of it, `guesses[i]` is the
/// place in it of one that may cut it, as in `holder`.
pub fn is_held<S: Dated, T: Tokens<Spot = S::Spot>, R: Rivals>(
    order: &S,
    tokens: &T,
    rivals: &R,
    own: usize,
    guesses: &[u32],
    fact: Name,
    p: S::Spot,
    q: S::Spot,
) -> bool
    requires all_live { All (All (IsLive (S.live order.now))) (T.lists tokens.now) }
    requires by_date { All (IsByDate (S.date order.now) (S.order order.now)) (T.lists tokens.now) }
    requires own { own < length (T.lists tokens.now) }
    requires by_class { IsClassList (T.lists tokens.now) own }
    requires p_live { S.live order.now p }
    requires q_live { S.live order.now q }
    ensures { result ≡ list_any (supports (of_rivals (R.against rivals.now)) (S.distance order.now) (all_of (T.lists tokens.now)) fact p q) (list_at (T.lists tokens.now) own) }
{
    let list = tokens.list(own);
    let until = count_until(order, list, p);
    let reach = count_on(order, list, p, until, q);
    let mut search = Search::new(reach, false);
    let mut elsewhere = None;
    for i in (0..until).rev() {
        if is_supporter(
            order,
            tokens,
            rivals,
            own,
            guesses,
            i,
            &fact,
            p,
            q,
            reach,
            &mut search,
            &mut elsewhere,
        ) {
            return true;
        }
    }
    false
}

// The token at a place.
fn token_at<T: Tokens>(tokens: &T, place: Place) -> &TokenRow<T::Spot>
    requires { IsPlace (T.lists tokens.now) place }
    ensures { result.now ≡ at_place (T.lists tokens.now) place result.now }
{
    &tokens.list(place.list)[place.at]
}

// Of the best place so far and what is found in the list `i`, the one that is first.
fn first_of<S: Dated, T: Tokens<Spot = S::Spot>>(
    order: &S,
    tokens: &T,
    best: Option<Place>,
    i: usize,
    found: Option<usize>,
) -> Option<Place>
    requires all_live { All (All (IsLive (S.live order.now))) (T.lists tokens.now) }
    requires best_within { ForSome best (IsPlace (T.lists tokens.now)) }
    requires within { i < length (T.lists tokens.now) }
    requires found_within { ForSome found (λ j. j < length (list_at (T.lists tokens.now) i)) }
    ensures { (test : Row S.Spot → Bool) → IsFirstPlaceInLists (on (λ k. k.spot) (S.order order.now)) test (T.lists tokens.now) i best → IsFirstPlace (on (λ k. k.spot) (S.order order.now)) test (list_at (T.lists tokens.now) i) found → IsFirstPlaceInLists (on (λ k. k.spot) (S.order order.now)) test (T.lists tokens.now) (i + 1) result }
{
    let Some(at) = found else {
        return best;
    };
    let here = Place { list: i, at };
    let Some(before) = best else {
        return Some(here);
    };
    let (first, next) = (token_at(tokens, before), token_at(tokens, here));
    if order.rank(first.spot, next.spot).is_gt() {
        Some(here)
    } else {
        best
    }
}

// The place of the first of all tokens that clips `k`, a token of the list `own`, and begins surely
// at or before a point where one is given.
fn first_clip<S: Dated, T: Tokens<Spot = S::Spot>, R: Rivals>(
    order: &S,
    tokens: &T,
    rivals: &R,
    own: usize,
    k: &TokenRow<S::Spot>,
    until: Option<S::Spot>,
) -> Option<Place>
    requires all_live { All (All (IsLive (S.live order.now))) (T.lists tokens.now) }
    requires by_date { All (IsByDate (S.date order.now) (S.order order.now)) (T.lists tokens.now) }
    requires own { own < length (T.lists tokens.now) }
    requires by_class { IsClassList (T.lists tokens.now) own }
    requires k { Contains (list_at (T.lists tokens.now) own) k.now }
    requires k_live { S.live order.now k.now.spot }
    requires until_live { ForSome until (λ q. S.live order.now q) }
    ensures { IsFirstPlaceOfAll (on (λ k. k.spot) (S.order order.now)) (clips_until (of_rivals (R.against rivals.now)) (S.distance order.now) k.now until) (T.lists tokens.now) result }
{
    let mut clip = None;
    for i in 0..tokens.count() {
        let found = first_in(order, tokens, rivals, own, k, until, i);
        clip = first_of(order, tokens, clip, i, found);
    }
    clip
}

/// Why the token at `k` does not support its fact throughout `p` to `q` among the tokens of all
/// lists. The caller knows that it does not. A clip is looked for among those of each list with a
/// later date than the token, up to the date of `q`.
pub fn blame<S: Dated, T: Tokens<Spot = S::Spot>, R: Rivals>(
    order: &S,
    tokens: &T,
    rivals: &R,
    k: Place,
    p: S::Spot,
    q: S::Spot,
) -> Fault
    requires all_live { All (All (IsLive (S.live order.now))) (T.lists tokens.now) }
    requires by_date { All (IsByDate (S.date order.now) (S.order order.now)) (T.lists tokens.now) }
    requires p_live { S.live order.now p }
    requires q_live { S.live order.now q }
    requires within { IsPlace (T.lists tokens.now) k }
    requires by_class { IsClassList (T.lists tokens.now) k.list }
    requires no_supporter { ForSome (slice_get (list_at (T.lists tokens.now) k.list) k.at) (λ row. supports (of_rivals (R.against rivals.now)) (S.distance order.now) (all_of (T.lists tokens.now)) row.fact p q row ≡ false) }
    ensures { IfSome (slice_get (list_at (T.lists tokens.now) k.list) k.at) (λ row. IsFault (of_rivals (R.against rivals.now)) (S.distance order.now) (S.order order.now) (T.lists tokens.now) row p q result) }
{
    let row = &tokens.list(k.list)[k.at];
    if !order.at_most(p, row.spot, 0) {
        return Fault::Late;
    }
    match row.end {
        Some(_) => Fault::Ends,
        None => match first_clip(order, tokens, rivals, k.list, row, Some(q)) {
            Some(c) => Fault::Clipped(c),
            None => Fault::Ends,
        },
    }
}

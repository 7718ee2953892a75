//! Which token supports a fact, what clips a token, and why a token is no supporter, over any
//! distances and order of spots, and tokens of one class in any order. The program keeps tokens in
//! the order of their dates and asks `clipping`; no crate of it stands on this one.
//!
//! Each call answers exactly as the definitions of support and clip say: the first token by the
//! order of spots, and none exactly where no token is such. No call takes memory.
#![tactic(auto)]

ghost use Rattle.std.specs.Prelude.{◌≡◌, ◌<◌, ◌+◌, length, false, slice_get, IfSome};
ghost use Rattle.std.specs.List.{list_any, All};
ghost use Rattle.std.specs.Option.{ForSome};
ghost use Rattle.std.specs.Ordering.{on};
ghost use Rattle.tmm_model.specs.Tokens.{of_one_class, supports, cuts, lasts_to};
ghost use Rattle.belief_theory.specs.FirstPlaces.{IsFirstPlace, IsFirstPlaceAmong};
ghost use Rattle.clipping.specs.Cutters.{BeginsBy, clips_until};
ghost use Rattle.clipping.specs.Live.{IsLive};
ghost use Rattle.any_order.specs.Ahead.{IsAhead};
ghost use Rattle.any_order.specs.Faults.{IsClipPlace, IsFault};

use clipping::{clips_until, cuts_before, is_cut_by};
use tmm_model::{Name, Sure, TokenRow};

// Whether `k` lasts up to `q` among the tokens.
fn lasts<S: Sure>(
    order: &S,
    tokens: &[TokenRow<S::Spot>],
    k: &TokenRow<S::Spot>,
    q: S::Spot,
    cutter: &mut Option<usize>,
) -> bool
    requires all_live { All (IsLive (S.live order.now)) tokens.now }
    requires k_live { IsLive (S.live order.now) k.now }
    requires q_live { S.live order.now q }
    ensures lasts { result ≡ lasts_to of_one_class (S.distance order.now) tokens.now k.now q k.now.end }
    ensures cutter { BeginsBy (S.distance order.now) tokens.now q cutter.old → BeginsBy (S.distance order.now) tokens.now q cutter.new }
{
    match k.end {
        Some(end) => order.at_most(end, q, -1),
        None => !is_cut(order, tokens, k, q, cutter),
    }
}

// Whether a token cuts `k` before `q`. The place of one that cuts is kept.
fn is_cut<S: Sure>(
    order: &S,
    tokens: &[TokenRow<S::Spot>],
    k: &TokenRow<S::Spot>,
    q: S::Spot,
    cutter: &mut Option<usize>,
) -> bool
    requires all_live { All (IsLive (S.live order.now)) tokens.now }
    requires k_live { S.live order.now k.now.spot }
    requires q_live { S.live order.now q }
    ensures cut { result ≡ list_any (cuts of_one_class (S.distance order.now) k.now q) tokens.now }
    ensures cutter { BeginsBy (S.distance order.now) tokens.now q cutter.old → BeginsBy (S.distance order.now) tokens.now q cutter.new }
{
    // tokens mostly enter in the order of their dates, and what cuts is found among the last
    for i in (0..tokens.len()).rev() {
        if cuts_before(order, k, &tokens[i], q) {
            *cutter = Some(i);
            return true;
        }
    }
    false
}

// Whether `k` supports the fact throughout `p` to `q` among the tokens. What cut a token before
// mostly cuts this one as well, so that is asked first.
fn is_supporter<S: Sure>(
    order: &S,
    tokens: &[TokenRow<S::Spot>],
    k: &TokenRow<S::Spot>,
    fact: &Name,
    p: S::Spot,
    q: S::Spot,
    cutter: &mut Option<usize>,
) -> bool
    requires all_live { All (IsLive (S.live order.now)) tokens.now }
    requires k_live { IsLive (S.live order.now) k.now }
    requires p_live { S.live order.now p }
    requires q_live { S.live order.now q }
    requires begins { BeginsBy (S.distance order.now) tokens.now q cutter.old }
    ensures supports { result ≡ supports of_one_class (S.distance order.now) tokens.now fact.now p q k.now }
    ensures begins { BeginsBy (S.distance order.now) tokens.now q cutter.new }
{
    if k.fact != *fact || is_cut_by(order, tokens, k, q, *cutter) {
        return false;
    }
    order.at_most(p, k.spot, 0) && lasts(order, tokens, k, q, cutter)
}

/// Whether a token supports the fact throughout `p` to `q`.
pub fn is_held<S: Sure>(
    order: &S,
    tokens: &[TokenRow<S::Spot>],
    fact: Name,
    p: S::Spot,
    q: S::Spot,
) -> bool
    requires all_live { All (IsLive (S.live order.now)) tokens.now }
    requires p_live { S.live order.now p }
    requires q_live { S.live order.now q }
    ensures { result ≡ list_any (supports of_one_class (S.distance order.now) tokens.now fact p q) tokens.now }
{
    let mut cutter = None;
    // what supports now is mostly among the last that entered
    for i in (0..tokens.len()).rev() {
        if is_supporter(order, tokens, &tokens[i], &fact, p, q, &mut cutter) {
            return true;
        }
    }
    false
}

// Whether the token at `i` is before the best so far, as it is where there is none.
fn is_ahead<S: Sure>(order: &S, tokens: &[TokenRow<S::Spot>], best: Option<usize>, i: usize) -> bool
    requires all_live { All (IsLive (S.live order.now)) tokens.now }
    requires best_within { ForSome best (λ b. b < length tokens.now) }
    requires within { i < length tokens.now }
    ensures { IsAhead (on (λ k. k.spot) (S.order order.now)) tokens.now best i result }
{
    match best {
        None => true,
        Some(b) => order.rank(tokens[b].spot, tokens[i].spot).is_gt(),
    }
}

// The first place that supports the fact so far, one more token being looked at: the one at `i`.
// One of another fact, or behind the best so far, is not tested whether it lasts.
fn better<S: Sure>(
    order: &S,
    tokens: &[TokenRow<S::Spot>],
    best: Option<usize>,
    i: usize,
    fact: &Name,
    p: S::Spot,
    q: S::Spot,
    cutter: &mut Option<usize>,
) -> Option<usize>
    requires all_live { All (IsLive (S.live order.now)) tokens.now }
    requires p_live { S.live order.now p }
    requires q_live { S.live order.now q }
    requires within { i < length tokens.now }
    requires begins { BeginsBy (S.distance order.now) tokens.now q cutter.old }
    requires best { IsFirstPlaceAmong (on (λ k. k.spot) (S.order order.now)) (supports of_one_class (S.distance order.now) tokens.now fact.now p q) tokens.now i best }
    ensures best { IsFirstPlaceAmong (on (λ k. k.spot) (S.order order.now)) (supports of_one_class (S.distance order.now) tokens.now fact.now p q) tokens.now (i + 1) result }
    ensures begins { BeginsBy (S.distance order.now) tokens.now q cutter.new }
{
    let k = &tokens[i];
    if k.fact != *fact {
        return best;
    }
    if !is_ahead(order, tokens, best, i) {
        return best;
    }
    if is_supporter(order, tokens, k, fact, p, q, cutter) {
        Some(i)
    } else {
        best
    }
}

/// The place of the first token that supports the fact throughout `p` to `q`, none exactly where no
/// token does.
pub fn holder<S: Sure>(
    order: &S,
    tokens: &[TokenRow<S::Spot>],
    fact: Name,
    p: S::Spot,
    q: S::Spot,
) -> Option<usize>
    requires all_live { All (IsLive (S.live order.now)) tokens.now }
    requires p_live { S.live order.now p }
    requires q_live { S.live order.now q }
    ensures { IsFirstPlace (on (λ k. k.spot) (S.order order.now)) (supports of_one_class (S.distance order.now) tokens.now fact p q) tokens.now result }
{
    let mut best = None;
    let mut cutter = None;
    for i in 0..tokens.len() {
        best = better(order, tokens, best, i, &fact, p, q, &mut cutter);
    }
    best
}

// The first place that clips `k` until a point so far, one more token being looked at: the one at
// `i`. One of the same fact, or behind the best so far, is not tested whether it clips.
fn better_clip<S: Sure>(
    order: &S,
    tokens: &[TokenRow<S::Spot>],
    best: Option<usize>,
    i: usize,
    k: &TokenRow<S::Spot>,
    until: Option<S::Spot>,
) -> Option<usize>
    requires all_live { All (IsLive (S.live order.now)) tokens.now }
    requires k_live { S.live order.now k.now.spot }
    requires until_live { ForSome until (λ q. S.live order.now q) }
    requires within { i < length tokens.now }
    requires best { IsFirstPlaceAmong (on (λ k. k.spot) (S.order order.now)) (clips_until of_one_class (S.distance order.now) k.now until) tokens.now i best }
    ensures { IsFirstPlaceAmong (on (λ k. k.spot) (S.order order.now)) (clips_until of_one_class (S.distance order.now) k.now until) tokens.now (i + 1) result }
{
    let c = &tokens[i];
    if k.fact == c.fact {
        return best;
    }
    if !is_ahead(order, tokens, best, i) {
        return best;
    }
    if clips_until(order, k, c, until) {
        Some(i)
    } else {
        best
    }
}

// The place of the first token that clips `k`, and begins surely at or before a point where one is
// given.
fn first_clip<S: Sure>(
    order: &S,
    tokens: &[TokenRow<S::Spot>],
    k: &TokenRow<S::Spot>,
    until: Option<S::Spot>,
) -> Option<usize>
    requires all_live { All (IsLive (S.live order.now)) tokens.now }
    requires k_live { S.live order.now k.now.spot }
    requires until_live { ForSome until (λ q. S.live order.now q) }
    ensures { IsFirstPlace (on (λ k. k.spot) (S.order order.now)) (clips_until of_one_class (S.distance order.now) k.now until) tokens.now result }
{
    let mut clip = None;
    for i in 0..tokens.len() {
        clip = better_clip(order, tokens, clip, i, k, until);
    }
    clip
}

/// The place of the first token that clips the one at `k`, none exactly where no token does. A span
/// has none.
pub fn first_clipper<S: Sure>(order: &S, tokens: &[TokenRow<S::Spot>], k: usize) -> Option<usize>
    requires all_live { All (IsLive (S.live order.now)) tokens.now }
    requires within { k < length tokens.now }
    ensures { IfSome (slice_get tokens.now k) (λ row. IsClipPlace of_one_class (S.distance order.now) (S.order order.now) tokens.now row result) }
{
    let row = &tokens[k];
    match row.end {
        Some(_) => None,
        None => first_clip(order, tokens, row, None),
    }
}

/// Why a token does not support its fact.
#[derive(Clone, Copy, PartialEq, Eq, Debug)]
pub enum Fault {
    /// It does not surely begin at or before the first point.
    Late,
    /// The token at this place is the first that clips it surely at or before the last point.
    Clipped(usize),
    /// It is a span that does not surely end after the last point.
    Ends,
}

/// Why the token at `k` does not support its fact throughout `p` to `q`. The caller knows that it
/// does not.
pub fn blame<S: Sure>(
    order: &S,
    tokens: &[TokenRow<S::Spot>],
    k: usize,
    p: S::Spot,
    q: S::Spot,
) -> Fault
    requires all_live { All (IsLive (S.live order.now)) tokens.now }
    requires p_live { S.live order.now p }
    requires q_live { S.live order.now q }
    requires within { k < length tokens.now }
    requires no_supporter { ForSome (slice_get tokens.now k) (λ row. supports of_one_class (S.distance order.now) tokens.now row.fact p q row ≡ false) }
    ensures { IfSome (slice_get tokens.now k) (λ row. IsFault of_one_class (S.distance order.now) (S.order order.now) tokens.now row p q result) }
{
    let row = &tokens[k];
    if !order.at_most(p, row.spot, 0) {
        return Fault::Late;
    }
    match row.end {
        Some(_) => Fault::Ends,
        None => match first_clip(order, tokens, row, Some(q)) {
            Some(c) => Fault::Clipped(c),
            None => Fault::Ends,
        },
    }
}

//! Whether tokens stand in lists as the calls of `clipping` ask: in the order of their dates, and
//! those of one class in one list.
ghost use Rattle.std.specs.Prelude.{◌≡◌, ◌↔◌, ◌<◌, ◌≤ℤ◌, length, IsTrue};
ghost use Rattle.std.specs.List.{All};
ghost use Rattle.std.specs.declared.cmp.Ordering.TheVariants.{Less};
ghost use Rattle.tmm_model.specs.Points.{same_name};
ghost use Rattle.clipping.specs.Across.{IsClassList};
ghost use Rattle.clipping.specs.ByDate.{IsByDate};
ghost use Rattle.clipping.specs.Live.{IsLive};

use clipping::{Dated, Tokens};
use tmm_model::{Name, TokenRow};

// Whether the tokens stand in the order of their dates, which the calls of `by_date` ask for.
pub(crate) fn is_by_date<S: Dated>(order: &S, tokens: &[TokenRow<S::Spot>]) -> bool
    requires all_live { All (IsLive (S.live order.now)) tokens.now }
    ensures { IsTrue result ↔ IsByDate (S.date order.now) (S.order order.now) tokens.now }
{
    for i in 1..tokens.len() {
        if !follows(order, tokens[i - 1].spot, tokens[i].spot) {
            return false;
        }
    }
    true
}

// Whether a spot is behind another, with a date that is not lower.
fn follows<S: Dated>(order: &S, a: S::Spot, b: S::Spot) -> bool
    requires a_live { S.live order.now a }
    requires b_live { S.live order.now b }
    ensures { IsTrue result ↔ ((S.date order.now a ≤ℤ S.date order.now b) × (S.order order.now a b ≡ Less)) }
{
    order.date(a) <= order.date(b) && order.rank(a, b).is_lt()
}

// Whether the tokens of each list stand in the order of their dates, which the calls of `across`
// ask for.
pub(crate) fn are_by_date<S: Dated, T: Tokens<Spot = S::Spot>>(order: &S, tokens: &T) -> bool
    requires all_live { All (All (IsLive (S.live order.now))) (T.lists tokens.now) }
    ensures { IsTrue result ↔ All (IsByDate (S.date order.now) (S.order order.now)) (T.lists tokens.now) }
{
    for i in 0..tokens.count() {
        if !is_by_date(order, tokens.list(i)) {
            return false;
        }
    }
    true
}

// Whether the tokens are all of the class, or none is.
fn agree<P>(tokens: &[TokenRow<P>], class: &Name, of_class: bool) -> bool
    ensures { IsTrue result ↔ All (λ k. same_name k.class class.now ≡ of_class) tokens.now }
{
    for k in tokens {
        if (k.class == *class) != of_class {
            return false;
        }
    }
    true
}

// Whether the tokens of the list `own` are of one class, of which no other list has a token, which
// the calls of `across` ask for.
pub(crate) fn is_class_list<T: Tokens>(tokens: &T, own: usize) -> bool
    requires own { own < length (T.lists tokens.now) }
    ensures { IsTrue result ↔ IsClassList (T.lists tokens.now) own }
{
    let list = tokens.list(own);
    if list.is_empty() {
        return true;
    }
    let class = &list[0].class;
    for i in 0..tokens.count() {
        if !agree(tokens.list(i), class, i == own) {
            return false;
        }
    }
    true
}

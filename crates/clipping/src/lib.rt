//! Which token supports a fact, what clips a token, and why a token is no supporter, over any
//! distances and order of spots that have earliest dates. Facts persist by default until they are
//! clipped (Dean and McDermott 1987); the exact rules are this project's own.
//!
//! `by_date` answers among the tokens of one class, and `across` among those of several. Each call
//! answers exactly as the definitions of support and clip say: the first token by the order of
//! spots (`last_clipper`: the last as they stand), and none exactly where no token is such. No call
//! takes memory.
#![tactic(auto)]

ghost use Rattle.std.specs.Prelude.{◌≡◌, IsTrue, false};
ghost use Rattle.std.specs.List.{All};
ghost use Rattle.std.specs.Option.{ForSome};
ghost use Rattle.tmm_model.specs.Tokens.{of_one_class, cuts, clips, lasts_to};
ghost use Rattle.clipping.specs.Cutters.{BeginsBy, clips_until};
ghost use Rattle.clipping.specs.Live.{IsLive};

pub mod across;
pub mod by_date;
mod dated;
mod stretches;
mod tokens;

pub use dated::Dated;
pub use stretches::{Stretched, last_clipper, stretch_behind};
use tmm_model::{Sure, TokenRow};
pub use tokens::Tokens;

/// Whether `c` contradicts `k`, and surely begins after it and at or before `q`.
pub fn cuts_before<S: Sure>(
    order: &S,
    k: &TokenRow<S::Spot>,
    c: &TokenRow<S::Spot>,
    q: S::Spot,
) -> bool
    requires k_live { S.live order.now k.now.spot }
    requires c_live { S.live order.now c.now.spot }
    requires q_live { S.live order.now q }
    ensures { result ≡ cuts of_one_class (S.distance order.now) k.now q c.now }
{
    // most tokens at the back begin after `q`, and the class refuses least
    k.fact != c.fact
        && order.at_most(q, c.spot, 0)
        && order.at_most(c.spot, k.spot, -1)
        && k.class == c.class
}

// Whether `c` contradicts `k`, and surely begins after it.
fn clips_after<S: Sure>(order: &S, k: &TokenRow<S::Spot>, c: &TokenRow<S::Spot>) -> bool
    requires k_live { S.live order.now k.now.spot }
    requires c_live { S.live order.now c.now.spot }
    ensures { result ≡ clips of_one_class (S.distance order.now) k.now c.now }
{
    // the class refuses least: callers mostly hand tokens of one
    k.fact != c.fact && order.at_most(c.spot, k.spot, -1) && k.class == c.class
}

/// Whether `k` is a persistence that is cut by the token at this place, which surely begins at or
/// before `q`.
pub fn is_cut_by<S: Sure>(
    order: &S,
    tokens: &[TokenRow<S::Spot>],
    k: &TokenRow<S::Spot>,
    q: S::Spot,
    cutter: Option<usize>,
) -> bool
    requires all_live { All (IsLive (S.live order.now)) tokens.now }
    requires k_live { S.live order.now k.now.spot }
    requires begins { BeginsBy (S.distance order.now) tokens.now q cutter }
    ensures { IsTrue result → lasts_to of_one_class (S.distance order.now) tokens.now k.now q k.now.end ≡ false }
{
    match cutter {
        Some(c) => k.end.is_none() && clips_after(order, k, &tokens[c]),
        None => false,
    }
}

/// Whether `c` clips `k`, and begins surely at or before a point where one is given.
pub fn clips_until<S: Sure>(
    order: &S,
    k: &TokenRow<S::Spot>,
    c: &TokenRow<S::Spot>,
    until: Option<S::Spot>,
) -> bool
    requires k_live { S.live order.now k.now.spot }
    requires c_live { S.live order.now c.now.spot }
    requires until_live { ForSome until (λ q. S.live order.now q) }
    ensures { result ≡ clips_until of_one_class (S.distance order.now) k.now until c.now }
{
    match until {
        None => clips_after(order, k, c),
        Some(q) => cuts_before(order, k, c, q),
    }
}

//! Stretches of tokens of one fact in a list, which a search for what clips a token passes over at
//! once where the fact is the token's own.
ghost use Rattle.std.specs.Prelude.{length};
ghost use Rattle.std.specs.List.{All};
ghost use Rattle.tmm_model.specs.Tokens.{of_one_class, clips};
ghost use Rattle.clipping.specs.Lasts.{IsLastPlace};
ghost use Rattle.clipping.specs.Live.{IsLive};
ghost use Rattle.clipping.specs.Stretches.{rows_of, IsStretch, HaveStretches};

use crate::clips_after;
use tmm_model::{Name, Sure, TokenRow};

/// A token in a list, and where in the list the stretch of tokens of its fact begins that goes up
/// to it.
#[derive(Clone, Copy)]
pub struct Stretched<P> {
    /// The token.
    pub row: TokenRow<P>,
    /// The place of the first of its stretch.
    pub first: usize,
}

/// Where the stretch begins of a token of this fact that comes behind these.
pub fn stretch_behind<P>(tokens: &[Stretched<P>], fact: &Name) -> usize
    requires stretches { HaveStretches tokens.now }
    ensures { IsStretch (rows_of tokens.now) fact.now result (length tokens.now) }
{
    match tokens.last() {
        Some(last) if last.row.fact == *fact => last.first,
        _ => tokens.len(),
    }
}

/// The place of the last of the tokens that clips `k`, none exactly where no token does. A stretch
/// of its own fact is passed over at once, other tokens one by one.
pub fn last_clipper<S: Sure>(
    order: &S,
    tokens: &[Stretched<S::Spot>],
    k: &TokenRow<S::Spot>,
) -> Option<usize>
    requires all_live { All (IsLive (S.live order.now)) (rows_of tokens.now) }
    requires stretches { HaveStretches tokens.now }
    requires k_live { S.live order.now k.now.spot }
    ensures { IsLastPlace (clips of_one_class (S.distance order.now) k.now) (rows_of tokens.now) result }
{
    let mut left = tokens.len();
    while left > 0 {
        let token = &tokens[left - 1];
        if token.row.fact == k.fact {
            left = token.first;
        } else if clips_after(order, k, &token.row) {
            return Some(left - 1);
        } else {
            left -= 1;
        }
    }
    None
}

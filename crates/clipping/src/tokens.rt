// Tokens in several lists.
ghost use Rattle.std.specs.Prelude.{◌≡◌, ◌<◌, List, length};
ghost use Rattle.tmm_model.specs.declared.token.TokenRow.{TokenRow as Row};
ghost use Rattle.clipping.specs.Across.{list_at};

use tmm_model::TokenRow;

/// Tokens in several lists. Calls over them ask that a list holds the tokens of one class.
pub trait Tokens {
    /// A point in time.
    type Spot: Copy;

    /// The lists of tokens.
    ghost lists: { Self → List (List (Row Self.Spot)) };

    /// How many lists there are.
    fn count(&self) -> usize
        ensures { result ≡ length (lists self.now) };

    /// The tokens of one list.
    fn list(&self, i: usize) -> &[TokenRow<Self::Spot>]
        requires within { i < length (lists self.now) }
        ensures { result.now ≡ list_at (lists self.now) i };
}

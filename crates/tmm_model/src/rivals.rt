// Which facts contradict each other besides those of one class.
ghost use Rattle.std.specs.Prelude.{◌≡◌, ℕ, Bool, false, List};

use crate::name::Name;

/// Which facts contradict each other besides those that one class declares.
pub trait Rivals {
    /// Whether two facts contradict each other.
    ghost against: { Self → List ℕ → List ℕ → Bool };

    /// Whether two facts contradict each other.
    fn are_against(&self, one: &Name, other: &Name) -> bool
        ensures { result ≡ against self.now one.now other.now };

    /// A fact does not contradict itself.
    ghost irreflexive: { (s : Self) (f : List ℕ) → against s f f ≡ false };

    /// Where a fact contradicts another, the other contradicts it.
    ghost symmetric: { (s : Self) (f g : List ℕ) → against s f g ≡ against s g f };
}

// What answers the lines of a script.
ghost use Rattle.std.specs.Prelude.{◌≡◌, ◌+◌, ◌-◌, ◌^◌, ◌<◌, ℕ, List, length};
ghost use Rattle.tmm_model.specs.declared.turn.Turn.{Turn};

use std::alloc::Global;
use tmm_model::Turn;

/// What answers the lines of a script, one after the other.
pub trait Lines {
    /// Of what the lines so far have left, as contracts see it.
    ghost State: { Type 0 };

    /// What the lines so far have left.
    ghost state: { Self → State };

    /// How many lines were given.
    ghost number: { Self → ℕ };

    /// Whether the next line may be given.
    ghost ready: { Self → Type 0 };

    /// From the first state, the line of this number may have this turn, and leave the second
    /// state.
    ghost step: { State → ℕ → List ℕ → Turn → State → Type 0 };

    /// Answers the next line, given without its end.
    fn line(&mut self, alloc: Global, bytes: &[u8]) -> Turn
        requires ready { ready self.old }
        requires few { number self.old < 2 ^ 64 - 1 }
        ensures answers { step (state self.old) (number self.old + 1) bytes.now result (state self.new) }
        ensures number { number self.new ≡ number self.old + 1 }
        ensures ready { ready self.new };

    /// Any two lines of more than 400 bytes are answered alike, so 401 bytes of a line are enough.
    ghost long_lines: { (old new : State) (k : ℕ) (a b : List ℕ) (turn : Turn) →
        400 < length a → 400 < length b → step old k a turn new → step old k b turn new };
}

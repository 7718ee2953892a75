// What answers the lines of a mode.
ghost use Rattle.std.specs.Prelude.{◌≡◌, ◌≤◌, ◌<◌, ℕ, List, length, Some};
ghost use Rattle.tmm_model.specs.declared.mode.Mode.{Mode};
ghost use Rattle.tmm_model.specs.declared.turn.Turn.{Turn};
ghost use Rattle.tmm_model.specs.Modes.{own_form};
ghost use Rattle.mode_session.specs.ModeSteps.{Own, OwnStep};

use std::alloc::Global;
use tmm_model::{Mode, ModeLine, Turn};

/// What answers the lines of a mode, those of its own and all others.
pub trait Moded {
    /// Of what the lines so far have left, as contracts see it.
    ghost State: { Type 0 };

    /// What the lines so far have left.
    ghost state: { Self → State };

    /// Whether the next line may be given.
    ghost ready: { Self → Type 0 };

    /// The mode.
    ghost MODE: { Mode };

    /// What a line of the mode's own may be answered, and what it leaves.
    ghost own: { Own State };

    /// What any other line may be answered, and what it leaves.
    ghost other: { State → ℕ → List ℕ → Turn → State → Type 0 };

    /// The mode.
    const MODE: Mode;

    /// Answers the line of this number, which has at most 400 bytes and says this as one of the
    /// mode's own. Without memory it answers that, and nothing changes.
    fn own(&mut self, alloc: Global, line: u64, bytes: &[u8], form: &ModeLine) -> Turn
        requires ready { ready self.old }
        requires short { length bytes.now ≤ 400 }
        requires says { own_form MODE bytes.now ≡ Some form.now }
        ensures answers { OwnStep own (state self.old) line bytes.now form.now result (state self.new) }
        ensures ready { ready self.new };

    /// Answers the line of this number, which is none of the mode's own or too long for one.
    fn other(&mut self, alloc: Global, line: u64, bytes: &[u8]) -> Turn
        requires ready { ready self.old }
        ensures answers { other (state self.old) line bytes.now result (state self.new) }
        ensures ready { ready self.new };

    /// Any two lines of more than 400 bytes are answered alike.
    ghost long_lines: { (old new : State) (k : ℕ) (a b : List ℕ) (turn : Turn) →
        400 < length a → 400 < length b → other old k a turn new → other old k b turn new };
}

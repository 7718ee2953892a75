// What hears the lines of reasons.
ghost use Rattle.std.specs.Prelude.{◌≡◌, ◌++◌, ◌∷◌, [], List, OnOk};
ghost use Rattle.tmm_model.specs.declared.changes.WhyLine.{WhyLine};

use tmm_model::{NoMemory, Seq, WhyLine};

/// What hears the lines of reasons, one after the other, so that no more than one of them has to be
/// kept. A line may come to any number of parts: to its bytes, say, or to itself.
pub trait Listener {
    /// A part of what was heard.
    ghost Part: { Type 0 };

    /// The parts that a line comes to.
    ghost parts_of: { WhyLine → List Part };

    /// All that was heard.
    ghost heard: { Self → List Part };

    /// Hears one line more. Without memory it answers that.
    fn hear(&mut self, line: WhyLine) -> Result<(), NoMemory>
        ensures { OnOk result (heard self.new ≡ heard self.old ++ parts_of line) };
}

/// A list keeps each line.
impl Listener for Seq<WhyLine> {
    ghost Part = { WhyLine };

    ghost parts_of = { λ line. line ∷ [] };

    ghost heard = { λ s. s.items };

    fn hear(&mut self, line: WhyLine) -> Result<(), NoMemory> {
        match self.push(line) {
            Ok(()) => Ok(()),
            Err(_) => Err(NoMemory),
        }
    }
}

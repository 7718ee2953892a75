// The edit that an agent's line says.
ghost use Rattle.std.specs.Prelude.{MatchOption};
ghost use Rattle.tmm_model.specs.declared.line.Line.TheVariants.{Change};
ghost use Rattle.tmm_model.specs.declared.premise.Edit.{Edit as AnEdit};
ghost use Rattle.tmm_model.specs.declared.version.Version.TheVariants.{Two as SecondVersion};
ghost use Rattle.tmm_model.specs.Lines.{Reads, words};

use tmm_model::{Edit, Version};
use tmm_script::{edit, first_word};

/// The edit of version 2 that these bytes say. It takes no memory.
pub(crate) fn held_edit(behind: &[u8]) -> Option<Edit>
    ensures { MatchOption result ((e : AnEdit) → Reads SecondVersion (words behind.now) (Change e) → ⊥) (λ e. Reads SecondVersion (words behind.now) (Change e)) }
{
    let (word, rest) = first_word(behind)?;
    edit(Version::Two, word, rest)
}

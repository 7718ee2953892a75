//! Names of premises and of facts.
ghost use Rattle.std.specs.Prelude.{IsTrue};
ghost use Rattle.tmm_model.specs.Names.{is_name};

use tmm_model::Name;

/// The name of this word.
pub fn name(word: &str) -> Name
    ensures { IsTrue (is_name result) }
{
    match Name::of(word.as_bytes()) {
        Some(name) => name,
        None => Name::default(),
    }
}

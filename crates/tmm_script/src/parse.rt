// A line of a script.
ghost use Rattle.std.specs.Prelude.{◌≡◌, ◌≢◌, ◌<◌, ◌≤◌, ◌∷◌, false, length, option_map, ◌↔◌, IsTrue, MatchOption, None, Ok, Err};
ghost use Rattle.tmm_model.specs.declared.line.Line.TheVariants.{Silent, Change, Question};
ghost use Rattle.tmm_model.specs.declared.premise.Edit.{Edit as Edits};
ghost use Rattle.tmm_model.specs.declared.refusal.Refusal.TheVariants.{LimitLine};
ghost use Rattle.tmm_model.specs.declared.refusal.Stop.TheVariants.{Refused, NoMemory};
ghost use Rattle.tmm_model.specs.Lines.{words, is_comment, IsSilent, Reads, ReadsLine};
ghost use Rattle.tmm_grammar.specs.Reading.{edit_of, query_of, line_of};
ghost use Rattle.tmm_script.specs.Derived.{asked_of, asks_derived, some_derived};
ghost use Rattle.tmm_script.specs.Given.{IsRead, IsReadingOf};

use crate::edits::{begins_edit, edit};
use crate::fields::Misread;
use crate::queries::query;
use std::alloc::Global;
use tmm_model::{LONGEST_LINE, Line, Refusal, Stop, Version};
use tmm_words::split_word;

/// What in a version a line of a script, without its line break, says. A line of more than
/// `LONGEST_LINE` bytes is refused as `LimitLine`, and one that is in no form of the version's
/// grammar as `Form`. A silent line and a change take no memory. Any other line takes some only
/// where it asks of a point or an occurrence whose word begins with a name, a `/` and a further
/// name.
pub fn parse_line(alloc: Global, version: Version, line: &[u8]) -> Result<Line, Stop>
    ensures too_long { (result ≡ Err (Refused LimitLine)) ↔ (400 < length line.now) }
    ensures read { length line.now ≤ 400 → IsReadingOf version line.now result }
    ensures silent { length line.now ≤ 400 → IsSilent (words line.now) → result ≡ Ok Silent }
    ensures no_memory { result ≡ Err NoMemory → (length line.now ≤ 400) × ((e : Edits) → ReadsLine version line.now (Change e) → ⊥) }
    ensures memory { result ≡ Err NoMemory → IsTrue (asks_derived (words line.now)) }
{
    if line.len() > LONGEST_LINE {
        return Err(Stop::Refused(Refusal::LimitLine));
    }
    let Some((word, rest)) = first_word(line) else {
        return Ok(Line::Silent);
    };
    said(alloc, version, word, rest)
}

// What a line with this first word says, which begins no comment.
fn said(alloc: Global, version: Version, word: &[u8], rest: &[u8]) -> Result<Line, Stop>
    requires { is_comment word.now ≡ false }
    ensures read { IsRead result (line_of version (word.now ∷ words rest.now)) }
    ensures changes_none { result ≡ Err NoMemory → edit_of version word.now (words rest.now) ≡ None }
    ensures memory { result ≡ Err NoMemory → IsTrue (some_derived (asked_of word.now (words rest.now))) }
{
    if begins_edit(word) {
        changed(version, word, rest)
    } else {
        asked(alloc, word, rest)
    }
}

// The change that a line with this first word makes, which begins one.
fn changed(version: Version, word: &[u8], rest: &[u8]) -> Result<Line, Stop>
    requires speaks { is_comment word.now ≡ false }
    requires begins { query_of word.now (words rest.now) ≡ None }
    ensures read { IsRead result (line_of version (word.now ∷ words rest.now)) }
    ensures memory { result ≢ Err NoMemory }
{
    match edit(version, word, rest) {
        Some(edit) => Ok(Line::Change(edit)),
        None => Err(Stop::Refused(Refusal::Form)),
    }
}

// The question that a line with this first word asks.
fn asked(alloc: Global, word: &[u8], rest: &[u8]) -> Result<Line, Stop>
    ensures read { IsRead result (option_map Question (query_of word.now (words rest.now))) }
    ensures memory { result ≡ Err NoMemory → IsTrue (some_derived (asked_of word.now (words rest.now))) }
{
    match query(alloc, word, rest) {
        Ok(query) => Ok(Line::Question(query)),
        Err(Misread::Form) => Err(Stop::Refused(Refusal::Form)),
        Err(Misread::Memory) => Err(Stop::NoMemory),
    }
}

/// The first word of a line and what follows it, none exactly where the line says nothing: it has no
/// words, or is a comment.
pub fn first_word(line: &[u8]) -> Option<(&[u8], &[u8])>
    ensures { MatchOption result (IsSilent (words line.now)) (λ x. (words line.now ≡ x.0.now ∷ words x.1.now) × (is_comment x.0.now ≡ false)) }
{
    let (word, rest) = split_word(line)?;
    if comment(word) {
        None
    } else {
        Some((word, rest))
    }
}

fn comment(word: &[u8]) -> bool
    ensures { result ≡ is_comment word.now }
{
    match word {
        [b'#', ..] => true,
        _ => false,
    }
}

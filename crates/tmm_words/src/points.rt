// Points and occurrences.
ghost use Rattle.std.specs.Prelude.{◌≡◌, ◌==◌, ◌∷◌, ◌<◌, ◌≤◌, length, position, IfSome, IfOk, OnErr, IsTrue};
ghost use Rattle.tmm_model.specs.Points.{point_word, occ_word};
ghost use Rattle.tmm_model.specs.Lines.{IsWellFormedPoint, IsWellFormedOcc};
ghost use Rattle.tmm_grammar.specs.Reading.{parts, parts_behind};
ghost use Rattle.tmm_words.specs.Spelling.{IsSpelling, HasRules, begins_derived};

use std::alloc::Global;
use tmm_model::{Name, NoMemory, Occ, PointName, Seq};

/// The declared point that a word names: `start`, a name, or a name and `.end`.
pub fn point_name(word: &[u8]) -> Option<PointName>
    ensures { IsSpelling point_word IsWellFormedPoint word.now result }
{
    if word == b"start".as_slice() {
        return Some(PointName::Start);
    }
    match word.strip_suffix(b".end".as_slice()) {
        Some(span) => Some(PointName::End(Name::of(span)?)),
        None => Some(PointName::Begin(Name::of(word)?)),
    }
}

/// The occurrence that a word names: a name, and any number of further names, each behind a `/`,
/// which alone take memory.
pub fn occ(alloc: Global, word: &[u8]) -> Result<Option<Occ>, NoMemory>
    ensures read { IfOk result (IsSpelling occ_word IsWellFormedOcc word.now) }
    ensures memory { OnErr result (HasRules word.now) }
    ensures derived { OnErr result (IsTrue (begins_derived word.now)) }
{
    let (first, mut rest) = split_part(word);
    let Some(root) = Name::of(first) else {
        return Ok(None);
    };
    let mut rules = Seq::make(alloc);
    while let [_, behind @ ..] = rest {
        let (part, after) = split_part(behind);
        let Some(rule) = Name::of(part) else {
            return Ok(None);
        };
        if rules.push(rule).is_err() {
            return Err(NoMemory);
        }
        rest = after;
    }
    Ok(Some(Occ { root, rules }))
}

// The bytes before the first `/`, and the rest from it on.
fn split_part(bytes: &[u8]) -> (&[u8], &[u8])
    ensures parts { parts bytes.now ≡ result.0.now ∷ parts_behind result.1.now }
    ensures shorter { length result.1.now ≤ length bytes.now }
{
    let len = first_slash(bytes).unwrap_or(bytes.len());
    bytes.split_at(len)
}

fn first_slash(bytes: &[u8]) -> Option<usize>
    ensures place { result ≡ position (λ b. b == 47) bytes.now }
    ensures within { IfSome result (λ i. i < length bytes.now) }
{
    bytes.iter().position(|b| *b == b'/')
}

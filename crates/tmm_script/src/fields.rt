// The words at the front of a line, read one after the other. Each function takes the first word
// off and gives its value.
ghost use Rattle.std.specs.Prelude.{◌≡◌, ◌∷◌, [], ℕ, List, length, take, option_map, IsSome, IsTrue, ◌↔◌};
ghost use Rattle.tmm_model.specs.Lines.{words};
ghost use Rattle.tmm_grammar.specs.Bare.{bare_occ, bare_point};
ghost use Rattle.tmm_grammar.specs.Reading.{front, name_of, names_of, number_of, bound_of, point_of, horizon_of, horizon_from, occ_of, query_point_of, ends_given};
ghost use Rattle.tmm_script.specs.Conditions.{Cut, names_cut};
ghost use Rattle.tmm_words.specs.Spelling.{begins_derived};
ghost use Rattle.tmm_script.specs.Derived.{some_derived};
ghost use Rattle.tmm_script.specs.Given.{Gives, OnMemory};
ghost use Rattle.tmm_script.specs.declared.fields.Misread.TheVariants.{Memory};

use arrayvec::ArrayVec;
use std::alloc::Global;
use tmm_model::{Bound, LAST_HORIZON, Name, NoMemory, Occ, PointName, QueryPoint, Version};
use tmm_words::{bound, number, occ, point_name, split_word};

/// Why words are not read.
#[derive(Clone, Copy)]
pub enum Misread {
    /// They are in no form of the grammar.
    Form,
    /// There was no memory for what they name.
    Memory,
}

impl From<NoMemory> for Misread {
    ghost from_gives = { λ _ e. e ≡ Memory };

    fn from(_: NoMemory) -> Misread {
        Misread::Memory
    }
}

/// Takes the next word, where it is a name.
pub fn take_name(rest: &mut &[u8]) -> Option<Name>
    ensures { option_map (λ x. (x, words rest.new.now)) result ≡ front name_of (words rest.old.now) }
{
    let (word, behind) = split_word(*rest)?;
    *rest = behind;
    Name::of(word)
}

/// Takes the next word, where it is a number.
pub fn take_number(rest: &mut &[u8]) -> Option<i64>
    ensures { option_map (λ x. (x, words rest.new.now)) result ≡ front number_of (words rest.old.now) }
{
    let (word, behind) = split_word(*rest)?;
    *rest = behind;
    number(word)
}

/// Takes the next word, where it is a bound.
pub fn take_bound(rest: &mut &[u8]) -> Option<Bound>
    ensures { option_map (λ x. (x, words rest.new.now)) result ≡ front bound_of (words rest.old.now) }
{
    let (word, behind) = split_word(*rest)?;
    *rest = behind;
    bound(word)
}

/// Takes the next word, where it names a declared point.
pub fn take_point(rest: &mut &[u8]) -> Option<PointName>
    ensures { option_map (λ x. (x, words rest.new.now)) result ≡ front point_of (words rest.old.now) }
{
    let (word, behind) = split_word(*rest)?;
    *rest = behind;
    point_name(word)
}

/// Takes the next word, where it is a number from 0 to 100,000.
pub fn take_horizon(rest: &mut &[u8]) -> Option<u32>
    ensures { option_map (λ x. (x, words rest.new.now)) result ≡ front horizon_of (words rest.old.now) }
{
    let (word, behind) = split_word(*rest)?;
    *rest = behind;
    horizon(word)
}

fn horizon(word: &[u8]) -> Option<u32>
    ensures { result ≡ horizon_of word.now }
{
    within_horizons(number(word)?)
}

fn within_horizons(n: i64) -> Option<u32>
    ensures { result ≡ horizon_from n }
{
    if 0 <= n && n <= i64::from(LAST_HORIZON) {
        Some(n as u32)
    } else {
        None
    }
}

/// Whether no word is left.
pub fn at_end(line: &[u8]) -> Option<()>
    ensures { IsSome result ↔ (words line.now ≡ []) }
{
    match split_word(line) {
        Some(_) => None,
        None => Some(()),
    }
}

/// All words that are left, where they are names and at most `N`.
pub fn all_names<const N: usize>(line: &[u8]) -> Option<ArrayVec<Name, N>>
    ensures { option_map (λ names. names.items) result ≡ names_of N (words line.now) }
{
    let mut names = ArrayVec::new();
    let mut rest = line;
    while let Some((word, behind)) = split_word(rest) {
        if names.is_full() {
            return None;
        }
        names.push(Name::of(word)?);
        rest = behind;
    }
    Some(names)
}

/// Whether antecedents end at the word.
pub fn ends_given(version: Version, word: &[u8]) -> bool
    ensures { result ≡ ends_given version word.now }
{
    match version {
        Version::One => false,
        Version::Two => word == b"unless".as_slice(),
    }
}

/// The words before the one at which antecedents end, where they are names and at most `N`, and the
/// line from there on.
#[tactic(auto, unfolding(tmm_grammar::specs::Reading::given_part, tmm_grammar::specs::Reading::exception_part))]
pub fn names_before<const N: usize>(
    version: Version,
    line: &[u8],
) -> Option<(ArrayVec<Name, N>, &[u8])>
    ensures { option_map {U = Cut} (λ x. (x.0.items, words x.1.now)) result ≡ names_cut N version (words line.now) }
{
    let mut names = ArrayVec::new();
    let mut rest = line;
    while let Some((word, behind)) = split_word(rest) {
        if ends_given(version, word) {
            return Some((names, rest));
        }
        let full = names.is_full();
        if full {
            return None;
        }
        names.push(Name::of(word)?);
        rest = behind;
    }
    Some((names, rest))
}

/// Takes the next word, where it names a point of a question.
pub fn take_query_point(alloc: Global, rest: &mut &[u8]) -> Result<QueryPoint, Misread>
    ensures read { Gives (λ x. (bare_point x, words rest.new.now)) result (front query_point_of (words rest.old.now)) }
    ensures memory { OnMemory result (IsTrue (some_derived (take 1 (words rest.old.now)))) }
{
    let Some((word, behind)) = split_word(*rest) else {
        return Err(Misread::Form);
    };
    *rest = behind;
    query_point(alloc, word)
}

/// Takes the next word, where it names an occurrence.
pub fn take_occ(alloc: Global, rest: &mut &[u8]) -> Result<Occ, Misread>
    ensures read { Gives (λ x. (bare_occ x, words rest.new.now)) result (front occ_of (words rest.old.now)) }
    ensures memory { OnMemory result (IsTrue (some_derived (take 1 (words rest.old.now)))) }
{
    let Some((word, behind)) = split_word(*rest) else {
        return Err(Misread::Form);
    };
    *rest = behind;
    occurrence(alloc, word)
}

// A word with a `/` names an occurrence, and any other word a declared point.
#[tactic(auto, unfolding(tmm_grammar::specs::Reading::query_point_of))]
fn query_point(alloc: Global, word: &[u8]) -> Result<QueryPoint, Misread>
    ensures read { Gives bare_point result (query_point_of word.now) }
    ensures memory { OnMemory result (IsTrue (begins_derived word.now)) }
{
    if word.contains(&b'/') {
        Ok(QueryPoint::Derived(occurrence(alloc, word)?))
    } else {
        match point_name(word) {
            Some(point) => Ok(QueryPoint::Declared(point)),
            None => Err(Misread::Form),
        }
    }
}

fn occurrence(alloc: Global, word: &[u8]) -> Result<Occ, Misread>
    ensures read { Gives bare_occ result (occ_of word.now) }
    ensures memory { OnMemory result (IsTrue (begins_derived word.now)) }
{
    match occ(alloc, word)? {
        Some(occ) => Ok(occ),
        None => Err(Misread::Form),
    }
}

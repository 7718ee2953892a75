// Lines that change the standing premises. Each function reads the words behind a line's first one.
ghost use Rattle.std.specs.Prelude.{◌≡◌, ℕ, List, true, false, None, option_map, codes};
ghost use Rattle.tmm_model.specs.declared.version.Version.{Version as AVersion};
ghost use Rattle.tmm_model.specs.Lines.{words};
ghost use Rattle.tmm_grammar.specs.Reading.{class_of, dist_of, rule_of, facts_of, conditions_of, protect_of, name_alone_of, two_names_of, rivals_of, against_of, premise_of, alone, two_of, upgrade_of, edit_of, query_of, is_range as is_range_of};
ghost use Rattle.tmm_script.specs.Conditions.{Cut, given_cut};

use crate::fields::{
    all_names, at_end, ends_given, names_before, take_bound, take_horizon, take_name, take_number,
    take_point,
};
use arrayvec::ArrayVec;
use tmm_model::{Bound, Edit, MOST_ANTECEDENTS, MOST_EXCEPTIONS, Name, Premise, Version};
use tmm_words::split_word;

/// Whether a line with this first word may make a change. It asks no question then.
#[tactic(auto, unfolding(tmm_grammar::specs::Reading::edit_of, tmm_grammar::specs::Reading::premise_of, tmm_grammar::specs::Reading::query_of))]
pub fn begins_edit(word: &[u8]) -> bool
    ensures edit { result ≡ true → (rest : List (List ℕ)) → query_of word.now rest ≡ None }
    ensures other { result ≡ false → (version : AVersion) (rest : List (List ℕ)) → edit_of version word.now rest ≡ None }
{
    match word {
        [b'a', ..] => word == b"against".as_slice(),
        [b'c', ..] => word == b"class".as_slice(),
        [b'd', ..] => word == b"dist".as_slice(),
        [b'e', ..] => word == b"event".as_slice() || word == b"erase".as_slice(),
        [b'h', ..] => word == b"horizon".as_slice(),
        [b'k', ..] => word == b"kind".as_slice(),
        [b'p', ..] => word == b"point".as_slice() || word == b"protect".as_slice(),
        [b'r', ..] => word == b"rule".as_slice(),
        [b's', ..] => word == b"span".as_slice(),
        [b't', ..] => word == b"token".as_slice() || word == b"tmm".as_slice(),
        _ => false,
    }
}

/// The change that in a version a line with this first word makes.
#[tactic(auto, unfolding(tmm_grammar::specs::Reading::edit_of))]
pub fn edit(version: Version, word: &[u8], rest: &[u8]) -> Option<Edit>
    ensures { result ≡ edit_of version word.now (words rest.now) }
{
    if word == b"erase".as_slice() {
        return Some(Edit::Erase(name_alone(rest)?));
    }
    if word == b"horizon".as_slice() {
        let mut rest = rest;
        let horizon = take_horizon(&mut rest)?;
        at_end(rest)?;
        return Some(Edit::Horizon(horizon));
    }
    if word == b"tmm".as_slice() {
        return upgrade(version, rest);
    }
    Some(Edit::Add(premise(version, word, rest)?))
}

// Version 1 opens version 2.
#[tactic(auto, unfolding(tmm_grammar::specs::Reading::upgrade_of))]
fn upgrade(version: Version, line: &[u8]) -> Option<Edit>
    ensures { result ≡ upgrade_of version (words line.now) }
{
    match version {
        Version::One => two_alone(line),
        Version::Two => None,
    }
}

fn two_alone(line: &[u8]) -> Option<Edit>
    ensures { result ≡ alone two_of (words line.now) }
{
    let (word, rest) = split_word(line)?;
    if word != b"2".as_slice() {
        return None;
    }
    at_end(rest)?;
    Some(Edit::Upgrade)
}

#[tactic(auto, unfolding(tmm_grammar::specs::Reading::premise_of))]
fn premise(version: Version, word: &[u8], rest: &[u8]) -> Option<Premise>
    ensures { result ≡ premise_of version word.now (words rest.now) }
{
    if word == b"class".as_slice() {
        return class(rest);
    }
    if word == b"kind".as_slice() {
        let name = name_alone(rest)?;
        return Some(Premise::Kind { name });
    }
    if word == b"point".as_slice() {
        let name = name_alone(rest)?;
        return Some(Premise::Point { name });
    }
    if word == b"event".as_slice() {
        let (name, kind) = two_names(rest)?;
        return Some(Premise::Event { name, kind });
    }
    if word == b"token".as_slice() {
        let (name, fact) = two_names(rest)?;
        return Some(Premise::Token { name, fact });
    }
    if word == b"span".as_slice() {
        let (name, fact) = two_names(rest)?;
        return Some(Premise::Span { name, fact });
    }
    if word == b"dist".as_slice() {
        return dist(rest);
    }
    if word == b"rule".as_slice() {
        return rule(version, rest);
    }
    if word == b"protect".as_slice() {
        return protect(rest);
    }
    if word == b"against".as_slice() {
        return against(version, rest);
    }
    None
}

#[tactic(auto, unfolding(tmm_grammar::specs::Reading::name_alone_of))]
fn name_alone(line: &[u8]) -> Option<Name>
    ensures { result ≡ name_alone_of (words line.now) }
{
    let mut rest = line;
    let name = take_name(&mut rest)?;
    at_end(rest)?;
    Some(name)
}

#[tactic(auto, unfolding(tmm_grammar::specs::Reading::two_names_of))]
fn two_names(line: &[u8]) -> Option<(Name, Name)>
    ensures { result ≡ two_names_of (words line.now) }
{
    let mut rest = line;
    let first = take_name(&mut rest)?;
    let second = take_name(&mut rest)?;
    at_end(rest)?;
    Some((first, second))
}

#[tactic(auto, unfolding(tmm_grammar::specs::Reading::class_of))]
fn class(line: &[u8]) -> Option<Premise>
    ensures { result ≡ class_of (words line.now) }
{
    let mut rest = line;
    let name = take_name(&mut rest)?;
    let facts = all_names(rest)?;
    if facts.is_empty() {
        return None;
    }
    Some(Premise::Class { name, facts })
}

#[tactic(auto, unfolding(tmm_grammar::specs::Reading::dist_of))]
fn dist(line: &[u8]) -> Option<Premise>
    ensures { result ≡ dist_of (words line.now) }
{
    let mut rest = line;
    let name = take_name(&mut rest)?;
    let from = take_point(&mut rest)?;
    let to = take_point(&mut rest)?;
    let lo = take_bound(&mut rest)?;
    let hi = take_bound(&mut rest)?;
    at_end(rest)?;
    if !is_range(lo, hi) {
        return None;
    }
    Some(Premise::Dist {
        name,
        from,
        to,
        lo,
        hi,
    })
}

#[tactic(auto, unfolding(tmm_grammar::specs::Reading::rule_of))]
fn rule(version: Version, line: &[u8]) -> Option<Premise>
    ensures { result ≡ rule_of version (words line.now) }
{
    let mut rest = line;
    let name = take_name(&mut rest)?;
    let trigger = take_name(&mut rest)?;
    let lo = take_number(&mut rest)?;
    let hi = take_bound(&mut rest)?;
    let effect = take_name(&mut rest)?;
    let (given, unless_facts) = conditions(version, rest)?;
    if lo < 1 || !is_range(Bound::Finite(lo), hi) {
        return None;
    }
    Some(Premise::Rule {
        name,
        trigger,
        lo,
        hi,
        effect,
        given,
        unless_facts,
    })
}

// The antecedents of a rule, and its exceptions.
#[tactic(auto, unfolding(tmm_grammar::specs::Reading::conditions_of))]
fn conditions(
    version: Version,
    line: &[u8],
) -> Option<
    (
        ArrayVec<Name, MOST_ANTECEDENTS>,
        ArrayVec<Name, MOST_EXCEPTIONS>,
    ),
>
    ensures { option_map {U = Cut} (λ x. (x.0.items, x.1.items)) result ≡ conditions_of version (words line.now) }
{
    let (given, rest) = given(version, line)?;
    let unless_facts = exceptions(rest)?;
    Some((given, unless_facts))
}

// The antecedents, and the line from where they end on.
#[tactic(auto, unfolding(tmm_grammar::specs::Reading::facts_of, tmm_grammar::specs::Reading::given_part, tmm_grammar::specs::Reading::exception_part))]
fn given(version: Version, line: &[u8]) -> Option<(ArrayVec<Name, MOST_ANTECEDENTS>, &[u8])>
    ensures { option_map {U = Cut} (λ x. (x.0.items, words x.1.now)) result ≡ given_cut version (words line.now) }
{
    let Some((word, behind)) = split_word(line) else {
        return Some((ArrayVec::new(), line));
    };
    if ends_given(version, word) {
        return Some((ArrayVec::new(), line));
    }
    if word != b"if".as_slice() {
        return None;
    }
    let (facts, rest) = names_before(version, behind)?;
    let none = facts.is_empty();
    if none { None } else { Some((facts, rest)) }
}

// Nothing, or `unless` and facts.
#[tactic(auto, unfolding(tmm_grammar::specs::Reading::facts_of))]
fn exceptions(line: &[u8]) -> Option<ArrayVec<Name, MOST_EXCEPTIONS>>
    ensures { option_map (λ facts. facts.items) result ≡ facts_of (codes "unless") 2 (words line.now) }
{
    let Some((word, rest)) = split_word(line) else {
        return Some(ArrayVec::new());
    };
    if word != b"unless".as_slice() {
        return None;
    }
    let facts = all_names(rest)?;
    if facts.is_empty() { None } else { Some(facts) }
}

#[tactic(auto, unfolding(tmm_grammar::specs::Reading::protect_of))]
fn protect(line: &[u8]) -> Option<Premise>
    ensures { result ≡ protect_of (words line.now) }
{
    let mut rest = line;
    let name = take_name(&mut rest)?;
    let fact = take_name(&mut rest)?;
    let from = take_point(&mut rest)?;
    let to = take_point(&mut rest)?;
    at_end(rest)?;
    Some(Premise::Protect {
        name,
        fact,
        from,
        to,
    })
}

// Version 2 says which facts contradict each other.
#[tactic(auto, unfolding(tmm_grammar::specs::Reading::against_of))]
fn against(version: Version, line: &[u8]) -> Option<Premise>
    ensures { result ≡ against_of version (words line.now) }
{
    match version {
        Version::One => None,
        Version::Two => rivals(line),
    }
}

#[tactic(auto, unfolding(tmm_grammar::specs::Reading::rivals_of))]
fn rivals(line: &[u8]) -> Option<Premise>
    ensures { result ≡ rivals_of (words line.now) }
{
    let mut rest = line;
    let name = take_name(&mut rest)?;
    let (one, other) = two_names(rest)?;
    if one == other {
        return None;
    }
    Some(Premise::Against { name, one, other })
}

// Whether the bounds leave a distance.
fn is_range(lo: Bound, hi: Bound) -> bool
    ensures { result ≡ is_range_of lo hi }
{
    match (lo, hi) {
        (Bound::Finite(lo), Bound::Finite(hi)) => lo <= hi,
        (Bound::Free, Bound::Free) => false,
        _ => true,
    }
}

// Lines that ask a question. Each function reads the words behind a line's first one.
ghost use Rattle.std.specs.Prelude.{◌≡◌, drop, take, option_map, IsTrue};
ghost use Rattle.tmm_model.specs.Lines.{words};
ghost use Rattle.tmm_grammar.specs.Bare.{bare_point, bare_query};
ghost use Rattle.tmm_grammar.specs.Reading.{alone as alone_of, ended, occ_of, two_points_of, ask_of, query_of};
ghost use Rattle.tmm_model.specs.declared.line.Query.TheVariants.{Why};
ghost use Rattle.tmm_script.specs.Derived.{asked_of, some_derived};
ghost use Rattle.tmm_script.specs.Given.{Gives, OnMemory};

use crate::fields::{Misread, at_end, take_name, take_occ, take_query_point};
use std::alloc::Global;
use tmm_model::{Query, QueryPoint};

/// The question that a line with this first word asks.
#[tactic(auto, unfolding(tmm_grammar::specs::Reading::query_of))]
pub fn query(alloc: Global, word: &[u8], rest: &[u8]) -> Result<Query, Misread>
    ensures read { Gives bare_query result (query_of word.now (words rest.now)) }
    ensures memory { OnMemory result (IsTrue (some_derived (asked_of word.now (words rest.now)))) }
{
    if word == b"ask".as_slice() {
        return ask(alloc, rest);
    }
    if word == b"bounds".as_slice() {
        let (from, to) = two_points(alloc, rest)?;
        return Ok(Query::Bounds(from, to));
    }
    if word == b"path".as_slice() {
        let (from, to) = two_points(alloc, rest)?;
        return Ok(Query::Path(from, to));
    }
    if word == b"why".as_slice() {
        return why(alloc, rest);
    }
    if word == b"check".as_slice() {
        return alone(rest, Query::Check);
    }
    if word == b"list".as_slice() {
        return alone(rest, Query::List);
    }
    if word == b"dump".as_slice() {
        return alone(rest, Query::Dump);
    }
    if word == b"audit".as_slice() {
        return alone(rest, Query::Audit);
    }
    if word == b"size".as_slice() {
        return alone(rest, Query::Size);
    }
    Err(Misread::Form)
}

// The question, where no word is left.
fn alone(rest: &[u8], query: Query) -> Result<Query, Misread>
    ensures read { Gives (λ q. q) result (ended query (words rest.now)) }
    ensures memory { OnMemory result ⊥ }
{
    match at_end(rest) {
        Some(()) => Ok(query),
        None => Err(Misread::Form),
    }
}

#[tactic(auto, unfolding(tmm_grammar::specs::Reading::two_points_of))]
fn two_points(alloc: Global, line: &[u8]) -> Result<(QueryPoint, QueryPoint), Misread>
    ensures read { Gives (λ p. (bare_point p.0, bare_point p.1)) result (two_points_of (words line.now)) }
    ensures memory { OnMemory result (IsTrue (some_derived (take 2 (words line.now)))) }
{
    let mut rest = line;
    let from = take_query_point(alloc, &mut rest)?;
    let to = take_query_point(alloc, &mut rest)?;
    match at_end(rest) {
        Some(()) => Ok((from, to)),
        None => Err(Misread::Form),
    }
}

#[tactic(auto, unfolding(tmm_grammar::specs::Reading::ask_of))]
fn ask(alloc: Global, line: &[u8]) -> Result<Query, Misread>
    ensures read { Gives bare_query result (ask_of (words line.now)) }
    ensures memory { OnMemory result (IsTrue (some_derived (take 2 (drop 1 (words line.now))))) }
{
    let mut rest = line;
    let Some(fact) = take_name(&mut rest) else {
        return Err(Misread::Form);
    };
    let (from, to) = two_points(alloc, rest)?;
    Ok(Query::Ask(fact, from, to))
}

fn why(alloc: Global, line: &[u8]) -> Result<Query, Misread>
    ensures read { Gives bare_query result (option_map Why (alone_of occ_of (words line.now))) }
    ensures memory { OnMemory result (IsTrue (some_derived (take 1 (words line.now)))) }
{
    let mut rest = line;
    let occ = take_occ(alloc, &mut rest)?;
    match at_end(rest) {
        Some(()) => Ok(Query::Why(occ)),
        None => Err(Misread::Form),
    }
}

// What holds on a day.
ghost use Rattle.std.specs.Prelude.{◌≡◌, ◌⊎◌, ◌↔◌, filter, IfOk, OnOk};
ghost use Rattle.std.specs.List.{list_any, list_all};
ghost use Rattle.std.specs.Option.{option_eq};
ghost use Rattle.std.specs.Ordering.{int_eq};
ghost use Rattle.list_theory.proofs.Elements.{In};
ghost use Rattle.timeline.specs.declared.row.Held.{Held};
ghost use Rattle.timeline.specs.Holding.{is_held, is_open, is_contradicted, goes_on, same_held, IsHeldOn};
ghost use Rattle.timeline.specs.Rows.{helds};

use crate::row::{Held, Row, clashes};
use premise_list::Standing;
use std::alloc::Global;
use tmm_model::{Name, NoMemory};

/// Whether what holds allows a rule with these antecedents and exceptions: each of the first is
/// held, and none of the second.
pub(crate) fn is_open(holding: &[Held], given: &[Name], exceptions: &[Name]) -> bool
    ensures { result ≡ is_open holding.now given.now exceptions.now }
{
    are_held(holding, given) && !is_one_held(holding, exceptions)
}

fn are_held(holding: &[Held], facts: &[Name]) -> bool
    ensures { result ≡ list_all (is_held holding.now) facts.now }
{
    facts.iter().all(|fact| is_held(holding, fact))
}

fn is_one_held(holding: &[Held], facts: &[Name]) -> bool
    ensures { result ≡ list_any (is_held holding.now) facts.now }
{
    facts.iter().any(|fact| is_held(holding, fact))
}

fn is_held(holding: &[Held], fact: &Name) -> bool
    ensures { result ≡ is_held holding.now fact.now }
{
    holding.iter().any(|held| held.fact == *fact)
}

fn is_contradicted(standing: &Standing, held: &Held, coming: &[Held]) -> bool
    ensures { result ≡ is_contradicted standing.now.present coming.now held.now }
{
    coming.iter().any(|c| clashes(standing, held, c))
}

// Whether a token that held the day before holds on this day, on which these tokens come.
fn goes_on(standing: &Standing, day: u32, coming: &[Held], held: &Held) -> bool
    ensures { result ≡ goes_on standing.now.present day coming.now held.now }
{
    match held.end {
        Some(end) => i64::from(day) < end,
        None => !is_contradicted(standing, held, coming),
    }
}

/// Whether two tokens are of one fact, one class and one end.
pub(crate) fn is_same(a: &Held, b: &Held) -> bool
    ensures { result ≡ same_held a.now b.now }
{
    a.fact == b.fact && a.class == b.class && is_same_end(a.end, b.end)
}

fn is_same_end(a: Option<i64>, b: Option<i64>) -> bool
    ensures { result ≡ option_eq int_eq a b }
{
    match (a, b) {
        (Some(x), Some(y)) => x == y,
        (None, None) => true,
        _ => false,
    }
}

fn is_there(holding: &[Held], held: &Held) -> bool
    ensures { result ≡ list_any (λ h. same_held h held.now) holding.now }
{
    holding.iter().any(|h| is_same(h, held))
}

// Adds a token, unless it is there.
fn add(holding: &mut Vec<Held>, held: &Held) -> Result<(), NoMemory>
    ensures { OnOk result ((h : Held) → In h holding.new.items ↔ (In h holding.old.items ⊎ (held.now ≡ h))) }
{
    if is_there(holding.as_slice(), held) {
        return Ok(());
    }
    holding.push(*held)?;
    Ok(())
}

// Those that held the day before and hold on this day, on which these tokens come.
fn left(
    alloc: Global,
    standing: &Standing,
    day: u32,
    before: &[Held],
    coming: &[Held],
) -> Result<Vec<Held>, NoMemory>
    ensures { IfOk result (λ left. left.items ≡ filter (goes_on standing.now.present day coming.now) before.now) }
{
    let mut left = Vec::new(alloc);
    for held in before {
        if goes_on(standing, day, coming, held) {
            left.push(*held)?;
        }
    }
    Ok(left)
}

/// What holds on a day on which these tokens come, where these held the day before.
pub(crate) fn held_on(
    alloc: Global,
    standing: &Standing,
    day: u32,
    before: &[Held],
    coming: &[Held],
) -> Result<Vec<Held>, NoMemory>
    ensures { IfOk result (λ holding. IsHeldOn standing.now.present day coming.now before.now holding.items) }
{
    let mut holding = left(alloc, standing, day, before, coming)?;
    for held in coming {
        add(&mut holding, held)?;
    }
    Ok(holding)
}

/// The tokens among the rows.
pub(crate) fn tokens_of(alloc: Global, rows: &[Row]) -> Result<Vec<Held>, NoMemory>
    ensures { IfOk result (λ tokens. tokens.items ≡ helds rows.now) }
{
    let mut tokens = Vec::new(alloc);
    for row in rows {
        if let Some(held) = row.held {
            tokens.push(held)?;
        }
    }
    Ok(tokens)
}

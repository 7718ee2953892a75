// Which premises fall with one that is retracted.
ghost use Rattle.std.specs.Prelude.{◌≡◌, [], ◌∷◌, ◌++◌, ◌≤◌, length, map, take, drop, IfOk, OnOk};
ghost use Rattle.std.specs.List.{list_any};
ghost use Rattle.tmm_model.specs.Standing.{name_of};
ghost use Rattle.tmm_model.specs.Sorts.{declared_by};
ghost use Rattle.tmm_model.specs.Erasure.{names_at, mentioned_by, is_among, falls, kept_after};
ghost use Rattle.list_theory.specs.Fallen.{fallen_after};
ghost use Rattle.premise_list.specs.Gone.{SameNames};
ghost use Rattle.premise_list.specs.Past.{RiseBelow, without};

use crate::premise::{facts_of, name_of};
use arrayvec::ArrayVec;
use indexmap::IndexSet;
use std::alloc::Global;
use tmm_model::{MOST_ANTECEDENTS, MOST_EXCEPTIONS, Name, NoMemory, PointName, Premise, Seq};

// How many names are compared one after the other.
const FEW_NAMES: usize = 4;

/// The premises that fall.
#[derive(Drop)]
pub(crate) struct Fall {
    /// Their names.
    pub names: Seq<Name>,
    /// Their places, the first of them first.
    pub places: Vec<usize>,
}

// The premises from a place on that fall with the one of this name.
pub(crate) fn fall_with(
    alloc: Global,
    erased: Name,
    premises: &[Premise],
    first: usize,
) -> Result<Fall, NoMemory>
    requires { first ≤ length premises.now }
    ensures names { IfOk result (λ fall. fall.names.items ≡ map name_of (fallen_after erased [] (drop first premises.now))) }
    ensures places { IfOk result (λ fall. RiseBelow (length premises.now) fall.places.items) }
    ensures kept { IfOk result (λ fall. without fall.places.items premises.now ≡ take first premises.now ++ kept_after erased [] (drop first premises.now)) }
{
    let mut names = Seq::make(alloc);
    let mut places = Vec::new(alloc);
    let mut gone = IndexSet::new(alloc);
    for place in first..premises.len() {
        let premise = &premises[place];
        if falls(erased, &gone, premise) {
            take(&mut names, name_of(premise))?;
            places.reserve(1)?;
            places.push_reserved(place);
            lose(&mut gone, premise)?;
        }
    }
    Ok(Fall { names, places })
}

fn take(names: &mut Seq<Name>, name: Name) -> Result<(), NoMemory>
    ensures { OnOk result (names.new.items ≡ names.old.items ++ name ∷ []) }
{
    match names.push(name) {
        Ok(()) => Ok(()),
        Err(_) => Err(NoMemory),
    }
}

// Whether the premise falls, where these names are gone.
fn falls(erased: Name, gone: &IndexSet<Name>, premise: &Premise) -> bool
    ensures { result ≡ falls erased gone.now.keys premise.now }
{
    name_of(premise) == erased || mentions(gone, premise)
}

// Whether the premise mentions a name that is gone.
fn mentions(gone: &IndexSet<Name>, premise: &Premise) -> bool
    ensures { result ≡ list_any (is_among gone.now.keys) (mentioned_by premise.now) }
{
    match premise {
        Premise::Class { .. } | Premise::Kind { .. } | Premise::Point { .. } => false,
        Premise::Event { kind, .. } => is_gone(gone, kind),
        Premise::Token { fact, .. } | Premise::Span { fact, .. } => is_gone(gone, fact),
        Premise::Dist { from, to, .. } => mentions_point(gone, *from) || mentions_point(gone, *to),
        Premise::Rule {
            trigger,
            effect,
            given,
            unless_facts,
            ..
        } => {
            is_gone(gone, trigger)
                || is_gone(gone, effect)
                || mentions_conditions(gone, given, unless_facts)
        }
        Premise::Protect { fact, from, to, .. } => {
            is_gone(gone, fact) || mentions_point(gone, *from) || mentions_point(gone, *to)
        }
        Premise::Against { one, other, .. } => is_gone(gone, one) || is_gone(gone, other),
    }
}

fn mentions_point(gone: &IndexSet<Name>, point: PointName) -> bool
    ensures { result ≡ list_any (is_among gone.now.keys) (names_at point) }
{
    match point {
        PointName::Start => false,
        PointName::Begin(name) | PointName::End(name) => is_gone(gone, &name),
    }
}

// Whether an antecedent or an exception of a rule is gone.
#[tactic(auto, using(crate::proofs::Parts::any_of_both))]
fn mentions_conditions(
    gone: &IndexSet<Name>,
    given: &ArrayVec<Name, MOST_ANTECEDENTS>,
    exceptions: &ArrayVec<Name, MOST_EXCEPTIONS>,
) -> bool
    ensures { result ≡ list_any (is_among gone.now.keys) (given.now.items ++ exceptions.now.items) }
{
    mentions_any(gone, given.as_slice()) || mentions_any(gone, exceptions.as_slice())
}

fn mentions_any(gone: &IndexSet<Name>, names: &[Name]) -> bool
    ensures { result ≡ list_any (is_among gone.now.keys) names.now }
{
    names.iter().any(|name| is_gone(gone, name))
}

// Whether the name is gone. Among few names it is found sooner without a hash.
fn is_gone(gone: &IndexSet<Name>, name: &Name) -> bool
    ensures { result ≡ is_among gone.now.keys name.now }
{
    let names = gone.as_slice();
    if names.len() <= FEW_NAMES {
        names.iter().any(|lost| name == lost)
    } else {
        gone.contains(name)
    }
}

// Adds the names that the premise declares to those that are gone.
fn lose(gone: &mut IndexSet<Name>, premise: &Premise) -> Result<(), NoMemory>
    ensures { OnOk result (SameNames gone.new.keys (declared_by premise.now ++ gone.old.keys)) }
{
    lose_name(gone, name_of(premise))?;
    for fact in facts_of(premise) {
        lose_name(gone, *fact)?;
    }
    Ok(())
}

fn lose_name(gone: &mut IndexSet<Name>, name: Name) -> Result<(), NoMemory>
    ensures { OnOk result (SameNames gone.new.keys (name ∷ gone.old.keys)) }
{
    match gone.insert(name) {
        Ok(_) => Ok(()),
        Err(_) => Err(NoMemory),
    }
}

// Which classes an edit touches besides, as premises say that their facts contradict others.
ghost use Rattle.std.specs.Prelude.{◌≡◌, ℕ, List, true, IfOk, OnOk};
ghost use Rattle.std.specs.List.{Contains};
ghost use Rattle.tmm_model.specs.Sorts.{class_in};
ghost use Rattle.list_theory.proofs.Elements.{In};
ghost use Rattle.premise_list.specs.Rivalries.{rivalries};
ghost use Rattle.map_engine.specs.RivalClasses.{HasClassOf, HasClassesOf, IsOfOther, Follows, FollowsBoth, IsThereOr, TakesInRivals};

use premise_list::Standing;
use std::alloc::Global;
use tmm_model::{Name, NoMemory};

// The classes that an edit touched, and beside them those whose facts contradict one of a touched
// class, and those of facts that contradict each other before the edit alone or after it alone.
// Where no premise sets facts against each other they are the same.
pub(crate) fn with_rivals(
    alloc: Global,
    standing: &Standing,
    touched: Vec<Name>,
) -> Result<Vec<Name>, NoMemory>
    ensures { IfOk result (λ found. TakesInRivals standing.now touched.items found.items) }
{
    if standing.rivalries() == 0 && standing.rivalries_before() == 0 {
        return Ok(touched);
    }
    let mut found = Vec::new(alloc);
    push_names(touched.as_slice(), &mut found)?;
    push_changed(alloc, standing, &mut found)?;
    push_near(standing, touched.as_slice(), &mut found)?;
    Ok(found)
}

// Appends the classes of facts that contradict each other in one list alone.
fn push_changed(alloc: Global, standing: &Standing, found: &mut Vec<Name>) -> Result<(), NoMemory>
    ensures kept { OnOk result ((class : List ℕ) → Contains found.old.items class → Contains found.new.items class) }
    ensures gone { OnOk result ((pair : List ℕ × List ℕ) → In pair (rivalries standing.now.committed.premises) → IsThereOr standing.now.present found.new.items (rivalries standing.now.present.premises) pair) }
    ensures come { OnOk result ((pair : List ℕ × List ℕ) → In pair (rivalries standing.now.present.premises) → IsThereOr standing.now.present found.new.items (rivalries standing.now.committed.premises) pair) }
{
    let changed = standing.changed_rivalries(alloc)?;
    for i in 0..changed.len() {
        push_both(standing, &changed[i], found)?;
    }
    Ok(())
}

// Appends the classes of facts that contradict one of a touched class.
fn push_near(standing: &Standing, touched: &[Name], found: &mut Vec<Name>) -> Result<(), NoMemory>
    ensures kept { OnOk result ((class : List ℕ) → Contains found.old.items class → Contains found.new.items class) }
    ensures near { OnOk result ((pair : List ℕ × List ℕ) → In pair (rivalries standing.now.present.premises) → FollowsBoth standing.now.present touched.now found.new.items pair) }
{
    for i in 0..standing.rivalries() {
        let pair = standing.rivalry(i);
        follow(standing, touched, pair.0, pair.1, found)?;
        follow(standing, touched, pair.1, pair.0, found)?;
    }
    Ok(())
}

// Appends the class of a fact, where that of the other one is touched.
fn follow(
    standing: &Standing,
    touched: &[Name],
    fact: Name,
    other: Name,
    found: &mut Vec<Name>,
) -> Result<(), NoMemory>
    ensures kept { OnOk result ((class : List ℕ) → Contains found.old.items class → Contains found.new.items class) }
    ensures follows { OnOk result (Follows standing.now.present touched.now found.new.items fact other) }
{
    if is_of_other(standing, touched, other) {
        return Ok(());
    }
    push_class_of(standing, fact, found)
}

// Whether a class declares the fact that is none of these.
fn is_of_other(standing: &Standing, classes: &[Name], fact: Name) -> bool
    ensures { result ≡ true → IsOfOther standing.now.present fact classes.now }
{
    match standing.class_of(fact) {
        Some(class) => !classes.contains(&class),
        None => false,
    }
}

// Appends the classes of both facts.
fn push_both(
    standing: &Standing,
    pair: &(Name, Name),
    found: &mut Vec<Name>,
) -> Result<(), NoMemory>
    ensures kept { OnOk result ((class : List ℕ) → Contains found.old.items class → Contains found.new.items class) }
    ensures pushed { OnOk result (HasClassesOf standing.now.present pair.now found.new.items) }
{
    push_class_of(standing, pair.0, found)?;
    push_class_of(standing, pair.1, found)
}

// Appends the class of a fact, if one declares it, where it is not there.
fn push_class_of(standing: &Standing, fact: Name, found: &mut Vec<Name>) -> Result<(), NoMemory>
    ensures kept { OnOk result ((class : List ℕ) → Contains found.old.items class → Contains found.new.items class) }
    ensures pushed { OnOk result (HasClassOf standing.now.present fact found.new.items) }
{
    match standing.class_of(fact) {
        Some(class) => push_new(class, found),
        None => Ok(()),
    }
}

// Appends a class, where it is not there.
fn push_new(class: Name, found: &mut Vec<Name>) -> Result<(), NoMemory>
    ensures kept { OnOk result ((other : List ℕ) → Contains found.old.items other → Contains found.new.items other) }
    ensures pushed { OnOk result (Contains found.new.items class) }
{
    if found.contains(&class) {
        return Ok(());
    }
    match found.push(class) {
        Ok(()) => Ok(()),
        Err(_) => Err(NoMemory),
    }
}

// Appends these classes.
fn push_names(names: &[Name], found: &mut Vec<Name>) -> Result<(), NoMemory>
    ensures kept { OnOk result ((class : List ℕ) → Contains found.old.items class → Contains found.new.items class) }
    ensures pushed { OnOk result ((class : List ℕ) → Contains names.now class → Contains found.new.items class) }
{
    match found.extend_from_slice(names) {
        Ok(()) => Ok(()),
        Err(_) => Err(NoMemory),
    }
}

// The pairs of facts that premises set against each other, now and at the last commit.
ghost use Rattle.std.specs.Prelude.{◌≡◌, ◌<◌, ◌≤◌, ◌+◌, true, Some, [], ◌∷◌, ◌++◌, length, take, slice_get, IfOk, OnOk, OnErr, vec_capacity};
ghost use Rattle.tmm_model.specs.Verdicts.{most_premises};
ghost use Rattle.premise_list.specs.Rivalries.{rivalries, AreChanges};

use std::alloc::Global;
use std::marker::Model;
use tmm_model::{Name, NoMemory, Premise};

/// The pairs of facts of two lists of premises, in the order of the premises. A commit and a
/// rollback copy them only where one of them may have changed.
#[derive(Drop)]
pub(crate) struct Rivalries {
    present: Vec<(Name, Name)>,
    committed: Vec<(Name, Name)>,
    // whether the two may differ
    moved: bool,
}

impl Model for Rivalries {
    ghost use Rattle.premise_list.specs.Rivalries.{Pairs};

    ghost Value = { Pairs };

    ghost use Rattle.premise_list.specs.RivalriesInside.{pairs_of, ArePairs};

    ghost view = { pairs_of };

    ghost invariant = { ArePairs };
}

impl Rivalries {
    // No pairs. It takes no memory.
    pub(crate) fn make(alloc: Global) -> Rivalries
        ensures present { result.present ≡ [] }
        ensures committed { result.committed ≡ [] }
    {
        Rivalries {
            present: Vec::new(alloc),
            committed: Vec::new(alloc),
            moved: false,
        }
    }

    // The pairs now, of which none has changed since the last commit.
    pub(crate) fn copy(&self, alloc: Global) -> Result<Rivalries, NoMemory>
        ensures present { IfOk result (λ copy. copy.present ≡ self.now.present) }
        ensures committed { IfOk result (λ copy. copy.committed ≡ self.now.present) }
    {
        let pairs = self.present.as_slice();
        Ok(Rivalries {
            present: Vec::from_slice(alloc, pairs)?,
            committed: Vec::from_slice(alloc, pairs)?,
            moved: false,
        })
    }

    // The pairs now.
    pub(crate) fn present(&self) -> &[(Name, Name)]
        ensures { result.now ≡ self.now.present }
    {
        self.present.as_slice()
    }

    // The pairs at the last commit.
    pub(crate) fn committed(&self) -> &[(Name, Name)]
        ensures { result.now ≡ self.now.committed }
    {
        self.committed.as_slice()
    }

    // Room for more pairs.
    pub(crate) fn reserve(&mut self, more: usize) -> Result<(), NoMemory>
        ensures present { self.new.present ≡ self.old.present }
        ensures committed { self.new.committed ≡ self.old.committed }
        ensures room { OnOk result (length self.old.present + more ≤ self.new.room) }
    {
        self.present.reserve(more)?;
        let long = self.present.len() + more;
        let missing = long.saturating_sub(self.committed.len());
        self.committed.reserve(missing)?;
        Ok(())
    }

    // Adds a pair behind the others. It takes no memory.
    fn push(&mut self, one: Name, other: Name)
        requires { length self.old.present < self.old.room }
        ensures { self.new ≡ record self.old { present = self.old.present ++ (one, other) ∷ [] } }
    {
        self.present.push_reserved((one, other));
        self.moved = true;
    }

    // Takes off all but the first `n` pairs. It takes no memory.
    pub(crate) fn truncate(&mut self, n: usize)
        requires { n ≤ length self.old.present }
        ensures { self.new ≡ record self.old { present = take n self.old.present } }
    {
        if n < self.present.len() {
            self.present.truncate(n);
            self.moved = true;
        }
    }

    // Adds the pair of the premise, where it sets two facts against each other. Without memory no
    // pair has changed.
    pub(crate) fn add(&mut self, premise: &Premise) -> Result<(), NoMemory>
        ensures present { OnOk result (self.new.present ≡ self.old.present ++ rivalries (premise.now ∷ [])) }
        ensures committed { self.new.committed ≡ self.old.committed }
        ensures err { OnErr result (self.new.present ≡ self.old.present) }
    {
        self.reserve(pair_count(premise))?;
        self.put(premise);
        Ok(())
    }

    // Adds the pair of the premise, for which there is room.
    fn put(&mut self, premise: &Premise)
        requires { length self.old.present + length (rivalries (premise.now ∷ [])) ≤ self.old.room }
        ensures { self.new ≡ record self.old { present = self.old.present ++ rivalries (premise.now ∷ []) } }
    {
        if let Premise::Against { one, other, .. } = premise {
            self.push(*one, *other);
        }
    }

    // Adds the pairs of the premises. It takes no memory.
    pub(crate) fn add_all(&mut self, premises: &[Premise])
        requires { length self.old.present + length (rivalries premises.now) ≤ self.old.room }
        ensures { self.new ≡ record self.old { present = self.old.present ++ rivalries premises.now } }
    {
        for premise in premises {
            self.put(premise);
        }
    }

    // The pairs that stand in one of both lists alone, and perhaps some of both.
    pub(crate) fn changed(&self, alloc: Global) -> Result<Vec<(Name, Name)>, NoMemory>
        ensures { IfOk result (λ pairs. AreChanges self.now.committed self.now.present pairs.items) }
    {
        if self.moved {
            changed_pairs(alloc, self.committed.as_slice(), self.present.as_slice())
        } else {
            Ok(Vec::new(alloc))
        }
    }

    // Makes the present pairs those of the last commit. It takes no memory.
    pub(crate) fn commit(&mut self)
        ensures { self.new ≡ record self.old { committed = self.old.present } }
    {
        if self.moved {
            copy_over(&mut self.committed, self.present.as_slice());
            self.moved = false;
        }
    }

    // Makes the pairs of the last commit the present ones. It takes no memory.
    pub(crate) fn rollback(&mut self)
        ensures { self.new ≡ record self.old { present = self.old.committed } }
    {
        if self.moved {
            copy_over(&mut self.present, self.committed.as_slice());
            self.moved = false;
        }
    }
}

// Makes the list these pairs, for which it has room.
fn copy_over(list: &mut Vec<(Name, Name)>, pairs: &[(Name, Name)])
    requires { length pairs.now ≤ vec_capacity list.old }
    ensures items { list.new.items ≡ pairs.now }
    ensures room { vec_capacity list.new ≡ vec_capacity list.old }
{
    list.clear();
    for pair in pairs {
        list.push_reserved(*pair);
    }
}

// How many pairs of facts the premise sets against each other.
fn pair_count(premise: &Premise) -> usize
    ensures value { result ≡ length (rivalries (premise.now ∷ [])) }
    ensures few { result ≤ 1 }
{
    match premise {
        Premise::Against { .. } => 1,
        _ => 0,
    }
}

// How many of the premises set two facts against each other.
pub(crate) fn rivalry_count(premises: &[Premise]) -> usize
    requires { length premises.now ≤ most_premises }
    ensures { result ≡ length (rivalries premises.now) }
{
    let mut count = 0;
    for premise in premises {
        count += pair_count(premise);
    }
    count
}

// The pairs that stand in one of two lists alone. Where both have the others in one order, as
// before and after an edit, these are all.
fn changed_pairs(
    alloc: Global,
    before: &[(Name, Name)],
    now: &[(Name, Name)],
) -> Result<Vec<(Name, Name)>, NoMemory>
    ensures { IfOk result (λ pairs. AreChanges before.now now.now pairs.items) }
{
    let mut changed = Vec::new(alloc);
    // how many of the pairs now were among those before
    let mut next = 0;
    for i in 0..before.len() {
        if is_pair_at(now, next, &before[i]) {
            next += 1;
        } else {
            add_pair(&mut changed, before[i])?;
        }
    }
    for j in next..now.len() {
        add_pair(&mut changed, now[j])?;
    }
    Ok(changed)
}

// Appends a pair.
fn add_pair(pairs: &mut Vec<(Name, Name)>, pair: (Name, Name)) -> Result<(), NoMemory>
    ensures { OnOk result (pairs.new.items ≡ pairs.old.items ++ pair ∷ []) }
{
    match pairs.push(pair) {
        Ok(()) => Ok(()),
        Err(_) => Err(NoMemory),
    }
}

// Whether the pair stands at this place.
fn is_pair_at(pairs: &[(Name, Name)], i: usize, pair: &(Name, Name)) -> bool
    ensures { result ≡ true → slice_get pairs.now i ≡ Some pair.now }
{
    match pairs.get(i) {
        Some(there) => is_same_pair(there, pair),
        None => false,
    }
}

// Whether both pairs are of the same facts in one order.
fn is_same_pair(one: &(Name, Name), other: &(Name, Name)) -> bool
    ensures { result ≡ true → one.now ≡ other.now }
{
    one.0 == other.0 && one.1 == other.1
}

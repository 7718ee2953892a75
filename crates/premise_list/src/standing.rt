// The standing list, present and committed.
ghost use Rattle.std.specs.Prelude.{◌≡◌, ◌<◌, ◌≤◌, Some, ◌↔◌, ◌++◌, ◌||◌, ℕ, List, false, None, length, map, slice_get, IsOk, IfOk, IfErr, OnOk, OnErr, vec_len, vec_capacity, ◌+◌};
ghost use Rattle.std.specs.List.{list_any};
ghost use Rattle.std.specs.Option.{option_copied};
ghost use Rattle.tmm_model.specs.Standing.{empty_list, is_empty, name_of, premise_in};
ghost use Rattle.list_theory.specs.Fallen.{fallen_with};
ghost use Rattle.tmm_model.specs.Sorts.{class_in, fact_use};
ghost use Rattle.tmm_model.specs.Verdicts.{list_cause, place_cause, upgrade_cause, use_cause, most_premises, Tells};
ghost use Rattle.list_theory.specs.WellNamed.{IsWellNamed};
ghost use Rattle.tmm_model.specs.Edits.{list_with, list_without, list_until, upgraded};
ghost use Rattle.tmm_model.specs.Beliefs.{are_rivals};
ghost use Rattle.premise_list.specs.Judged.{Judges, NamesPlainly};
ghost use Rattle.premise_list.specs.Rivalries.{rivalries, has_rivals, is_pair_of, sets_against, AreChanges};
ghost use Rattle.premise_list.specs.RivalLaws.{no_rival_of_itself, rivals_of_each_other};

use crate::check::Wanted;
use crate::erase::fall_with;
use crate::past::{Past, words_owed};
use crate::premise::{copy_of, facts_of};
use crate::rivalries::{Rivalries, rivalry_count};
use crate::table::Table;
use std::alloc::Global;
use std::marker::Model;
use tmm_model::{
    Edit, FIRST_HORIZON, Name, NoMemory, PointName, Premise, Refusal, Rivals, Seq, Version,
};

/// The standing list with its version and its horizon, now and as they were at the last commit.
#[derive(Drop)]
pub struct Standing {
    table: Table,
    version: Version,
    horizon: u32,
    // what leads back to the list of the last commit
    past: Past,
    // the facts that premises of both lists set against each other
    rivalries: Rivalries,
    committed_version: Version,
    committed_horizon: u32,
}

impl Model for Standing {
    ghost use Rattle.premise_list.specs.States.{States};

    ghost Value = { States };

    ghost use Rattle.premise_list.specs.StandingInside.{states_of, IsStanding};

    ghost view = { states_of };

    ghost invariant = { IsStanding };
}

impl Standing {
    /// The empty list, of version 1 and with horizon 1,000. It takes no memory.
    pub fn make(alloc: Global) -> Standing
        ensures present { result.present ≡ empty_list }
        ensures committed { result.committed ≡ empty_list }
    {
        Standing {
            table: Table::make(alloc),
            version: Version::One,
            horizon: FIRST_HORIZON,
            past: Past {
                shared: 0,
                taken: Vec::new(alloc),
            },
            rivalries: Rivalries::make(alloc),
            committed_version: Version::One,
            committed_horizon: FIRST_HORIZON,
        }
    }

    /// A list of its own that is like the present one, with nothing pending: a rollback leaves it as
    /// it is.
    pub fn copy(&self, alloc: Global) -> Result<Standing, NoMemory>
        ensures { IfOk result (λ copy. copy ≡ record { present = self.now.present; committed = self.now.present }) }
    {
        let table = self.table.copy(alloc)?;
        let shared = table.premises().len();
        let rivalries = self.rivalries.copy(alloc)?;
        Ok(Standing {
            table,
            version: self.version,
            horizon: self.horizon,
            past: Past {
                shared,
                taken: Vec::new(alloc),
            },
            rivalries,
            committed_version: self.version,
            committed_horizon: self.horizon,
        })
    }

    /// Whether names and counts let the edit through, and else the first cause against it. A
    /// refused word is told as the point of a name.
    pub fn check(&self, edit: &Edit) -> Result<(), Refusal>
        ensures ok { IsOk result ↔ (list_cause self.now.present edit.now ≡ None) }
        ensures told { IfErr result (λ refusal. Tells refusal (list_cause self.now.present edit.now)) }
        ensures named { IfErr result NamesPlainly }
    {
        self.judge(edit)
    }

    // The first cause for which the edit is refused.
    fn judge(&self, edit: &Edit) -> Result<(), Refusal>
        ensures { Judges result (list_cause self.now.present edit.now) }
    {
        match edit {
            Edit::Add(premise) => self.table.check_added(premise),
            Edit::Erase(name) => self.table.check_premise(*name),
            Edit::Horizon(_) => Ok(()),
            Edit::Upgrade => self.check_upgrade(),
        }
    }

    // Version 2 is opened at the empty list alone.
    fn check_upgrade(&self) -> Result<(), Refusal>
        ensures { Judges result (upgrade_cause self.now.present) }
    {
        if self.is_empty_list() {
            Ok(())
        } else {
            Err(Refusal::Form)
        }
    }

    fn is_empty_list(&self) -> bool
        ensures { result ≡ is_empty self.now.present }
    {
        matches!(self.version, Version::One)
            && self.table.premises().is_empty()
            && self.horizon == FIRST_HORIZON
    }

    /// Whether a point is there, and else the cause against its word.
    pub fn check_place(&self, point: PointName) -> Result<(), Refusal>
        ensures ok { IsOk result ↔ (place_cause self.now.present.premises point ≡ None) }
        ensures told { IfErr result (λ refusal. Tells refusal (place_cause self.now.present.premises point)) }
        ensures named { IfErr result NamesPlainly }
    {
        self.table.check_place(point)
    }

    /// Whether a fact is declared, and else the cause against its word.
    pub fn check_fact(&self, fact: Name) -> Result<(), Refusal>
        ensures ok { IsOk result ↔ (use_cause self.now.present.premises (fact_use fact) ≡ None) }
        ensures told { IfErr result (λ refusal. Tells refusal (use_cause self.now.present.premises (fact_use fact))) }
        ensures named { IfErr result NamesPlainly }
    {
        self.table.check_name(fact, Wanted::Fact)
    }

    /// Appends a premise that `check` lets through. Without memory nothing has changed.
    pub fn add(&mut self, _alloc: Global, premise: &Premise) -> Result<(), NoMemory>
        requires { list_cause self.old.present (Edit.Add premise.now) ≡ None }
        ensures ok { OnOk result (self.new ≡ record self.old { present = list_with self.old.present premise.now }) }
        ensures err { OnErr result (self.new ≡ self.old) }
    {
        let owed = words_owed(self.past.taken.as_slice());
        let places = 1 + self.past.taken.len();
        self.table
            .reserve(places, 1 + facts_of(premise).len() + owed)?;
        self.rivalries.add(premise)?;
        self.table.push(copy_of(premise));
        Ok(())
    }

    /// Retracts the premise of this name and all that mentions, directly or through others, what is
    /// retracted, and answers the names of these premises in their order. Without memory nothing
    /// has changed.
    pub fn erase(&mut self, alloc: Global, name: Name) -> Result<Seq<Name>, NoMemory>
        requires { list_cause self.old.present (Edit.Erase name) ≡ None }
        ensures names { IfOk result (λ names. names.items ≡ map name_of (fallen_with name self.old.present.premises)) }
        ensures ok { OnOk result (self.new ≡ record self.old { present = list_without self.old.present name }) }
        ensures err { OnErr result (self.new ≡ self.old) }
    {
        let first = self.table.place_of(name);
        let premises = self.table.premises();
        let fall = fall_with(alloc, name, premises, first)?;
        let pairs = rivalry_count(&premises[first..]);
        let owed = words_owed(self.past.taken.as_slice());
        self.table.reserve(0, 9 * fall.places.len() + owed)?;
        self.past.taken.reserve(fall.places.len())?;
        self.rivalries.reserve(pairs)?;
        self.table.take_out(alloc, fall.places, &mut self.past)?;
        self.rivalries
            .truncate(self.rivalries.present().len() - pairs);
        self.rivalries.add_all(&self.table.premises()[first..]);
        Ok(fall.names)
    }

    /// Sets the last date at which an effect is projected, in whole time units.
    pub fn set_horizon(&mut self, n: u32)
        requires { n ≤ 100000 }
        ensures { self.new ≡ record self.old { present = list_until self.old.present n } }
    {
        self.horizon = n;
    }

    /// Opens version 2, where the list is the empty list. It takes no memory.
    pub fn upgrade(&mut self)
        requires { self.old.present ≡ empty_list }
        ensures { self.new ≡ record self.old { present = upgraded self.old.present } }
    {
        self.version = Version::Two;
    }

    /// The version in which its lines are read.
    pub fn version(&self) -> Version
        ensures { result ≡ self.now.present.version }
    {
        self.version
    }

    /// The last date at which an effect is projected, in whole time units.
    pub fn horizon(&self) -> u32
        ensures { result ≡ self.now.present.horizon }
    {
        self.horizon
    }

    /// The number of premises.
    pub fn len(&self) -> usize
        ensures value { result ≡ length self.now.present.premises }
        ensures few { result ≤ most_premises }
        ensures well_named { IsWellNamed self.now.present.premises }
    {
        self.table.premises().len()
    }

    /// What holds of every list, for a proof that wants it: it does nothing.
    pub fn invariants(&self)
        ensures few { length self.now.present.premises ≤ most_premises }
        ensures well_named { IsWellNamed self.now.present.premises }
    {
        self.table.invariants()
    }

    /// The premise at this place, the oldest at 0.
    pub fn at(&self, i: usize) -> Option<&Premise>
        ensures { option_copied result ≡ slice_get self.now.present.premises i }
    {
        self.table.at(i)
    }

    /// The premise of this name.
    pub fn get(&self, name: Name) -> Option<&Premise>
        ensures { option_copied result ≡ premise_in self.now.present.premises name }
    {
        self.table.find(name)
    }

    /// The class that declares the fact.
    pub fn class_of(&self, fact: Name) -> Option<Name>
        ensures { result ≡ class_in self.now.present.premises fact }
    {
        self.table.class_of(fact)
    }

    /// How many premises set two facts against each other.
    pub fn rivalries(&self) -> usize
        ensures { result ≡ length (rivalries self.now.present.premises) }
    {
        self.rivalries.present().len()
    }

    /// The two facts that the `i`-th of these premises sets against each other, the oldest at 0.
    pub fn rivalry(&self, i: usize) -> (Name, Name)
        requires { i < length (rivalries self.now.present.premises) }
        ensures { slice_get (rivalries self.now.present.premises) i ≡ Some result }
    {
        self.rivalries.present()[i]
    }

    /// How many premises of the list of the last commit set two facts against each other.
    pub fn rivalries_before(&self) -> usize
        ensures { result ≡ length (rivalries self.now.committed.premises) }
    {
        self.rivalries.committed().len()
    }

    /// Whether a premise sets the fact against another one.
    pub fn has_rivals(&self, fact: Name) -> bool
        ensures { result ≡ has_rivals self.now.present fact }
    {
        self.rivalries
            .present()
            .iter()
            .any(|pair| sets_against(pair, fact))
    }

    /// Whether a premise of the list of the last commit did.
    pub fn had_rivals(&self, fact: Name) -> bool
        ensures { result ≡ has_rivals self.now.committed fact }
    {
        let pairs = self.rivalries.committed();
        pairs.iter().any(|pair| sets_against(pair, fact))
    }

    /// Whether a premise of the present list, or of that of the last commit, sets the fact against
    /// another one.
    pub fn has_or_had_rivals(&self, fact: Name) -> bool
        ensures value { result ≡ (has_rivals self.now.present fact || has_rivals self.now.committed fact) }
        ensures none { result ≡ false → (g : List ℕ) → (are_rivals self.now.committed fact g ≡ false) × (are_rivals self.now.present fact g ≡ false) }
    {
        self.has_rivals(fact) || self.had_rivals(fact)
    }

    /// The pairs of facts that premises set against each other in the present list or in that of the
    /// last commit alone, and perhaps some of both. It asks for memory only where one list may have
    /// such a pair alone.
    pub fn changed_rivalries(&self, alloc: Global) -> Result<Vec<(Name, Name)>, NoMemory>
        ensures { IfOk result (λ pairs. AreChanges (rivalries self.now.committed.premises) (rivalries self.now.present.premises) pairs.items) }
    {
        self.rivalries.changed(alloc)
    }

    /// Whether a premise of the list of the last commit sets the facts, which differ, against each
    /// other.
    #[tactic(auto, using(crate::proofs::PairsOfFacts::any_pair))]
    pub fn were_against(&self, one: &Name, other: &Name) -> bool
        ensures { result ≡ are_rivals self.now.committed one.now other.now }
    {
        *one != *other && self.were_paired(one, other)
    }

    /// Makes the present list the one of the last commit. It takes no memory.
    pub fn commit(&mut self)
        ensures { self.new ≡ record self.old { committed = self.old.present } }
    {
        self.past.shared = self.table.premises().len();
        self.past.taken.clear();
        self.rivalries.commit();
        self.committed_version = self.version;
        self.committed_horizon = self.horizon;
    }

    /// Makes the list of the last commit the present one. It takes no memory.
    pub fn rollback(&mut self)
        ensures { self.new ≡ record self.old { present = self.old.committed } }
    {
        self.table.truncate(self.past.shared);
        self.table.put_back(&mut self.past.taken);
        self.rivalries.rollback();
        self.past.shared = self.table.premises().len();
        self.version = self.committed_version;
        self.horizon = self.committed_horizon;
    }
}

impl Standing {
    // Whether a premise sets the facts against each other.
    fn are_paired(&self, one: &Name, other: &Name) -> bool
        ensures { result ≡ list_any (is_pair_of one.now other.now) (rivalries self.now.present.premises) }
    {
        self.rivalries
            .present()
            .iter()
            .any(|pair| is_pair_of(pair, one, other))
    }

    // Whether a premise of the list of the last commit did.
    fn were_paired(&self, one: &Name, other: &Name) -> bool
        ensures { result ≡ list_any (is_pair_of one.now other.now) (rivalries self.now.committed.premises) }
    {
        let pairs = self.rivalries.committed();
        pairs.iter().any(|pair| is_pair_of(pair, one, other))
    }
}

impl Rivals for Standing {
    ghost against = { λ s f g. are_rivals s.present f g };

    #[tactic(auto, using(crate::proofs::PairsOfFacts::any_pair))]
    fn are_against(&self, one: &Name, other: &Name) -> bool {
        *one != *other && self.are_paired(one, other)
    }

    ghost irreflexive = { λ s f. no_rival_of_itself s.present f };

    ghost symmetric = { λ s f g. rivals_of_each_other s.present f g };
}

// Whether the pair is of these two facts, in either order.
fn is_pair_of(pair: &(Name, Name), one: &Name, other: &Name) -> bool
    ensures { result ≡ is_pair_of one.now other.now pair.now }
{
    (pair.0 == *one && pair.1 == *other) || (pair.0 == *other && pair.1 == *one)
}

// Whether the pair is of the fact and another one.
fn sets_against(pair: &(Name, Name), fact: Name) -> bool
    ensures { result ≡ sets_against fact pair.now }
{
    (pair.0 == fact || pair.1 == fact) && pair.0 != pair.1
}

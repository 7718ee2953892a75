// A list of premises with the index of its names.
ghost use Rattle.std.specs.Prelude.{◌≡◌, ◌<◌, ◌≤◌, ◌+◌, ◌*◌, List, [], ◌∷◌, ◌++◌, false, None, IfOk, OnErr, OnOk, length, map, take, drop, reverse, slice_get, vec_len, vec_capacity};
ghost use Rattle.std.specs.List.{flat_map, list_any};
ghost use Rattle.std.specs.Map.{lookup};
ghost use Rattle.std.specs.Option.{option_map, option_copied};
ghost use Rattle.tmm_model.specs.declared.premise.Premise.{Premise};
ghost use Rattle.tmm_model.specs.Points.{same_name};
ghost use Rattle.tmm_model.specs.Sorts.{sort_in, class_in, declared_by, declarations_of};
ghost use Rattle.tmm_model.specs.Standing.{points_in, points_of, premise_in};
ghost use Rattle.tmm_model.specs.Verdicts.{most_premises, first_taken, premise_cause, words_known};
ghost use Rattle.list_theory.specs.WellNamed.{AllFollow, Follows, IsWellNamed};
ghost use Rattle.indexmap.specs.IndexMap.{keys, spare};
ghost use Rattle.premise_list.specs.Words.{sort_seen};
ghost use Rattle.premise_list.specs.Found.{IsFoundAt};
ghost use Rattle.premise_list.specs.Past.{Fits, IsMoreBy, RiseBelow, Stands, committed_from, restored, taken_premise, without};
ghost use Rattle.premise_list.specs.Table.{at_place, moved_down, placed, word_seen, entry_seen, fact_entry};

use crate::past::{Past, Taken};
use crate::premise::{Sort, copy_of, facts_of, name_of, point_count, sort_of};
use indexmap::IndexMap;
use std::alloc::Global;
use std::marker::Model;
use tmm_model::{Name, NoMemory, Premise};

// Up to how many premises are taken out one by one.
const FEW_PLACES: usize = 16;

/// What a name is declared as, and the place of the premise that declares it.
#[derive(Clone, Copy)]
pub(crate) struct Word {
    /// What the name is declared as.
    pub sort: Sort,
    /// The place of the premise that declares it, from 0.
    pub place: usize,
}

/// Premises in order, each of which follows those before it, with an index of all declared names.
#[derive(Drop)]
pub(crate) struct Table {
    premises: Vec<Premise>,
    // each declared name, in the order of declaration
    words: IndexMap<Name, Word>,
    // the number of points, `start` among them
    points: usize,
}

impl Model for Table {
    ghost use Rattle.premise_list.specs.Found.{IsFoundAt};
    ghost use Rattle.premise_list.specs.Table.{Rows};

    ghost Value = { Rows };

    ghost use Rattle.premise_list.specs.TableInside.{rows_of, IsTable};

    ghost view = { rows_of };

    ghost invariant = { IsTable };
}

impl Table {
    // No premises. It takes no memory.
    pub(crate) fn make(alloc: Global) -> Table
        ensures { result.premises ≡ [] }
    {
        Table {
            premises: Vec::new(alloc),
            words: IndexMap::new(alloc),
            points: 1,
        }
    }

    // A table of the same premises.
    pub(crate) fn copy(&self, alloc: Global) -> Result<Table, NoMemory>
        ensures { IfOk result (λ copy. copy.premises ≡ self.now.premises) }
    {
        let premises = copies_of(alloc, self.premises())?;
        let mut words = IndexMap::with_capacity(alloc, self.words.len())?;
        let points = declare_anew(&mut words, premises.as_slice());
        Ok(Table {
            premises,
            words,
            points,
        })
    }

    // The premises, oldest first.
    pub(crate) fn premises(&self) -> &[Premise]
        ensures value { result.now ≡ self.now.premises }
        ensures few { length self.now.premises ≤ most_premises }
        ensures well_named { IsWellNamed self.now.premises }
    {
        self.premises.as_slice()
    }

    // What holds of every table. It does nothing.
    pub(crate) fn invariants(&self)
        ensures few { length self.now.premises ≤ most_premises }
        ensures well_named { IsWellNamed self.now.premises }
    {
        // the invariant is known of a value of which a field is used
        let _ = &self.premises;
    }

    // The premise at this place.
    pub(crate) fn at(&self, place: usize) -> Option<&Premise>
        ensures { option_copied result ≡ slice_get self.now.premises place }
    {
        self.premises.get(place)
    }

    // What the name is declared as, and where.
    pub(crate) fn word(&self, name: Name) -> Option<Word>
        ensures { option_map word_seen result ≡ lookup (same_name name) (placed 0 self.now.premises) }
    {
        self.words.get(&name).copied()
    }

    // What the name is declared as.
    pub(crate) fn sort_of(&self, name: Name) -> Option<Sort>
        ensures { option_map sort_seen result ≡ sort_in self.now.premises name }
    {
        Some(self.word(name)?.sort)
    }

    // The premise of this name.
    pub(crate) fn find(&self, name: Name) -> Option<&Premise>
        ensures { option_copied result ≡ premise_in self.now.premises name }
    {
        let _distinct = self.words.len();
        let word = self.word(name)?;
        match word.sort {
            Sort::Fact => None,
            _ => self.at(word.place),
        }
    }

    // The class that declares the fact.
    pub(crate) fn class_of(&self, fact: Name) -> Option<Name>
        ensures { result ≡ class_in self.now.premises fact }
    {
        let _distinct = self.words.len();
        let word = self.word(fact)?;
        match word.sort {
            Sort::Fact => Some(name_of(self.at(word.place)?)),
            _ => None,
        }
    }

    // The place of the premise of this name, which is declared. Those before it stay where it is
    // erased.
    pub(crate) fn place_of(&self, name: Name) -> usize
        requires { premise_cause (sort_in self.now.premises name) name ≡ None }
        ensures { IsFoundAt name self.now.premises result }
    {
        match self.word(name) {
            Some(word) => word.place,
            None => 0,
        }
    }

    // Room for more premises and more declared names.
    pub(crate) fn reserve(&mut self, places: usize, words: usize) -> Result<(), NoMemory>
        ensures premises { self.new.premises ≡ self.old.premises }
        ensures places { OnOk result (places ≤ self.new.places) }
        ensures words { OnOk result (words ≤ self.new.words) }
        ensures places_kept { self.old.places ≤ self.new.places }
        ensures words_kept { self.old.words ≤ self.new.words }
    {
        self.premises.reserve(places)?;
        self.words.reserve(words)?;
        Ok(())
    }

    // The number of points, `start` among them.
    pub(crate) fn points(&self) -> usize
        ensures { result ≡ length (points_in self.now.premises) }
    {
        self.points
    }

    // Appends a premise that follows the others. It takes no memory.
    pub(crate) fn push(&mut self, premise: Premise)
        requires follows { Follows self.old.premises premise }
        requires few { length self.old.premises < most_premises }
        requires places { 0 < self.old.places }
        requires words { length (declared_by premise) ≤ self.old.words }
        ensures premises { self.new.premises ≡ self.old.premises ++ premise ∷ [] }
        ensures places { self.old.places ≡ self.new.places + 1 }
        ensures words { self.old.words ≤ self.new.words + length (declared_by premise) }
    {
        let place = self.premises().len();
        declare_names(&mut self.words, &premise, place);
        self.points += point_count(&premise);
        self.premises.push_reserved(premise);
    }

    // Takes off all but the first `n` premises. It takes no memory.
    pub(crate) fn truncate(&mut self, n: usize)
        requires { n ≤ length self.old.premises }
        ensures premises { self.new.premises ≡ take n self.old.premises }
        ensures places { self.old.places + length self.old.premises ≡ self.new.places + n }
        ensures words { self.old.words ≤ self.new.words }
    {
        let dropped = &self.premises[n..];
        let words = word_count(dropped);
        let points = points_count(dropped);
        let kept_words = self.words.len() - words;
        self.words.truncate(kept_words);
        self.points -= points;
        self.premises.truncate(n);
    }

    // Takes out the premises at these places, and keeps those that the list of the last commit has.
    // Without memory nothing has changed.
    pub(crate) fn take_out(
        &mut self,
        alloc: Global,
        places: Vec<usize>,
        past: &mut Past,
    ) -> Result<(), NoMemory>
        requires places { RiseBelow (length self.old.premises) places.items }
        requires well_named { IsWellNamed (without places.items self.old.premises) }
        requires room { vec_len past.old.taken + length places.items ≤ vec_capacity past.old.taken }
        requires stands { Stands past.old self.old.premises }
        ensures premises { OnOk result (self.new.premises ≡ without places.items self.old.premises) }
        ensures places { OnOk result (self.old.places + length places.items ≡ self.new.places) }
        ensures words { OnOk result (self.old.words ≤ self.new.words) }
        ensures stands { OnOk result (Stands past.new self.new.premises) }
        ensures committed { OnOk result (committed_from past.new self.new.premises ≡ committed_from past.old self.old.premises) }
        ensures taken { OnOk result (IsMoreBy (length places.items) past.old.taken.items past.new.taken.items) }
        ensures err { OnErr result ((self.new ≡ self.old) × (past.new ≡ past.old)) }
    {
        if places.len() <= FEW_PLACES {
            self.take_few(places, past);
            Ok(())
        } else {
            self.take_many(alloc, places, past)
        }
    }

    // The same one by one: those behind each move down. It takes no memory.
    fn take_few(&mut self, places: Vec<usize>, past: &mut Past)
        requires places { RiseBelow (length self.old.premises) places.items }
        requires well_named { IsWellNamed (without places.items self.old.premises) }
        requires room { vec_len past.old.taken + length places.items ≤ vec_capacity past.old.taken }
        requires stands { Stands past.old self.old.premises }
        ensures premises { self.new.premises ≡ without places.items self.old.premises }
        ensures places { self.old.places + length places.items ≡ self.new.places }
        ensures words { self.old.words ≤ self.new.words }
        ensures stands { Stands past.new self.new.premises }
        ensures committed { committed_from past.new self.new.premises ≡ committed_from past.old self.old.premises }
        ensures taken { IsMoreBy (length places.items) past.old.taken.items past.new.taken.items }
    {
        let points = take_each(&mut self.premises, &mut self.words, places, past);
        self.points -= points;
    }

    // The same in one pass: the names of all that stay are declared anew. Without memory nothing
    // has changed.
    fn take_many(
        &mut self,
        alloc: Global,
        places: Vec<usize>,
        past: &mut Past,
    ) -> Result<(), NoMemory>
        requires places { RiseBelow (length self.old.premises) places.items }
        requires well_named { IsWellNamed (without places.items self.old.premises) }
        requires room { vec_len past.old.taken + length places.items ≤ vec_capacity past.old.taken }
        requires stands { Stands past.old self.old.premises }
        ensures premises { OnOk result (self.new.premises ≡ without places.items self.old.premises) }
        ensures places { OnOk result (self.old.places + length places.items ≡ self.new.places) }
        ensures words { OnOk result (self.old.words ≤ self.new.words) }
        ensures stands { OnOk result (Stands past.new self.new.premises) }
        ensures committed { OnOk result (committed_from past.new self.new.premises ≡ committed_from past.old self.old.premises) }
        ensures taken { OnOk result (IsMoreBy (length places.items) past.old.taken.items past.new.taken.items) }
        ensures err { OnErr result ((self.new ≡ self.old) × (past.new ≡ past.old)) }
    {
        let mut behind = Vec::with_capacity(alloc, self.premises.len())?;
        take_in_one_pass(&mut self.premises, &mut behind, places, past);
        self.points = declare_anew(&mut self.words, self.premises.as_slice());
        Ok(())
    }

    // Puts the premises back that were taken out, the latest first. It takes no memory.
    pub(crate) fn put_back(&mut self, taken: &mut Vec<Taken>)
        requires well_named { IsWellNamed (restored taken.old.items self.old.premises) }
        requires few { length (restored taken.old.items self.old.premises) ≤ most_premises }
        requires fits { Fits taken.old.items (length self.old.premises) }
        requires places { length taken.old.items ≤ self.old.places }
        requires words { length (words_known (map taken_premise taken.old.items)) ≤ self.old.words }
        ensures premises { self.new.premises ≡ restored taken.old.items self.old.premises }
        ensures emptied { taken.new.items ≡ [] }
    {
        if taken.is_empty() {
            return;
        }
        put_each(&mut self.premises, taken);
        self.points = declare_anew(&mut self.words, self.premises.as_slice());
    }
}

// A list of the same premises.
fn copies_of(alloc: Global, premises: &[Premise]) -> Result<Vec<Premise>, NoMemory>
    ensures { IfOk result (λ copies. copies.items ≡ premises.now) }
{
    let mut copies = Vec::with_capacity(alloc, premises.len())?;
    for premise in premises {
        copies.push_reserved(copy_of(premise));
    }
    Ok(copies)
}

// Takes out the premises at these places with their names, and tells how many points they declare.
fn take_each(
    premises: &mut Vec<Premise>,
    words: &mut IndexMap<Name, Word>,
    mut places: Vec<usize>,
    past: &mut Past,
) -> usize
    requires indexed { map entry_seen words.old.entries ≡ placed 0 premises.old.items }
    requires few { length premises.old.items ≤ most_premises }
    requires places { RiseBelow (length premises.old.items) places.items }
    requires room { vec_len past.old.taken + length places.items ≤ vec_capacity past.old.taken }
    requires stands { Stands past.old premises.old.items }
    ensures premises { premises.new.items ≡ without places.items premises.old.items }
    ensures places { vec_len premises.new + length places.items ≡ vec_len premises.old }
    ensures capacity { vec_capacity premises.new ≡ vec_capacity premises.old }
    ensures indexed { map entry_seen words.new.entries ≡ placed 0 premises.new.items }
    ensures words { spare words.old ≤ spare words.new }
    ensures points { length (flat_map points_of premises.new.items) + result ≡ length (flat_map points_of premises.old.items) }
    ensures stands { Stands past.new premises.new.items }
    ensures committed { committed_from past.new premises.new.items ≡ committed_from past.old premises.old.items }
    ensures taken { IsMoreBy (length places.items) past.old.taken.items past.new.taken.items }
{
    let mut points = 0;
    while let Some(place) = places.pop() {
        let behind = word_count(&premises[place..]);
        let premise = premises.remove(place);
        let first = words.len() - behind;
        undeclare(words, first, 1 + facts_of(&premise).len());
        points += point_count(&premise);
        past.keep(place, premise);
    }
    points
}

// Takes out the premises at these places in one pass. Those behind one stand aside meanwhile, where
// there is room for all of them.
fn take_in_one_pass(
    premises: &mut Vec<Premise>,
    behind: &mut Vec<Premise>,
    mut places: Vec<usize>,
    past: &mut Past,
)
    requires nothing_behind { behind.old.items ≡ [] }
    requires room_behind { vec_len premises.old ≤ vec_capacity behind.old }
    requires places { RiseBelow (length premises.old.items) places.items }
    requires room { vec_len past.old.taken + length places.items ≤ vec_capacity past.old.taken }
    requires stands { Stands past.old premises.old.items }
    ensures premises { premises.new.items ≡ without places.items premises.old.items }
    ensures places { vec_len premises.new + length places.items ≡ vec_len premises.old }
    ensures capacity { vec_capacity premises.new ≡ vec_capacity premises.old }
    ensures stands { Stands past.new premises.new.items }
    ensures committed { committed_from past.new premises.new.items ≡ committed_from past.old premises.old.items }
    ensures taken { IsMoreBy (length places.items) past.old.taken.items past.new.taken.items }
{
    while let Some(place) = places.pop() {
        move_from(premises, place + 1, behind);
        let premise = premises.remove(place);
        past.keep(place, premise);
    }
    move_from(behind, 0, premises);
}

// Moves the premises from this place on, the last of them first.
fn move_from(from: &mut Vec<Premise>, place: usize, to: &mut Vec<Premise>)
    requires within { place ≤ vec_len from.old }
    requires room { vec_len to.old + vec_len from.old ≤ vec_capacity to.old + place }
    ensures stay { from.new.items ≡ take place from.old.items }
    ensures moved { to.new.items ≡ to.old.items ++ reverse (drop place from.old.items) }
    ensures capacity { (vec_capacity from.new ≡ vec_capacity from.old) × (vec_capacity to.new ≡ vec_capacity to.old) }
{
    while from.len() > place {
        let last = from.len() - 1;
        to.push_reserved(from.remove(last));
    }
}

// Takes the names of a premise out of the index, which stand from here on. The premises behind it
// move down by one place.
fn undeclare(words: &mut IndexMap<Name, Word>, first: usize, count: usize)
    requires within { first + count ≤ length words.old.entries }
    ensures entries { map entry_seen words.new.entries ≡ take first (map entry_seen words.old.entries) ++ map moved_down (drop (first + count) (map entry_seen words.old.entries)) }
    ensures room { spare words.old ≤ spare words.new }
{
    remove_names(words, first, count);
    move_down(words, first);
}

fn remove_names(words: &mut IndexMap<Name, Word>, first: usize, count: usize)
    requires within { first + count ≤ length words.old.entries }
    ensures entries { words.new.entries ≡ take first words.old.entries ++ drop (first + count) words.old.entries }
    ensures room { spare words.old ≤ spare words.new }
{
    for _ in 0..count {
        let _gone = words.shift_remove_index(first);
    }
}

fn move_down(words: &mut IndexMap<Name, Word>, first: usize)
    ensures entries { map entry_seen words.new.entries ≡ take first (map entry_seen words.old.entries) ++ map moved_down (drop first (map entry_seen words.old.entries)) }
    ensures room { spare words.old ≤ spare words.new }
{
    for i in first..words.len() {
        if let Some(word) = words.get_index_mut(i) {
            word.place = word.place.saturating_sub(1);
        }
    }
}

// Puts the premises back that were taken out, the latest first.
fn put_each(premises: &mut Vec<Premise>, taken: &mut Vec<Taken>)
    requires fits { Fits taken.old.items (length premises.old.items) }
    requires room { vec_len premises.old + length taken.old.items ≤ vec_capacity premises.old }
    ensures premises { premises.new.items ≡ restored taken.old.items premises.old.items }
    ensures emptied { taken.new.items ≡ [] }
{
    while let Some(Taken { place, premise }) = taken.pop() {
        let _room = premises.insert(place, premise);
    }
}

// Adds a new name to the index.
fn declare(words: &mut IndexMap<Name, Word>, name: Name, word: Word)
    requires room { 0 < spare words.old }
    requires new { list_any (same_name name) (keys words.old) ≡ false }
    ensures entries { words.new.entries ≡ words.old.entries ++ (name, word) ∷ [] }
    ensures room { spare words.old ≤ spare words.new + 1 }
{
    let _new = words.insert(name, word);
}

// Makes the index of these premises anew, and tells how many points there are, `start` among them.
fn declare_anew(words: &mut IndexMap<Name, Word>, premises: &[Premise]) -> usize
    requires few { length premises.now ≤ most_premises }
    requires well_named { IsWellNamed premises.now }
    requires room { length (words_known premises.now) ≤ length words.old.entries + spare words.old }
    ensures indexed { map entry_seen words.new.entries ≡ placed 0 premises.now }
    ensures room { length words.old.entries + spare words.old ≤ spare words.new + length (words_known premises.now) }
    ensures points { result ≡ length (points_in premises.now) }
{
    words.clear();
    declare_all(words, premises, 0);
    1 + points_count(premises)
}

// Adds the names of premises that follow those whose names are there. The first of them has this
// place.
fn declare_all(words: &mut IndexMap<Name, Word>, premises: &[Premise], place: usize)
    requires few { place + length premises.now ≤ most_premises }
    requires room { length (words_known premises.now) ≤ spare words.old }
    requires follow { (before : List Premise) × (map entry_seen words.old.entries ≡ placed 0 before) × (length before ≡ place) × AllFollow before premises.now }
    ensures entries { map entry_seen words.new.entries ≡ map entry_seen words.old.entries ++ placed place premises.now }
    ensures room { spare words.old ≤ spare words.new + length (words_known premises.now) }
{
    for (i, premise) in premises.iter().enumerate() {
        declare_names(words, premise, place + i);
    }
}

// Adds the names of the premise at this place, which are new.
fn declare_names(words: &mut IndexMap<Name, Word>, premise: &Premise, place: usize)
    requires room { length (declared_by premise.now) ≤ spare words.old }
    requires new { first_taken (keys words.old) (declared_by premise.now) ≡ None }
    ensures entries { map entry_seen words.new.entries ≡ map entry_seen words.old.entries ++ map (at_place place) (declarations_of premise.now) }
    ensures room { spare words.old ≤ spare words.new + length (declared_by premise.now) }
{
    let word = Word {
        sort: sort_of(premise),
        place,
    };
    declare(words, name_of(premise), word);
    declare_facts(words, facts_of(premise), place);
}

// Adds the facts of a class, which are new.
fn declare_facts(words: &mut IndexMap<Name, Word>, facts: &[Name], place: usize)
    requires room { length facts.now ≤ spare words.old }
    requires new { first_taken (keys words.old) facts.now ≡ None }
    ensures entries { words.new.entries ≡ words.old.entries ++ map (fact_entry place) facts.now }
    ensures room { spare words.old ≤ spare words.new + length facts.now }
{
    for fact in facts {
        let word = Word {
            sort: Sort::Fact,
            place,
        };
        declare(words, *fact, word);
    }
}

// How many names the premises declare.
pub(crate) fn word_count(premises: &[Premise]) -> usize
    requires { length premises.now ≤ most_premises }
    ensures value { result ≡ length (words_known premises.now) }
    ensures few { result ≤ 9 * length premises.now }
{
    let mut count = 0;
    for premise in premises {
        count += 1 + facts_of(premise).len();
    }
    count
}

// How many points the premises declare.
fn points_count(premises: &[Premise]) -> usize
    requires { length premises.now ≤ most_premises }
    ensures { result ≡ length (flat_map points_of premises.now) }
{
    let mut count = 0;
    for premise in premises {
        count += point_count(premise);
    }
    count
}

// What leaves with premises that the list has no more: declared events, tokens and spans, and what
// erased rules brought about, with all below.
ghost use Rattle.std.specs.Prelude.{◌≡◌, ◌≢◌, ℕ, ◌+◌, ◌≤◌, List, [], ◌∷◌, length, None, Some, IfOk, OnOk};
ghost use Rattle.tmm_model.specs.declared.point.PointName.TheVariants.{Begin};
ghost use Rattle.tmm_model.specs.Moments.{At, After};
ghost use Rattle.tmm_model.specs.Standing.{Standing, premise_in};
ghost use Rattle.list_theory.proofs.Elements.{In};
ghost use Rattle.row_links.specs.Lists.{IsOn};
ghost use Rattle.spots.specs.Forest.{Member, member, moment, moment_at, IsLive, IsFound, IsNoRoot, IsOnce};
ghost use Rattle.undo_rows.specs.declared.row.Row.{Row as TableRow};
ghost use Rattle.decision_rows.specs.declared.row.Pair.{Pair};
ghost use Rattle.occ_tree.specs.Classes.{place_in};
ghost use Rattle.occ_tree.specs.Dated.{HaveRoots};
ghost use Rattle.occ_tree.specs.Places.{forest};
ghost use Rattle.occ_tree.specs.Standing.{present};
ghost use Rattle.revisions.specs.Standing.{Stands};
ghost use Rattle.belief_table.specs.Decided.{table_of, AreOfSome, KeepsLast, AreNoLonger};
ghost use Rattle.belief_table.specs.LastCommit.{KeepLast};
ghost use Rattle.belief_table.specs.Erasing.{class_at};
ghost use Rattle.belief_table.specs.Erasing.{TellsOf, NotesOf, fact_at, DropsRowsAt, KeepRows, TakesNode, HasNoRowOf, Sheds, ShedsAll, Spares, IsFreeOf};
ghost use Rattle.bearing.specs.Gone.{gone_at};
ghost use Rattle.belief_table.specs.Marks.{HaveEvents};
ghost use Rattle.belief_table.specs.Numbers.{name_in, HaveOwnNumbers};

use crate::dated::DatedOcc;
use crate::dropping::drop_rows;
use crate::lists::push;
use crate::numbers::Numbers;
use crate::state::{Beliefs, Decisions};
use bearing::gone_tokens::Gone;
use bearing::places::place_of;
use occ_tree::Tree;
use std::alloc::Global;
use tmm_model::{Name, NoMemory, Occ, Seq};

/// What left with erased premises.
#[derive(Drop)]
pub struct Departed {
    /// What rules had led to, each once.
    pub left: Seq<DatedOcc>,
    /// The classes of the tokens, under numbers that mean nothing.
    pub classes: Numbers,
    /// Their facts, under numbers that mean nothing.
    pub facts: Numbers,
    /// The tokens.
    pub tokens: Vec<Gone>,
}

/// Withdraws what the premises of these names declared or brought about, with all below it, and
/// takes out the rows of those that are rules. Marks of rows that read what left are left to the
/// caller: for this the dates of their events are to be those of the new network.
pub fn erase(alloc: Global, beliefs: &mut Beliefs, names: &[Name]) -> Result<Departed, NoMemory>
    requires once { IsOnce (forest beliefs.old.tree) }
    requires events { HaveEvents beliefs.old.tree (table_of beliefs.old.decisions) }
    requires under { AreOfSome beliefs.old.decisions }
    ensures sheds { IfOk result (λ departed. ShedsAll beliefs.old beliefs.new departed) }
    ensures spares { OnOk result ((s : Standing) → ((name : List ℕ) → In name names.now → premise_in s.premises name ≡ None) → Spares s beliefs.old beliefs.new) }
    ensures free { OnOk result ((name : List ℕ) → In name names.now → IsFreeOf beliefs.new name) }
    ensures last { KeepLast beliefs.old beliefs.new }
{
    let mut departed = nothing_yet(alloc);
    for name in names {
        erase_premise(alloc, beliefs, &mut departed, *name)?;
    }
    Ok(departed)
}

// Nothing has left. It takes no memory.
fn nothing_yet(alloc: Global) -> Departed
    ensures left { result.left.items ≡ [] }
    ensures classes { result.classes ≡ [] }
    ensures facts { result.facts ≡ [] }
    ensures tokens { result.tokens.items ≡ [] }
{
    Departed {
        left: Seq::make(alloc),
        classes: Numbers::make(alloc),
        facts: Numbers::make(alloc),
        tokens: Vec::new(alloc),
    }
}

// Withdraws what the premise of this name declared, or what the rule of this name brought about.
fn erase_premise(
    alloc: Global,
    beliefs: &mut Beliefs,
    departed: &mut Departed,
    name: Name,
) -> Result<(), NoMemory>
    requires once { IsOnce (forest beliefs.old.tree) }
    requires events { HaveEvents beliefs.old.tree (table_of beliefs.old.decisions) }
    requires under { AreOfSome beliefs.old.decisions }
    ensures sheds { OnOk result (Sheds beliefs.old beliefs.new departed.old departed.new) }
    ensures spares { OnOk result ((s : Standing) → premise_in s.premises name ≡ None → Spares s beliefs.old beliefs.new) }
    ensures free { OnOk result (IsFreeOf beliefs.new name) }
    ensures last { KeepLast beliefs.old beliefs.new }
{
    erase_root(alloc, beliefs, departed, name)?;
    erase_effects(alloc, beliefs, departed, name)?;
    Ok(())
}

// Withdraws the root of this name, if there is one.
fn erase_root(
    alloc: Global,
    beliefs: &mut Beliefs,
    departed: &mut Departed,
    name: Name,
) -> Result<(), NoMemory>
    requires once { IsOnce (forest beliefs.old.tree) }
    requires events { HaveEvents beliefs.old.tree (table_of beliefs.old.decisions) }
    requires under { AreOfSome beliefs.old.decisions }
    ensures sheds { OnOk result (Sheds beliefs.old beliefs.new departed.old departed.new) }
    ensures spares { OnOk result ((s : Standing) → premise_in s.premises name ≡ None → Spares s beliefs.old beliefs.new) }
    ensures none { OnOk result (IsNoRoot (forest beliefs.new.tree) name) }
    ensures last { KeepLast beliefs.old beliefs.new }
{
    match find_root(alloc, &beliefs.tree, name) {
        Some(x) => {
            withdraw(alloc, beliefs, departed, x)?;
            Ok(())
        }
        None => Ok(()),
    }
}

// The root of this name, none exactly where there is none.
fn find_root(alloc: Global, tree: &Tree, name: Name) -> Option<u32>
    ensures found { IsFound (forest tree.now) (At (Begin name)) result }
    ensures roots { HaveRoots (present tree.now) }
{
    // each node is below a root
    let _ = tree.first_root();
    let root = Occ {
        root: name,
        rules: Seq::make(alloc),
    };
    tree.find(&root)
}

// Withdraws what the rule of this name brought about, and takes out its rows.
fn erase_effects(
    alloc: Global,
    beliefs: &mut Beliefs,
    departed: &mut Departed,
    rule: Name,
) -> Result<(), NoMemory>
    requires once { IsOnce (forest beliefs.old.tree) }
    requires events { HaveEvents beliefs.old.tree (table_of beliefs.old.decisions) }
    requires under { AreOfSome beliefs.old.decisions }
    ensures sheds { OnOk result (Sheds beliefs.old beliefs.new departed.old departed.new) }
    ensures spares { OnOk result ((s : Standing) → premise_in s.premises rule ≡ None → Spares s beliefs.old beliefs.new) }
    ensures none { OnOk result (HasNoRowOf beliefs.new.decisions rule) }
    ensures last { KeepLast beliefs.old beliefs.new }
{
    match beliefs.decisions.rules.find(&rule) {
        Some(number) => {
            erase_rows(alloc, beliefs, departed, number, rule)?;
            Ok(())
        }
        None => Ok(()),
    }
}

// Withdraws what the rule of this number brought about, and takes out its rows.
fn erase_rows(
    alloc: Global,
    beliefs: &mut Beliefs,
    departed: &mut Departed,
    number: u32,
    rule: Name,
) -> Result<(), NoMemory>
    requires once { IsOnce (forest beliefs.old.tree) }
    requires events { HaveEvents beliefs.old.tree (table_of beliefs.old.decisions) }
    requires under { AreOfSome beliefs.old.decisions }
    requires own { HaveOwnNumbers beliefs.old.decisions.rules }
    requires rule { place_in beliefs.old.decisions.rules rule ≡ Some number }
    ensures sheds { OnOk result (Sheds beliefs.old beliefs.new departed.old departed.new) }
    ensures spares { OnOk result ((s : Standing) → premise_in s.premises rule ≡ None → Spares s beliefs.old beliefs.new) }
    ensures none { OnOk result (HasNoRowOf beliefs.new.decisions rule) }
    ensures last { KeepLast beliefs.old beliefs.new }
{
    while let Some(row) = beliefs.decisions.rows.first(1, number) {
        erase_effect(alloc, beliefs, departed, row, number, rule)?;
    }
    Ok(())
}

// Withdraws what a row's rule brought about at its event, and takes out the row.
fn erase_effect(
    alloc: Global,
    beliefs: &mut Beliefs,
    departed: &mut Departed,
    row: u32,
    number: u32,
    rule: Name,
) -> Result<(), NoMemory>
    requires once { IsOnce (forest beliefs.old.tree) }
    requires events { HaveEvents beliefs.old.tree (table_of beliefs.old.decisions) }
    requires under { AreOfSome beliefs.old.decisions }
    requires row { (r : TableRow Pair 8) × ((table_of beliefs.old.decisions).row row ≡ Some r) × (r.value.rule ≡ number) }
    requires rule { name_in beliefs.old.decisions.rules number ≡ rule }
    ensures sheds { OnOk result (Sheds beliefs.old beliefs.new departed.old departed.new) }
    ensures spares { OnOk result ((s : Standing) → premise_in s.premises rule ≡ None → Spares s beliefs.old beliefs.new) }
    ensures fewer { OnOk result (length ((table_of beliefs.new.decisions).list 1 number) + 1 ≤ length ((table_of beliefs.old.decisions).list 1 number)) }
    ensures last { KeepLast beliefs.old beliefs.new }
{
    let (trigger, _) = beliefs.decisions.rows.pair(row);
    withdraw_effect(alloc, beliefs, departed, trigger, rule)?;
    // it tells the proof that rows are on their lists
    let _ = beliefs.decisions.rows.first(1, number);
    beliefs.decisions.rows.remove(alloc, row)?;
    Ok(())
}

// Withdraws what a rule brought about at an event, if it did.
fn withdraw_effect(
    alloc: Global,
    beliefs: &mut Beliefs,
    departed: &mut Departed,
    trigger: u32,
    rule: Name,
) -> Result<(), NoMemory>
    requires once { IsOnce (forest beliefs.old.tree) }
    requires events { HaveEvents beliefs.old.tree (table_of beliefs.old.decisions) }
    requires under { AreOfSome beliefs.old.decisions }
    requires trigger { IsLive (forest beliefs.old.tree) trigger }
    ensures sheds { OnOk result (Sheds beliefs.old beliefs.new departed.old departed.new) }
    ensures spares { OnOk result ((s : Standing) → premise_in s.premises rule ≡ None → Spares s beliefs.old beliefs.new) }
    ensures none { OnOk result ((y : ℕ) (m : Member) → member (forest beliefs.new.tree) y ≡ Some m → moment m ≢ After (moment_at (forest beliefs.old.tree) trigger) rule) }
    ensures stays { OnOk result (IsLive (forest beliefs.new.tree) trigger) }
    ensures rows { OnOk result (KeepRows beliefs.old beliefs.new) }
    ensures fewer { OnOk result (AreNoLonger beliefs.old.decisions beliefs.new.decisions) }
    ensures last { KeepLast beliefs.old beliefs.new }
{
    match beliefs.tree.find_effect(trigger, &rule) {
        Some(x) => {
            withdraw(alloc, beliefs, departed, x)?;
            Ok(())
        }
        None => Ok(()),
    }
}

// Withdraws a node with all below it, and takes out the rows at the events among them.
fn withdraw(
    alloc: Global,
    beliefs: &mut Beliefs,
    departed: &mut Departed,
    x: u32,
) -> Result<(), NoMemory>
    requires once { IsOnce (forest beliefs.old.tree) }
    requires events { HaveEvents beliefs.old.tree (table_of beliefs.old.decisions) }
    requires under { AreOfSome beliefs.old.decisions }
    requires node { IsLive (forest beliefs.old.tree) x }
    ensures sheds { OnOk result (Sheds beliefs.old beliefs.new departed.old departed.new) }
    ensures spares { OnOk result ((s : Standing) → (Stands s (moment_at (forest beliefs.old.tree) x) → ⊥) → Spares s beliefs.old beliefs.new) }
    ensures gone { OnOk result (TakesNode (forest beliefs.old.tree) (forest beliefs.new.tree) x) }
    ensures rows { OnOk result (KeepRows beliefs.old beliefs.new) }
    ensures fewer { OnOk result (AreNoLonger beliefs.old.decisions beliefs.new.decisions) }
    ensures last { KeepLast beliefs.old beliefs.new }
{
    let numbers = beliefs.tree.numbers_below(alloc, x)?;
    part_with(
        alloc,
        &beliefs.tree,
        &mut beliefs.decisions,
        departed,
        numbers.as_slice(),
    )?;
    beliefs.tree.withdraw(alloc, x)?;
    Ok(())
}

// Tells of nodes that go, notes the tokens among them with their classes and facts, and takes out
// the rows at the events.
fn part_with(
    alloc: Global,
    tree: &Tree,
    decisions: &mut Decisions,
    departed: &mut Departed,
    numbers: &[u32],
) -> Result<(), NoMemory>
    requires live { (y : ℕ) → IsOn numbers.now y → IsLive (forest tree.now) y }
    requires under { AreOfSome decisions.old }
    ensures tells { OnOk result (TellsOf tree.now numbers.now departed.old.left.items departed.new.left.items) }
    ensures notes { OnOk result (NotesOf (class_at tree.now) numbers.now departed.old.classes departed.new.classes) }
    ensures facts { OnOk result (NotesOf (fact_at tree.now) numbers.now departed.old.facts departed.new.facts) }
    ensures tokens { OnOk result (NotesOf (gone_at tree.now) numbers.now departed.old.tokens.items departed.new.tokens.items) }
    ensures rows { OnOk result (DropsRowsAt (IsOn numbers.now) decisions.old decisions.new) }
    ensures fewer { OnOk result (AreNoLonger decisions.old decisions.new) }
    ensures last { KeepsLast decisions.old decisions.new }
{
    for y in numbers {
        tell(alloc, tree, &mut departed.left, *y)?;
        note(tree, &mut departed.classes, *y)?;
        note_fact(tree, &mut departed.facts, *y)?;
        note_token(tree, &mut departed.tokens, *y)?;
        drop_rows(alloc, decisions, *y)?;
    }
    Ok(())
}

// Tells of a node that goes, if a rule led to it.
fn tell(alloc: Global, tree: &Tree, left: &mut Seq<DatedOcc>, y: u32) -> Result<(), NoMemory>
    requires { IsLive (forest tree.now) y }
    ensures { OnOk result (TellsOf tree.now (y ∷ []) left.old.items left.new.items) }
{
    if tree.row(y).rules == 0 {
        return Ok(());
    }
    let moved = DatedOcc {
        node: y,
        early: tree.early(y),
        occ: tree.occ_of(alloc, y)?,
    };
    let Ok(()) = left.push(moved) else {
        return Err(NoMemory);
    };
    Ok(())
}

// Notes the class of a node that goes, if it is a token.
fn note(tree: &Tree, classes: &mut Numbers, y: u32) -> Result<(), NoMemory>
    requires { IsLive (forest tree.now) y }
    ensures { OnOk result (NotesOf (class_at tree.now) (y ∷ []) classes.old classes.new) }
{
    match tree.row(y).class {
        Some(class) => {
            classes.enter(class)?;
            Ok(())
        }
        None => Ok(()),
    }
}

// Notes the fact of a node that goes, if it is a token.
fn note_fact(tree: &Tree, facts: &mut Numbers, y: u32) -> Result<(), NoMemory>
    requires { IsLive (forest tree.now) y }
    ensures { OnOk result (NotesOf (fact_at tree.now) (y ∷ []) facts.old facts.new) }
{
    let row = tree.row(y);
    match row.class {
        Some(_) => {
            facts.enter(row.what)?;
            Ok(())
        }
        None => Ok(()),
    }
}

// Notes a node that goes, if it is a token.
fn note_token(tree: &Tree, tokens: &mut Vec<Gone>, y: u32) -> Result<(), NoMemory>
    requires { IsLive (forest tree.now) y }
    ensures { OnOk result (NotesOf (gone_at tree.now) (y ∷ []) tokens.old.items tokens.new.items) }
{
    let row = tree.row(y);
    match row.class {
        Some(class) => {
            let gone = Gone {
                class,
                place: place_of(tree, y),
                is_span: row.end.is_some(),
            };
            push(tokens, gone)?;
            Ok(())
        }
        None => Ok(()),
    }
}

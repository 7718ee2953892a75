// Rows of a rule that is declared anew.
ghost use Rattle.std.specs.Prelude.{◌≡◌, ℕ, ◌≤◌, [], ◌∷◌, length, true, false, nat_eq, IsSome, OnOk};
ghost use Rattle.std.specs.List.{All, IsDistinct};
ghost use Rattle.row_links.specs.Lists.{IsOn};
ghost use Rattle.tmm_model.specs.Moments.{read_by, rule_of};
ghost use Rattle.tmm_model.specs.Sorts.{class_in};
ghost use Rattle.list_theory.proofs.Elements.{In};
ghost use Rattle.spots.specs.Forest.{IsLive};
ghost use Rattle.occ_tree.specs.Places.{forest};
ghost use Rattle.belief_net.specs.Adding.{EntersRule, IsEventOf, AddsRule, AddsRuleAt};
ghost use Rattle.belief_table.specs.Decided.{table_of, AreUnder, KeepsLast};
ghost use Rattle.belief_table.specs.LastCommit.{KeepLast};
ghost use Rattle.belief_turns.specs.Heads.{AddsUnder, HasNamesOf};
ghost use Rattle.belief_net.specs.KindEvents.{HaveOthers, FindsOthers};
ghost use Rattle.belief_table.specs.Marks.{HaveEvents};
ghost use Rattle.belief_turns.specs.Turning.{IsFit};

use crate::kind_events::events_of;
use bearing::points_of_rule::facts_read;
use belief_table::{Beliefs, Decisions};
use belief_turns::{Heads, add_under, heads_of};
use dist_net::DistNet;
use occ_tree::Tree;
use premise_list::Standing;
use std::alloc::Global;
use tmm_model::{Name, NoMemory, Premise};

// Adds a row at each event of its kind for a premise that is a rule. None is decided yet, so all of
// them wait.
pub(crate) fn enter_rule(
    alloc: Global,
    standing: &Standing,
    net: &DistNet,
    beliefs: &mut Beliefs,
    premise: &Premise,
) -> Result<(), NoMemory>
    requires fit { IsFit standing.now.present net.now.present beliefs.old }
    requires stands { In premise.now standing.now.present.premises }
    requires others { FindsOthers standing.now.present premise.now beliefs.old }
    ensures enters { OnOk result (EntersRule standing.now.present premise.now beliefs.old beliefs.new) }
    ensures fit { OnOk result (IsFit standing.now.present net.now.present beliefs.new) }
    ensures last { KeepLast beliefs.old beliefs.new }
{
    match premise {
        Premise::Rule {
            name,
            trigger,
            given,
            unless_facts,
            ..
        } => {
            let read = facts_read(given.as_slice(), unless_facts.as_slice());
            add_rule(
                alloc,
                standing,
                &beliefs.tree,
                &mut beliefs.decisions,
                *name,
                *trigger,
                read.as_slice(),
            )?;
            Ok(())
        }
        _ => Ok(()),
    }
}

// Adds a row of a rule that reads these facts at each event of a kind.
fn add_rule(
    alloc: Global,
    standing: &Standing,
    tree: &Tree,
    decisions: &mut Decisions,
    rule: Name,
    kind: Name,
    read: &[Name],
) -> Result<(), NoMemory>
    requires read { read.now ≡ read_by (rule_of standing.now.present rule) }
    requires few { length read.now ≤ 6 }
    requires facts { All (λ fact. IsSome (class_in standing.now.present.premises fact)) read.now }
    requires events { HaveEvents tree.now (table_of decisions.old) }
    requires under { AreUnder standing.now.present decisions.old }
    requires others { HaveOthers standing.now.present tree.now decisions.old rule kind }
    ensures adds { OnOk result (AddsRule tree.now rule kind decisions.old decisions.new) }
    ensures under { OnOk result (AreUnder standing.now.present decisions.new) }
    ensures last { KeepsLast decisions.old decisions.new }
{
    let numbers = events_of(alloc, standing, tree, decisions, rule, kind)?;
    let nodes = numbers.as_slice();
    // a rule without rows has no number
    if !has_event(tree, nodes, kind) {
        return Ok(());
    }
    let heads = heads_of(standing, decisions, rule, read)?;
    add_rule_along(alloc, tree, decisions, nodes, kind, &heads)?;
    Ok(())
}

// Whether one of these nodes is an event of this kind.
fn has_event(tree: &Tree, numbers: &[u32], kind: Name) -> bool
    requires { (x : ℕ) → IsOn numbers.now x → IsLive (forest tree.now) x }
    ensures { result ≡ false → (x : ℕ) → IsOn numbers.now x → IsEventOf tree.now kind x → ⊥ }
{
    for x in numbers {
        if is_event_of(tree, *x, kind) {
            return true;
        }
    }
    false
}

// Adds a row of the rule of these numbers at each of these nodes that is an event of the kind.
fn add_rule_along(
    alloc: Global,
    tree: &Tree,
    decisions: &mut Decisions,
    numbers: &[u32],
    kind: Name,
    heads: &Heads,
) -> Result<(), NoMemory>
    requires live { (x : ℕ) → IsOn numbers.now x → IsLive (forest tree.now) x }
    requires once { IsDistinct nat_eq numbers.now }
    requires few { length heads.now.classes.items ≤ 6 }
    ensures adds { OnOk result (AddsUnder (λ rule. AddsRuleAt tree.now rule kind numbers.now decisions.old decisions.new) heads.now decisions.old decisions.new) }
    ensures last { KeepsLast decisions.old decisions.new }
{
    for x in numbers {
        add_rule_at(alloc, tree, decisions, *x, kind, heads)?;
    }
    Ok(())
}

// Adds a row of the rule of these numbers at a node, if that is an event of this kind.
fn add_rule_at(
    alloc: Global,
    tree: &Tree,
    decisions: &mut Decisions,
    x: u32,
    kind: Name,
    heads: &Heads,
) -> Result<(), NoMemory>
    requires node { IsLive (forest tree.now) x }
    requires few { length heads.now.classes.items ≤ 6 }
    ensures adds { OnOk result (AddsUnder (λ rule. AddsRuleAt tree.now rule kind (x ∷ []) decisions.old decisions.new) heads.now decisions.old decisions.new) }
    ensures names { HasNamesOf decisions.old decisions.new }
    ensures last { KeepsLast decisions.old decisions.new }
{
    if is_event_of(tree, x, kind) {
        add_under(alloc, decisions, x, tree.early(x), heads)?;
        Ok(())
    } else {
        Ok(())
    }
}

// Whether a node is an event of this kind.
fn is_event_of(tree: &Tree, x: u32, kind: Name) -> bool
    requires { IsLive (forest tree.now) x }
    ensures event { result ≡ true → IsEventOf tree.now kind x }
    ensures other { IsEventOf tree.now kind x → result ≡ true }
{
    let row = tree.row(x);
    match row.class {
        Some(_) => false,
        None => row.what == kind,
    }
}

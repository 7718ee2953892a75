// The audit of rows, in their order.
ghost use Rattle.std.specs.Prelude.{◌≡◌, ◌↔◌, ◌+◌, ◌<◌, ℤ, ◌++◌, ◌∷◌, [], ℕ, List, map, length, None, IsTrue, IfOk, OnOk};
ghost use Rattle.std.specs.List.{All, Contains};
ghost use Rattle.std.specs.Option.{option_map};
ghost use Rattle.tmm_model.specs.Beliefs.{root_of, roots, rules_at};
ghost use Rattle.tmm_model.specs.Moments.{Moment, At, moment_of};
ghost use Rattle.tmm_model.specs.declared.point.PointName.TheVariants.{Begin};
ghost use Rattle.list_theory.proofs.Elements.{In};
ghost use Rattle.net_theory.specs.Fits.{IsNetOf};
ghost use Rattle.spots.specs.Forest.{IsLive, moment_at};
ghost use Rattle.spots.specs.OfLists.{HasOccurrences};
ghost use Rattle.occ_tree.specs.OfLists.{IsTreeIn};
ghost use Rattle.occ_tree.specs.Places.{forest};
ghost use Rattle.supports.specs.TimeMaps.{IsTimeMap};
ghost use Rattle.just_check.specs.Audited.{IsTaken, IsChecked, IsReady, rows_of, DecidesThrough, EntersBehind, Takes, ComesAfter, IsDecided};
ghost use Rattle.belief_theory.specs.Believed.{believed_in_order};
ghost use Rattle.just_check.specs.Checking.{AwaitsRoots, AwaitsRoot, AwaitsMore};
ghost use Rattle.just_check.specs.Kinds.{AreRules};
ghost use Rattle.just_check.specs.Origins.{comes_from, has_event};

use crate::expected::{Expected, Origin};
use crate::rows::{enter, origin_of};
use crate::rules::{RulesByKind, does_fire};
use dist_net::DistNet;
use occ_tree::{Order, Tree};
use premise_list::Standing;
use std::alloc::Global;
use supports::TimeMap;
use tmm_model::{Name, NoMemory, Occ, Premise};

/// Whether the rows are the believed occurrences of the list, in their order, each once. Any rows
/// are allowed, whoever made them.
pub fn audit(
    alloc: Global,
    standing: &Standing,
    net: &DistNet,
    rows: &[Occ],
) -> Result<bool, NoMemory>
    requires network { IsNetOf standing.now.present net.now.present }
    ensures { IfOk result (λ good. IsTrue good ↔ (map moment_of rows.now ≡ believed_in_order standing.now.present)) }
{
    let rules = RulesByKind::of(alloc, standing)?;
    audit_by(alloc, standing, net, &rules, rows)
}

// The same by the standing rules.
fn audit_by(
    alloc: Global,
    standing: &Standing,
    net: &DistNet,
    rules: &RulesByKind,
    rows: &[Occ],
) -> Result<bool, NoMemory>
    requires network { IsNetOf standing.now.present net.now.present }
    requires rules { AreRules standing.now.present rules.now }
    ensures { IfOk result (λ good. IsTrue good ↔ (map moment_of rows.now ≡ believed_in_order standing.now.present)) }
{
    let expected = expected_roots(alloc, standing)?;
    audit_from(alloc, standing, net, rules, expected, rows)
}

// The same by what is declared to occur.
fn audit_from(
    alloc: Global,
    standing: &Standing,
    net: &DistNet,
    rules: &RulesByKind,
    expected: Expected,
    rows: &[Occ],
) -> Result<bool, NoMemory>
    requires network { IsNetOf standing.now.present net.now.present }
    requires rules { AreRules standing.now.present rules.now }
    requires roots { AwaitsRoots (roots standing.now.present) expected }
    ensures { IfOk result (λ good. IsTrue good ↔ (map moment_of rows.now ≡ believed_in_order standing.now.present)) }
{
    let mut checked = Checked::none(alloc, expected);
    take_all(alloc, standing, net, rules, &mut checked, rows)
}

// Takes the rows behind none, and tells whether they are the believed occurrences in their order.
fn take_all(
    alloc: Global,
    standing: &Standing,
    net: &DistNet,
    rules: &RulesByKind,
    checked: &mut Checked,
    rows: &[Occ],
) -> Result<bool, NoMemory>
    requires network { IsNetOf standing.now.present net.now.present }
    requires rules { AreRules standing.now.present rules.now }
    requires before { IsChecked standing.now.present net.now.present checked.old }
    requires none { rows_of checked.old ≡ [] }
    ensures { IfOk result (λ good. IsTrue good ↔ (map moment_of rows.now ≡ believed_in_order standing.now.present)) }
{
    for row in rows {
        if !take(alloc, standing, net, rules, checked, row)? {
            return Ok(false);
        }
    }
    decide_rest(alloc, standing, net, rules, checked)?;
    Ok(checked.expected.all_stand())
}

/// The rows so far, and what is to stand among the rows.
#[derive(Drop)]
struct Checked {
    // the rows so far
    tree: Tree,
    // their nodes, in the order of the rows
    nodes: Vec<u32>,
    // at so many of them it is decided which rules fire
    decided: usize,
    // what is declared, and what these rules bring about
    expected: Expected,
}

impl Checked {
    // No rows yet, where this is to stand among them. It takes no memory.
    fn none(alloc: Global, expected: Expected) -> Checked
        ensures tree { (x : ℕ) → forest result.tree x ≡ None }
        ensures nodes { result.nodes.items ≡ [] }
        ensures decided { result.decided ≡ 0 }
        ensures expected { result.expected ≡ expected }
    {
        Checked {
            tree: Tree::make(alloc),
            nodes: Vec::new(alloc),
            decided: 0,
            expected,
        }
    }
}

// All that is declared to occur is to stand among the rows.
fn expected_roots(alloc: Global, standing: &Standing) -> Result<Expected, NoMemory>
    ensures { IfOk result (AwaitsRoots (roots standing.now.present)) }
{
    let mut expected = Expected::make(alloc);
    for place in 0..standing.len() {
        if let Some(premise) = standing.at(place) {
            expect_root(premise, &mut expected)?;
        }
    }
    Ok(expected)
}

// Has what the premise declares to occur, if anything, stand among the rows.
fn expect_root(premise: &Premise, expected: &mut Expected) -> Result<(), NoMemory>
    ensures { OnOk result (AwaitsRoot expected.old expected.new (root_of premise.now)) }
{
    match root_name(premise) {
        Some(name) => expected.add(Origin { event: None, name }),
        None => Ok(()),
    }
}

// The name of the event, token or span that a premise declares.
fn root_name(premise: &Premise) -> Option<Name>
    ensures { option_map (λ name. At (Begin name)) result ≡ root_of premise.now }
{
    match premise {
        Premise::Event { name, .. } => Some(*name),
        Premise::Token { name, .. } => Some(*name),
        Premise::Span { name, .. } => Some(*name),
        _ => None,
    }
}

// Takes the next row, and decides what fires at events that begin before it. False where the row
// may not stand behind those so far.
fn take(
    alloc: Global,
    standing: &Standing,
    net: &DistNet,
    rules: &RulesByKind,
    checked: &mut Checked,
    row: &Occ,
) -> Result<bool, NoMemory>
    requires rules { AreRules standing.now.present rules.now }
    requires before { IsChecked standing.now.present net.now.present checked.old }
    ensures { IfOk result (Takes standing.now.present net.now.present checked.old checked.new (moment_of row.now)) }
{
    let Some(origin) = origin_of(&checked.expected, row) else {
        return Ok(false);
    };
    decide_event(alloc, standing, net, rules, checked, &origin)?;
    let Some(x) = enter_awaited(alloc, standing, net, checked, &origin)? else {
        return Ok(false);
    };
    decide_before(alloc, standing, net, rules, checked, x)?;
    Ok(true)
}

// Decides what fires at the event of an origin, and at those that begin no later.
fn decide_event(
    alloc: Global,
    standing: &Standing,
    net: &DistNet,
    rules: &RulesByKind,
    checked: &mut Checked,
    origin: &Origin,
) -> Result<(), NoMemory>
    requires rules { AreRules standing.now.present rules.now }
    requires before { IsChecked standing.now.present net.now.present checked.old }
    requires event { has_event (forest checked.old.tree) origin.now.event }
    ensures ready { OnOk result (IsReady standing.now.present net.now.present checked.new origin.now) }
    ensures tree { OnOk result (checked.new.tree ≡ checked.old.tree) }
    ensures nodes { OnOk result (checked.new.nodes ≡ checked.old.nodes) }
{
    match origin.event {
        Some(event) => {
            let date = Order {
                tree: &checked.tree,
                net,
            }
            .early(event);
            decide_through(alloc, standing, net, rules, checked, date)
        }
        None => Ok(()),
    }
}

// Enters what comes from an origin behind the rows so far, where it is to stand among the rows,
// does not stand yet, and comes after the last.
fn enter_awaited(
    alloc: Global,
    standing: &Standing,
    net: &DistNet,
    checked: &mut Checked,
    origin: &Origin,
) -> Result<Option<u32>, NoMemory>
    requires { IsReady standing.now.present net.now.present checked.old origin.now }
    ensures { IfOk result (EntersBehind standing.now.present net.now.present checked.old checked.new (comes_from (forest checked.old.tree) origin.now)) }
{
    if !checked.expected.awaits(origin) {
        return Ok(None);
    }
    let Some(x) = enter(alloc, standing, net, &mut checked.tree, origin)? else {
        return Ok(None);
    };
    if !comes_after(&checked.tree, net, checked.nodes.as_slice(), x) {
        return Ok(None);
    }
    push(&mut checked.nodes, x)?;
    checked.expected.set(origin, x);
    Ok(Some(x))
}

// Appends a number.
fn push(numbers: &mut Vec<u32>, x: u32) -> Result<(), NoMemory>
    ensures { OnOk result (numbers.new.items ≡ numbers.old.items ++ x ∷ []) }
{
    numbers.reserve(1)?;
    numbers.push_reserved(x);
    Ok(())
}

// Whether a node comes after the last of these.
fn comes_after(tree: &Tree, net: &DistNet, nodes: &[u32], x: u32) -> bool
    requires dates { IsTreeIn net.now.present tree.now }
    requires nodes { All (IsLive (forest tree.now)) nodes.now }
    requires live { IsLive (forest tree.now) x }
    ensures { IsTrue result ↔ ComesAfter net.now.present (forest tree.now) nodes.now x }
{
    match nodes.len() {
        0 => true,
        n => Order { tree, net }.cmp_order(nodes[n - 1], x).is_lt(),
    }
}

// Decides what fires at the events that begin before the row of this node and are not decided yet.
fn decide_before(
    alloc: Global,
    standing: &Standing,
    net: &DistNet,
    rules: &RulesByKind,
    checked: &mut Checked,
    x: u32,
) -> Result<(), NoMemory>
    requires rules { AreRules standing.now.present rules.now }
    requires before { IsChecked standing.now.present net.now.present checked.old }
    requires live { IsLive (forest checked.old.tree) x }
    ensures checked { OnOk result (IsChecked standing.now.present net.now.present checked.new) }
    ensures rows { OnOk result (rows_of checked.new ≡ rows_of checked.old) }
{
    let date = Order {
        tree: &checked.tree,
        net,
    }
    .early(x);
    decide_through(alloc, standing, net, rules, checked, date - 1)
}

// Decides what fires at the events that begin by this date and are not decided yet.
fn decide_through(
    alloc: Global,
    standing: &Standing,
    net: &DistNet,
    rules: &RulesByKind,
    checked: &mut Checked,
    date: i64,
) -> Result<(), NoMemory>
    requires rules { AreRules standing.now.present rules.now }
    requires before { IsTaken standing.now.present net.now.present checked.old }
    ensures { OnOk result (DecidesThrough standing.now.present net.now.present checked.old checked.new date) }
{
    while checked.decided < checked.nodes.len() {
        let order = Order {
            tree: &checked.tree,
            net,
        };
        if order.early(checked.nodes[checked.decided]) > date {
            break;
        }
        decide_next(alloc, standing, net, rules, checked)?;
    }
    Ok(())
}

// Decides what fires at the other events.
fn decide_rest(
    alloc: Global,
    standing: &Standing,
    net: &DistNet,
    rules: &RulesByKind,
    checked: &mut Checked,
) -> Result<(), NoMemory>
    requires rules { AreRules standing.now.present rules.now }
    requires before { IsTaken standing.now.present net.now.present checked.old }
    ensures decided { OnOk result (IsDecided standing.now.present net.now.present checked.new) }
    ensures rows { OnOk result (rows_of checked.new ≡ rows_of checked.old) }
{
    while checked.decided < checked.nodes.len() {
        decide_next(alloc, standing, net, rules, checked)?;
    }
    Ok(())
}

// Decides what fires at the first node where that is not decided yet.
fn decide_next(
    alloc: Global,
    standing: &Standing,
    net: &DistNet,
    rules: &RulesByKind,
    checked: &mut Checked,
) -> Result<(), NoMemory>
    requires rules { AreRules standing.now.present rules.now }
    requires before { IsTaken standing.now.present net.now.present checked.old }
    requires within { checked.old.decided < length checked.old.nodes.items }
    ensures taken { OnOk result (IsTaken standing.now.present net.now.present checked.new) }
    ensures tree { OnOk result (checked.new.tree ≡ checked.old.tree) }
    ensures nodes { OnOk result (checked.new.nodes ≡ checked.old.nodes) }
    ensures next { OnOk result (checked.new.decided ≡ checked.old.decided + 1) }
{
    let x = checked.nodes[checked.decided];
    let map = TimeMap {
        standing,
        tree: &checked.tree,
        net,
    };
    expect_effects(alloc, &map, rules, x, &mut checked.expected)?;
    checked.decided += 1;
    Ok(())
}

// Has stand among the rows what the rules bring about that fire at a node.
fn expect_effects(
    alloc: Global,
    map: &TimeMap<'_>,
    rules: &RulesByKind,
    x: u32,
    expected: &mut Expected,
) -> Result<(), NoMemory>
    requires rules { AreRules map.now.standing.now.present rules.now }
    requires seen { IsTimeMap map.now }
    requires live { IsLive (forest map.now.tree.now) x }
    ensures { OnOk result ((b : List Moment) → HasOccurrences b (forest map.now.tree.now) → AwaitsMore map.now.standing.now.present (forest map.now.tree.now) b x (rules_at map.now.standing.now.present (moment_at (forest map.now.tree.now) x)) expected.old expected.new) }
{
    for rule in rules.at(map.standing, map.tree, x) {
        expect_effect(alloc, map, x, *rule, expected)?;
    }
    Ok(())
}

// Has stand among the rows what the rule brings about at a node, if it fires.
fn expect_effect(
    alloc: Global,
    map: &TimeMap<'_>,
    x: u32,
    rule: Name,
    expected: &mut Expected,
) -> Result<(), NoMemory>
    requires seen { IsTimeMap map.now }
    requires live { IsLive (forest map.now.tree.now) x }
    requires rule { Contains (rules_at map.now.standing.now.present (moment_at (forest map.now.tree.now) x)) rule }
    ensures { OnOk result ((b : List Moment) → HasOccurrences b (forest map.now.tree.now) → AwaitsMore map.now.standing.now.present (forest map.now.tree.now) b x (rule ∷ []) expected.old expected.new) }
{
    if !does_fire(alloc, map, x, rule) {
        return Ok(());
    }
    expected.add(Origin {
        event: Some(x),
        name: rule,
    })
}

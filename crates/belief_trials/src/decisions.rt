//! What the projection of a list makes, counts and decides.
ghost use Rattle.net_theory.specs.Fits.{IsNetOf};
ghost use Rattle.tmm_model.specs.Maps.{built};
ghost use Rattle.spots.specs.Forest.{IsLive};
ghost use Rattle.spots.specs.OfLists.{HasOccurrences};
ghost use Rattle.occ_tree.specs.OfLists.{IsTreeOf};
ghost use Rattle.occ_tree.specs.Places.{forest};
ghost use Rattle.projection.specs.Kinds.{AreRules};
ghost use Rattle.projection.specs.Places.{name_at, IsRuleAt};
ghost use Rattle.std.specs.Prelude.{◌≡◌};

use crate::premises::{Premises, let_through};
use belief_list::{BeliefRow, listed};
use occ_tree::Tree;
use premise_list::Standing;
use projection::{Counter, Decision, RulesByKind, Verdict, decide, judge, rebuild};
use std::alloc::Global;
use std::test::Fail;
use supports::{Guesses, TimeMap};
use tmm_model::{Name, Stop};

/// An event lights the lamp and rings. At the ring the rule that wants the lamp on fires, and the
/// one that wants it off is blocked.
const LAMP: &[&[u8]] = &[
    b"class lamp on off",
    b"kind press",
    b"kind ring",
    b"event first press",
    b"rule lights press 1 1 on",
    b"rule rings press 2 2 ring",
    b"rule darkens ring 1 1 off if on",
    b"rule stays ring 1 1 on if off",
];

// A row of what is believed: its earliest date, and which row clips it.
type Row = (i64, Option<usize>);

/// What is believed of the lamp: the event, the lamp on until it is off, the ring, the lamp off.
const BELIEVED: &[Row] = &[(0, None), (1, Some(3)), (2, None), (3, None)];

// What a projection comes to.
#[derive(Clone, Copy)]
struct Outcome {
    // every number of a node is below it
    limit: u32,
    // the size of the map
    size: u64,
    // how many decisions it took
    made: u64,
    // how many it takes to decide and to judge each rule once more, none where one is not as is
    // believed
    decided: Option<u64>,
    // whether the rows are those that are wanted
    listed: bool,
}

// The projection of these lines.
fn project_lines(alloc: Global, lines: &[&[u8]], rows: &[Row]) -> Result<Outcome, Stop> {
    let premises = Premises::of(alloc, lines)?;
    project(alloc, &premises, rows)
}

fn project(alloc: Global, premises: &Premises, rows: &[Row]) -> Result<Outcome, Stop>
    requires { IsNetOf premises.now.list.present premises.now.net.present }
{
    let mut counter = Counter::zero();
    let projected = rebuild(alloc, &premises.list, &premises.net, &mut counter)?;
    let tree = &projected.tree;
    Ok(Outcome {
        limit: tree.limit(),
        size: projected.size,
        made: counter.value(),
        decided: decided(alloc, premises, tree),
        listed: are_listed(alloc, premises, tree, rows),
    })
}

// Whether the rows of what is believed are these.
fn are_listed(alloc: Global, premises: &Premises, tree: &Tree, want: &[Row]) -> bool
    requires seen { IsTreeOf premises.now.list.present premises.now.net.present tree.now }
    requires holds { HasOccurrences (built premises.now.list.present).believed (forest tree.now) }
{
    let map = TimeMap {
        standing: &premises.list,
        tree,
        net: &premises.net,
    };
    match listed(alloc, &map) {
        Ok(rows) => are_rows(rows.items(), want),
        Err(_) => false,
    }
}

fn are_rows(rows: &[BeliefRow], want: &[Row]) -> bool {
    if rows.len() != want.len() {
        return false;
    }
    for (row, (early, clip)) in rows.iter().zip(want) {
        if row.early != *early || row.clip != node_at(rows, *clip) {
            return false;
        }
    }
    true
}

// The node of a row.
fn node_at(rows: &[BeliefRow], place: Option<usize>) -> Option<u32> {
    Some(rows.get(place?)?.node)
}

// How many decisions it takes to decide and to judge each rule at each event, none where one fires
// there and its effect is not believed, or the other way round.
fn decided(alloc: Global, premises: &Premises, tree: &Tree) -> Option<u64>
    requires { IsTreeOf premises.now.list.present premises.now.net.present tree.now }
{
    let Ok(rules) = RulesByKind::of(alloc, &premises.list) else {
        return None;
    };
    let mut counter = Counter::zero();
    let mut guesses = Guesses::make(alloc);
    for x in 0..tree.limit() {
        if tree.is_live(x)
            && !is_decided_as_believed(premises, tree, &rules, x, &mut counter, &mut guesses)
        {
            return None;
        }
    }
    Some(counter.value())
}

// Whether the rules on the event of a node fire there just where they have an effect at it.
fn is_decided_as_believed(
    premises: &Premises,
    tree: &Tree,
    rules: &RulesByKind,
    x: u32,
    counter: &mut Counter,
    guesses: &mut Guesses,
) -> bool
    requires seen { IsTreeOf premises.now.list.present premises.now.net.present tree.now }
    requires rules { AreRules premises.now.list.present rules.now }
    requires live { IsLive (forest tree.now) x }
{
    for place in rules.at(&premises.list, tree, x) {
        let rule = rule_name(&premises.list, *place);
        let (net, list) = (&premises.net, &premises.list);
        let decision = decide(tree, net, list, x, rule, counter, guesses);
        let verdict = judge(tree, net, list, x, rule, counter, guesses);
        let fires = tree.find_effect(x, &rule).is_some();
        if fires != matches!(decision, Decision::Fires { .. })
            || fires != matches!(verdict, Verdict::Fires)
        {
            return false;
        }
    }
    true
}

// The name of the rule at a place of the list.
fn rule_name(list: &Standing, place: u32) -> Name
    requires { IsRuleAt list.now.present place }
    ensures { result ≡ name_at list.now.present place }
{
    match list.at(place as usize) {
        Some(premise) => premise.name(),
        None => unreachable!(),
    }
}

#[test]
fn no_premises_project_nothing(rt: HostRuntime) -> Result<(), Fail> {
    let found = let_through(&rt, project_lines(rt.alloc(), &[], &[]))?;
    assert_eq!(rt; (found.limit, found.size, found.made), (0, 0, 0));
    assert_eq!(rt; (found.decided, found.listed), (Some(0), true));
    Ok(())
}

#[test]
fn decisions_are_those_of_what_is_believed(rt: HostRuntime) -> Result<(), Fail> {
    let found = let_through(&rt, project_lines(rt.alloc(), LAMP, BELIEVED))?;
    assert_eq!(rt; (found.size, found.made), (12, 4));
    assert_eq!(rt; (found.decided, found.listed), (Some(8), true));
    Ok(())
}

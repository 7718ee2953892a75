// What is believed, decision by decision in the order of their dates.
ghost use Rattle.std.specs.Prelude.{◌≡◌, ℕ, ◌+◌, ◌<◌, ◌≤◌, min, length, take, map as mapped, IfOk, IfErr, OnOk};
ghost use Rattle.std.specs.List.{All};
ghost use Rattle.tmm_model.specs.Answers.{size, most_size};
ghost use Rattle.tmm_model.specs.Beliefs.{rules_at};
ghost use Rattle.tmm_model.specs.Maps.{built};
ghost use Rattle.tmm_model.specs.Moments.{After};
ghost use Rattle.dist_net.specs.Net.{Net};
ghost use Rattle.net_theory.specs.Fits.{IsNetOf};
ghost use Rattle.spots.specs.Forest.{IsLive, moment_at};
ghost use Rattle.spots.specs.OfLists.{IsForestOf, HasOccurrences};
ghost use Rattle.occ_tree.specs.Dated.{IsDatedBy};
ghost use Rattle.occ_tree.specs.OfLists.{IsTreeOf};
ghost use Rattle.occ_tree.specs.Places.{forest};
ghost use Rattle.occ_tree.specs.Standing.{present};
ghost use Rattle.projection.specs.Counted.{decisions_due};
ghost use Rattle.supports.specs.TimeMaps.{IsTimeMap};
ghost use Rattle.spots.specs.Growing.{Adds, effect_shape, MayEnter};
ghost use Rattle.projection.specs.Kinds.{AreRules};
ghost use Rattle.projection.specs.Places.{name_at, IsRuleAt};
ghost use Rattle.projection.specs.Projecting.{IsStarted, IsGrowingWith, Settles, FiresAmong, left};
ghost use Rattle.projection.specs.Queues.{Queues, weight_at, IsTooLarge};

use crate::judging::is_free;
use crate::kinds::RulesByKind;
use crate::pending::{Pending, Queue};
use crate::rule::{due_by, text_at};
use dist_net::DistNet;
use map_core::Counter;
use occ_tree::{Order, Tree};
use premise_list::Standing;
use std::alloc::Global;
use std::cmp::Reverse;
use supports::{TimeMap, add_root};
use tmm_model::{MOST_SIZE, Name, NoMemory, Premise, Refusal, Shape, Stop};

/// What is believed of a standing list.
#[derive(Drop)]
pub struct Projected {
    /// The believed occurrences.
    pub tree: Tree,
    /// The size of the map.
    pub size: u64,
}

// What a rule brings about, by the class of its effect, which a kind hasn't.
fn effect_shape(class: &Option<Name>) -> Shape
    ensures { result ≡ effect_shape class.now }
{
    match class {
        Some(_) => Shape::Persistence,
        None => Shape::Event,
    }
}

// Adds what the rule at this place of the list brings about at the event of a node, and answers its
// number.
fn add_effect(
    alloc: Global,
    standing: &Standing,
    tree: &mut Tree,
    trigger: u32,
    place: u32,
) -> Result<u32, NoMemory>
    requires seen { (net : Net) × IsForestOf standing.now.present net (forest tree.old) }
    requires trigger { IsLive (forest tree.old) trigger }
    requires place { IsRuleAt standing.now.present place }
    requires enters { MayEnter standing.now.present (forest tree.old) trigger (name_at standing.now.present place) }
    ensures adds { IfOk result (λ x. (net : Net) → IsForestOf standing.now.present net (forest tree.old) → Adds standing.now.present net.names (forest tree.old) (forest tree.new) x (After (moment_at (forest tree.old) trigger) (name_at standing.now.present place))) }
    ensures dated { OnOk result ((net : Net) → IsTreeOf standing.now.present net tree.old → IsDatedBy net (present tree.new)) }
{
    // It tells the proof that names are distinct.
    standing.invariants();
    let Some(
        Premise::Rule {
            name,
            lo,
            hi,
            effect,
            ..
        },
    ) = standing.at(place as usize)
    else {
        unreachable!()
    };
    let class = standing.class_of(*effect);
    let shape = effect_shape(&class);
    tree.insert_child(alloc, trigger, *name, *lo, *hi, *effect, class, shape)
}

// Lets the rules at a node wait for their dates; these are their places in the list.
fn wait_for(map: &TimeMap<'_>, places: &[u32], queue: &mut Queue, x: u32) -> Result<(), NoMemory>
    requires seen { IsTimeMap map.now }
    requires live { IsLive (forest map.now.tree.now) x }
    requires rules { mapped (name_at map.now.standing.now.present) places.now ≡ rules_at map.now.standing.now.present (moment_at (forest map.now.tree.now) x) }
    requires places { All (IsRuleAt map.now.standing.now.present) places.now }
    ensures { OnOk result (Queues map.now.standing.now.present (forest map.now.tree.now) x (rules_at map.now.standing.now.present (moment_at (forest map.now.tree.now) x)) queue.old queue.new) }
{
    let horizon = map.standing.horizon();
    let order = Order {
        tree: map.tree,
        net: map.net,
    };
    let early = order.early(x);
    for place in places {
        let text = text_at(map.standing, *place);
        if let Some(due) = due_by(horizon, early, text.lo) {
            queue.push(Pending {
                due: Reverse(due),
                trigger: x,
                rule: *place,
            })?;
        }
    }
    Ok(())
}

// The occurrences that have entered, the rules on them that wait, and the size so far.
#[derive(Drop)]
struct Growing {
    tree: Tree,
    queue: Queue,
    size: u64,
}

// Counts the occurrence at a node, and lets the rules on it wait for their dates.
fn count_in(
    standing: &Standing,
    net: &DistNet,
    rules: &RulesByKind,
    growing: &mut Growing,
    x: u32,
) -> Result<(), Stop>
    requires seen { IsTreeOf standing.now.present net.now.present growing.old.tree }
    requires live { IsLive (forest growing.old.tree) x }
    requires rules { AreRules standing.now.present rules.now }
    requires size { growing.old.size ≤ most_size }
    ensures tree { OnOk result (growing.new.tree ≡ growing.old.tree) }
    ensures size { OnOk result (growing.new.size ≡ growing.old.size + weight_at standing.now.present (forest growing.old.tree) x) }
    ensures small { OnOk result (growing.old.size + weight_at standing.now.present (forest growing.old.tree) x ≤ most_size) }
    ensures queued { OnOk result (Queues standing.now.present (forest growing.old.tree) x (rules_at standing.now.present (moment_at (forest growing.old.tree) x)) growing.old.queue growing.new.queue) }
    ensures stops { IfErr result (IsTooLarge (growing.old.size + weight_at standing.now.present (forest growing.old.tree) x)) }
{
    let places = rules.at(standing, &growing.tree, x);
    let row = growing.tree.row(x);
    let size = growing.size + (1 + u64::from(row.rules) + places.len() as u64);
    if size > MOST_SIZE {
        return Err(Stop::Refused(Refusal::LimitSize));
    }
    growing.size = size;
    let map = TimeMap {
        standing,
        tree: &growing.tree,
        net,
    };
    match wait_for(&map, places, &mut growing.queue, x) {
        Ok(()) => Ok(()),
        Err(_) => Err(Stop::NoMemory),
    }
}

// Adds what the premise at this place declares to occur.
fn declare(
    alloc: Global,
    standing: &Standing,
    net: &DistNet,
    rules: &RulesByKind,
    growing: &mut Growing,
    place: usize,
) -> Result<(), Stop>
    requires network { IsNetOf standing.now.present net.now.present }
    requires rules { AreRules standing.now.present rules.now }
    requires place { place < length standing.now.present.premises }
    requires before { IsStarted standing.now.present net.now.present (take place standing.now.present.premises) (forest growing.old.tree) growing.old.queue growing.old.size }
    requires dated { IsDatedBy net.now.present (present growing.old.tree) }
    ensures after { OnOk result (IsStarted standing.now.present net.now.present (take (place + 1) standing.now.present.premises) (forest growing.new.tree) growing.new.queue growing.new.size) }
    ensures dated { OnOk result (IsDatedBy net.now.present (present growing.new.tree)) }
    ensures stops { IfErr result (IsTooLarge (size (built standing.now.present))) }
{
    let Some(premise) = standing.at(place) else {
        unreachable!()
    };
    match add_root(alloc, standing, net, &mut growing.tree, premise) {
        Ok(Some(x)) => count_in(standing, net, rules, growing, x),
        Ok(None) => Ok(()),
        Err(_) => Err(Stop::NoMemory),
    }
}

// Decides what is due first of what waited, and adds the effect where the rule fires.
fn settle(
    alloc: Global,
    standing: &Standing,
    net: &DistNet,
    rules: &RulesByKind,
    growing: &mut Growing,
    pending: &Pending,
    counter: &mut Counter,
) -> Result<(), Stop>
    requires rules { AreRules standing.now.present rules.now }
    requires before { (made : ℕ) × IsGrowingWith standing.now.present net.now.present (forest growing.old.tree) pending.now growing.old.queue growing.old.size made }
    requires dated { IsDatedBy net.now.present (present growing.old.tree) }
    ensures after { OnOk result (Settles standing.now.present net.now.present growing.old pending.now growing.new) }
    ensures nearer { OnOk result (left growing.new.queue growing.new.size ≤ left growing.old.queue growing.old.size) }
    ensures dated { OnOk result (IsDatedBy net.now.present (present growing.new.tree)) }
    ensures stops { IfErr result (IsTooLarge (size (built standing.now.present))) }
    ensures counted { counter.new ≡ min (counter.old + 1) 18446744073709551615 }
    ensures kept { counter.old ≤ counter.new }
{
    counter.raise();
    let (trigger, rule) = (pending.trigger, pending.rule);
    let map = TimeMap {
        standing,
        tree: &growing.tree,
        net,
    };
    if is_free(alloc, &map, trigger, rule) {
        bring_about(alloc, standing, net, rules, growing, pending)
    } else {
        Ok(())
    }
}

// Adds the effect of a rule that fires.
fn bring_about(
    alloc: Global,
    standing: &Standing,
    net: &DistNet,
    rules: &RulesByKind,
    growing: &mut Growing,
    pending: &Pending,
) -> Result<(), Stop>
    requires rules { AreRules standing.now.present rules.now }
    requires before { (made : ℕ) × IsGrowingWith standing.now.present net.now.present (forest growing.old.tree) pending.now growing.old.queue growing.old.size made }
    requires fires { FiresAmong standing.now.present (forest growing.old.tree) pending.now }
    requires dated { IsDatedBy net.now.present (present growing.old.tree) }
    ensures after { OnOk result (Settles standing.now.present net.now.present growing.old pending.now growing.new) }
    ensures nearer { OnOk result (left growing.new.queue growing.new.size ≤ left growing.old.queue growing.old.size) }
    ensures dated { OnOk result (IsDatedBy net.now.present (present growing.new.tree)) }
    ensures stops { IfErr result (IsTooLarge (size (built standing.now.present))) }
{
    match add_effect(
        alloc,
        standing,
        &mut growing.tree,
        pending.trigger,
        pending.rule,
    ) {
        Ok(x) => count_in(standing, net, rules, growing, x),
        Err(_) => Err(Stop::NoMemory),
    }
}

/// The tree of the believed occurrences, and the size of the map. Where that would be more than
/// 100,000 it is refused. As many decisions are counted, on from those before, as are due by the
/// horizon.
pub fn rebuild(
    alloc: Global,
    standing: &Standing,
    net: &DistNet,
    counter: &mut Counter,
) -> Result<Projected, Stop>
    requires network { IsNetOf standing.now.present net.now.present }
    ensures seen { IfOk result (λ projected. IsTreeOf standing.now.present net.now.present projected.tree) }
    ensures holds { IfOk result (λ projected. HasOccurrences (built standing.now.present).believed (forest projected.tree)) }
    ensures size { IfOk result (λ projected. projected.size ≡ size (built standing.now.present)) }
    ensures small { IfOk result (λ projected. projected.size ≤ most_size) }
    ensures stops { IfErr result (IsTooLarge (size (built standing.now.present))) }
    ensures counted { OnOk result (counter.new ≡ min (counter.old + decisions_due standing.now.present) 18446744073709551615) }
    ensures kept { counter.old ≤ counter.new }
{
    // It tells the proof that no count is above the greatest.
    let _ = counter.value();
    let Ok(rules) = RulesByKind::of(alloc, standing) else {
        return Err(Stop::NoMemory);
    };
    let mut growing = Growing {
        tree: Tree::make(alloc),
        queue: Queue::make(alloc),
        size: 0,
    };
    for place in 0..standing.len() {
        declare(alloc, standing, net, &rules, &mut growing, place)?;
    }
    while let Some(pending) = growing.queue.pop() {
        settle(
            alloc,
            standing,
            net,
            &rules,
            &mut growing,
            &pending,
            counter,
        )?;
    }
    Ok(Projected {
        tree: growing.tree,
        size: growing.size,
    })
}

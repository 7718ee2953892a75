// A row that is to stand behind others.
ghost use Rattle.std.specs.Prelude.{◌≡◌, List, IfOk, OnOk};
ghost use Rattle.std.specs.List.{Contains};
ghost use Rattle.tmm_model.specs.Beliefs.{rules_at};
ghost use Rattle.tmm_model.specs.Moments.{Moment, At, After, moment_of};
ghost use Rattle.tmm_model.specs.declared.point.PointName.TheVariants.{Begin};
ghost use Rattle.dist_net.specs.Net.{Net};
ghost use Rattle.spots.specs.Forest.{Forest, IsLive, moment_at};
ghost use Rattle.spots.specs.OfLists.{IsForestOf};
ghost use Rattle.occ_tree.specs.Dated.{IsDatedBy};
ghost use Rattle.occ_tree.specs.OfLists.{IsTreeOf};
ghost use Rattle.occ_tree.specs.Places.{forest};
ghost use Rattle.occ_tree.specs.Standing.{present};
ghost use Rattle.spots.specs.Growing.{Adds, effect_shape};
ghost use Rattle.just_check.specs.Checking.{Joins, AreSoFar, EntersAs, IsNoNode};
ghost use Rattle.just_check.specs.Origins.{Knows, IsOriginOf, comes_from, has_event};

use crate::expected::{Expected, Origin};
use dist_net::DistNet;
use occ_tree::Tree;
use premise_list::Standing;
use std::alloc::Global;
use supports::add_root;
use tmm_model::{Name, NoMemory, Occ, Premise, Shape};

// What a row comes from, none where the event that is to bring it about does not stand.
pub(crate) fn origin_of(expected: &Expected, row: &Occ) -> Option<Origin>
    ensures { (f : Forest) (b : List Moment) → Knows f b expected.now → IsOriginOf f b (moment_of row.now) result }
{
    match row.rules.items().split_last() {
        Some((rule, way)) => Some(Origin {
            event: Some(expected.find(row.root, way)?),
            name: *rule,
        }),
        None => Some(Origin {
            event: None,
            name: row.root,
        }),
    }
}

// Enters what comes from an origin into the tree of the rows before it, and answers its number;
// none only where it does not join them.
pub(crate) fn enter(
    alloc: Global,
    standing: &Standing,
    net: &DistNet,
    tree: &mut Tree,
    origin: &Origin,
) -> Result<Option<u32>, NoMemory>
    requires joins { (b : List Moment) × AreSoFar standing.now.present net.now.present (forest tree.old) b × Joins standing.now.present b (comes_from (forest tree.old) origin.now) }
    requires event { has_event (forest tree.old) origin.now.event }
    ensures enters { IfOk result (λ x. (b : List Moment) → AreSoFar standing.now.present net.now.present (forest tree.old) b → EntersAs standing.now.present net.now.present.names b (comes_from (forest tree.old) origin.now) (forest tree.old) (forest tree.new) x) }
    ensures dated { OnOk result (IsDatedBy net.now.present (present tree.old) → IsDatedBy net.now.present (present tree.new)) }
{
    match origin.event {
        Some(event) => enter_effect(alloc, standing, net, tree, event, origin.name),
        None => enter_root(alloc, standing, net, tree, origin.name),
    }
}

// Enters what the premise of this name declares to occur.
fn enter_root(
    alloc: Global,
    standing: &Standing,
    net: &DistNet,
    tree: &mut Tree,
    name: Name,
) -> Result<Option<u32>, NoMemory>
    requires before { (b : List Moment) × AreSoFar standing.now.present net.now.present (forest tree.old) b }
    requires new { IsNoNode (forest tree.old) (At (Begin name)) }
    ensures enters { IfOk result (λ x. (b : List Moment) → AreSoFar standing.now.present net.now.present (forest tree.old) b → EntersAs standing.now.present net.now.present.names b (At (Begin name)) (forest tree.old) (forest tree.new) x) }
    ensures dated { OnOk result (IsDatedBy net.now.present (present tree.old) → IsDatedBy net.now.present (present tree.new)) }
{
    standing.invariants();
    match standing.get(name) {
        Some(premise) => add_root(alloc, standing, net, tree, premise),
        None => Ok(None),
    }
}

// Enters what the rule of this name brings about at the event of a node.
fn enter_effect(
    alloc: Global,
    standing: &Standing,
    net: &DistNet,
    tree: &mut Tree,
    x: u32,
    rule: Name,
) -> Result<Option<u32>, NoMemory>
    requires seen { IsForestOf standing.now.present net.now.present (forest tree.old) }
    requires live { IsLive (forest tree.old) x }
    requires rule { Contains (rules_at standing.now.present (moment_at (forest tree.old) x)) rule }
    requires new { IsNoNode (forest tree.old) (After (moment_at (forest tree.old) x) rule) }
    ensures enters { IfOk result (λ y. (b : List Moment) → AreSoFar standing.now.present net.now.present (forest tree.old) b → EntersAs standing.now.present net.now.present.names b (After (moment_at (forest tree.old) x) rule) (forest tree.old) (forest tree.new) y) }
    ensures dated { OnOk result (IsDatedBy net.now.present (present tree.old) → IsDatedBy net.now.present (present tree.new)) }
{
    Ok(Some(add_effect(alloc, standing, tree, x, rule)?))
}

// The most rules that a tree has on the way to a node. No horizon of a map leads so far.
const MOST_RULES: u32 = 100_000;

// Adds what the rule of this name brings about at the event of a node, and answers its number.
fn add_effect(
    alloc: Global,
    standing: &Standing,
    tree: &mut Tree,
    x: u32,
    rule: Name,
) -> Result<u32, NoMemory>
    requires seen { (net : Net) × IsForestOf standing.now.present net (forest tree.old) }
    requires live { IsLive (forest tree.old) x }
    requires rule { Contains (rules_at standing.now.present (moment_at (forest tree.old) x)) rule }
    requires new { IsNoNode (forest tree.old) (After (moment_at (forest tree.old) x) rule) }
    ensures adds { IfOk result (λ y. (net : Net) → IsForestOf standing.now.present net (forest tree.old) → Adds standing.now.present net.names (forest tree.old) (forest tree.new) y (After (moment_at (forest tree.old) x) rule)) }
    ensures dated { OnOk result ((net : Net) → IsTreeOf standing.now.present net tree.old → IsDatedBy net (present tree.new)) }
{
    standing.invariants();
    if tree.row(x).rules >= MOST_RULES {
        return Err(NoMemory);
    }
    let Some(Premise::Rule { lo, hi, effect, .. }) = standing.get(rule) else {
        unreachable!()
    };
    let class = standing.class_of(*effect);
    let shape = effect_shape(&class);
    tree.insert_child(alloc, x, rule, *lo, *hi, *effect, class, shape)
}

// What a rule brings about, by the class of its effect, which a kind hasn't.
fn effect_shape(class: &Option<Name>) -> Shape
    ensures { result ≡ effect_shape class.now }
{
    match class {
        Some(_) => Shape::Persistence,
        None => Shape::Event,
    }
}

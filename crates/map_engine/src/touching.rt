// Which nodes an edit may have touched.
ghost use Rattle.std.specs.Prelude.{◌≡◌, ℕ, List, Some, MatchOption, IfOk, OnOk};
ghost use Rattle.std.specs.List.{Contains};
ghost use Rattle.tmm_model.specs.declared.point.PointName.TheVariants.{Begin};
ghost use Rattle.tmm_model.specs.Edits.{next_list};
ghost use Rattle.tmm_model.specs.Moments.{Moment, At, moment_of};
ghost use Rattle.tmm_model.specs.Standing.{Standing as AStanding};
ghost use Rattle.list_theory.proofs.Elements.{In};
ghost use Rattle.dist_net.specs.Net.{Net};
ghost use Rattle.spots.specs.Forest.{Member, member, IsOnce};
ghost use Rattle.spots.specs.Spots.{AreTokens};
ghost use Rattle.occ_tree.specs.Places.{forest};
ghost use Rattle.occ_tree.specs.Standing.{committed};
ghost use Rattle.occ_tree.specs.Touched.{IsAtMoved};
ghost use Rattle.supports.specs.Apart.{AreOthersApart};
ghost use Rattle.supports.specs.Edited.{old_forest};
ghost use Rattle.supports.specs.TimeMaps.{IsTimeMap};
ghost use Rattle.revisions.specs.Ruling.{is_ruling};
ghost use Rattle.joined.specs.Netted.{IsCurrent};
ghost use Rattle.belief_net.specs.MarkLaws.{added_by as name_added};
ghost use Rattle.belief_turns.specs.Numbered.{left_under};
ghost use Rattle.belief_turns.specs.Turning.{rows_of, IsFit};
ghost use Rattle.belief_table.specs.declared.dated.DatedOcc.{DatedOcc as ADatedOcc};
ghost use Rattle.map_engine.specs.Ruled.{HasRuled};
ghost use Rattle.map_engine.specs.Touching.{HasNodeOf, entered_of, TakesIn};

use crate::at_node::is_at;
use crate::rival_classes::with_rivals;
use belief_net::{BeliefNet, DatedOcc, Told};
use occ_tree::{Touched, Tree};
use std::alloc::Global;
use supports::TimeMap;
use tmm_model::{Edit, Name, NoMemory, Occ, Seq};

// The roots of these names.
pub(crate) fn roots_named(alloc: Global, tree: &Tree, names: &[Name]) -> Result<Vec<u32>, NoMemory>
    requires { IsOnce (forest tree.now) }
    ensures { IfOk result (λ found. (name : List ℕ) → In name names.now → HasNodeOf (forest tree.now) (At (Begin name)) found.items) }
{
    let mut found = Vec::new(alloc);
    for name in names {
        push_root(alloc, tree, *name, &mut found)?;
    }
    Ok(found)
}

// All that an edit may have touched: nodes that entered, left or moved, and the classes of tokens,
// with those of which other tokens contradict theirs; and these other nodes, which are the roots
// that are gone, and those on which the rules may have changed.
pub(crate) fn touched(
    alloc: Global,
    edit: &Edit,
    map: &TimeMap<'_>,
    told: &Told,
    others: &[u32],
) -> Result<Touched, NoMemory>
    requires seen { IsTimeMap map.now }
    ensures takes { IfOk result (λ found. TakesIn (forest map.now.tree.now) told.now (name_added edit.now) others.now found.nodes.items) }
    ensures moved { IfOk result (λ found. (x : ℕ) (m : Member) → member (forest map.now.tree.now) x ≡ Some m → IsAtMoved map.now.net.now.moved m → Contains found.nodes.items x) }
    ensures classes { IfOk result (λ found. AreOthersApart map.now.standing.now map.now.net.now map.now.tree.now found.classes.items) }
    ensures before { IfOk result (λ found. (class : List ℕ) → AreTokens (old_forest map.now.tree.now) class ((committed map.now.tree.now).tokens class)) }
{
    let moved = map.tree.touched(alloc, map.net)?;
    let mut nodes = touched_nodes(alloc, map.tree, edit, told, others)?;
    push_numbers(moved.nodes.as_slice(), &mut nodes)?;
    let classes = with_rivals(alloc, map.standing, moved.classes)?;
    Ok(Touched { nodes, classes })
}

// The nodes of what an update tells as entered, and of the root that the edit adds; those of what
// left; and these others.
fn touched_nodes(
    alloc: Global,
    tree: &Tree,
    edit: &Edit,
    told: &Told,
    others: &[u32],
) -> Result<Vec<u32>, NoMemory>
    requires { IsOnce (forest tree.now) }
    ensures { IfOk result (λ found. TakesIn (forest tree.now) told.now (name_added edit.now) others.now found.items) }
{
    let mut found = Vec::new(alloc);
    push_numbers(others, &mut found)?;
    push_left(told.left.items(), &mut found)?;
    push_entered(tree, told.entered.items(), &mut found)?;
    push_added(alloc, tree, edit, &mut found)?;
    Ok(found)
}

// Appends the nodes on which the edit may have changed the rules, where these nodes and decisions
// are those of the list that it leaves.
pub(crate) fn push_ruled(
    alloc: Global,
    edit: &Edit,
    nodes: &BeliefNet,
    ruling: bool,
    found: &mut Vec<u32>,
) -> Result<(), NoMemory>
    requires fit { (s : AStanding) × (net : Net) × IsFit s net nodes.now }
    ensures kept { OnOk result ((x : ℕ) → Contains found.old.items x → Contains found.new.items x) }
    ensures pushed { OnOk result ((s : AStanding) (net : Net) → ruling ≡ is_ruling s.premises edit.now → IsCurrent (next_list s edit.now) net (forest nodes.now.tree) (rows_of nodes.now)
        → HasRuled (forest nodes.now.tree) s.premises edit.now found.new.items) }
{
    if !ruling {
        return Ok(());
    }
    let ruled = ruled_nodes(alloc, edit, nodes)?;
    push_numbers(ruled.as_slice(), found)
}

// The events of the kind of the rule that the edit adds; or all nodes, where rules may have fallen
// with what it erased, of whatever kinds they were.
fn ruled_nodes(alloc: Global, edit: &Edit, nodes: &BeliefNet) -> Result<Vec<u32>, NoMemory>
    requires fit { (s : AStanding) × (net : Net) × IsFit s net nodes.now }
    ensures { IfOk result (λ found. (s : AStanding) (net : Net) → IsCurrent (next_list s edit.now) net (forest nodes.now.tree) (rows_of nodes.now)
        → HasRuled (forest nodes.now.tree) s.premises edit.now found.items) }
{
    match edit {
        Edit::Add(premise) => nodes.events_of_rule(alloc, premise.name()),
        Edit::Erase(_) | Edit::Horizon(_) | Edit::Upgrade => nodes.tree().numbers(alloc),
    }
}

// Appends the root that the edit adds, if it adds one.
fn push_added(alloc: Global, tree: &Tree, edit: &Edit, found: &mut Vec<u32>) -> Result<(), NoMemory>
    requires { IsOnce (forest tree.now) }
    ensures kept { OnOk result ((x : ℕ) → Contains found.old.items x → Contains found.new.items x) }
    ensures pushed { OnOk result (MatchOption (name_added edit.now) (Unit {0}) (λ name. HasNodeOf (forest tree.now) (At (Begin name)) found.new.items)) }
{
    match edit {
        Edit::Add(premise) => push_root(alloc, tree, premise.name(), found),
        Edit::Erase(_) | Edit::Horizon(_) | Edit::Upgrade => Ok(()),
    }
}

// Appends these numbers.
fn push_numbers(numbers: &[u32], found: &mut Vec<u32>) -> Result<(), NoMemory>
    ensures kept { OnOk result ((x : ℕ) → Contains found.old.items x → Contains found.new.items x) }
    ensures pushed { OnOk result ((x : ℕ) → Contains numbers.now x → Contains found.new.items x) }
{
    match found.extend_from_slice(numbers) {
        Ok(()) => Ok(()),
        Err(_) => Err(NoMemory),
    }
}

// Appends the numbers that nodes of what left had.
fn push_left(left: &[DatedOcc], found: &mut Vec<u32>) -> Result<(), NoMemory>
    ensures kept { OnOk result ((x : ℕ) → Contains found.old.items x → Contains found.new.items x) }
    ensures pushed { OnOk result ((x : ℕ) (k : Moment) → In (x, k) (left_under left.now) → Contains found.new.items x) }
{
    for gone in left {
        push(gone.node, found)?;
    }
    Ok(())
}

// Appends the nodes of what entered.
fn push_entered(tree: &Tree, entered: &[DatedOcc], found: &mut Vec<u32>) -> Result<(), NoMemory>
    requires { IsOnce (forest tree.now) }
    ensures kept { OnOk result ((x : ℕ) → Contains found.old.items x → Contains found.new.items x) }
    ensures pushed { OnOk result ((m : ADatedOcc) → Contains entered.now m → HasNodeOf (forest tree.now) (moment_of m.occ) found.new.items) }
{
    for new in entered {
        push_occ(tree, new, found)?;
    }
    Ok(())
}

// Appends the node of what entered, if it stays: it is mostly the node that it had then.
fn push_occ(tree: &Tree, new: &DatedOcc, found: &mut Vec<u32>) -> Result<(), NoMemory>
    requires { IsOnce (forest tree.now) }
    ensures kept { OnOk result ((x : ℕ) → Contains found.old.items x → Contains found.new.items x) }
    ensures pushed { OnOk result (HasNodeOf (forest tree.now) (moment_of new.now.occ) found.new.items) }
{
    if is_at(tree, new.node, &new.occ) {
        push(new.node, found)
    } else {
        push_node(tree, &new.occ, found)
    }
}

// Appends the root of this name, if there is one.
fn push_root(alloc: Global, tree: &Tree, name: Name, found: &mut Vec<u32>) -> Result<(), NoMemory>
    requires { IsOnce (forest tree.now) }
    ensures kept { OnOk result ((x : ℕ) → Contains found.old.items x → Contains found.new.items x) }
    ensures pushed { OnOk result (HasNodeOf (forest tree.now) (At (Begin name)) found.new.items) }
{
    let root = Occ {
        root: name,
        rules: Seq::make(alloc),
    };
    push_node(tree, &root, found)
}

// Appends the node of an occurrence, if there is one.
fn push_node(tree: &Tree, occ: &Occ, found: &mut Vec<u32>) -> Result<(), NoMemory>
    requires { IsOnce (forest tree.now) }
    ensures kept { OnOk result ((x : ℕ) → Contains found.old.items x → Contains found.new.items x) }
    ensures pushed { OnOk result (HasNodeOf (forest tree.now) (moment_of occ.now) found.new.items) }
{
    match tree.find(occ) {
        Some(x) => push(x, found),
        None => Ok(()),
    }
}

// Appends a number.
fn push(x: u32, found: &mut Vec<u32>) -> Result<(), NoMemory>
    ensures kept { OnOk result ((y : ℕ) → Contains found.old.items y → Contains found.new.items y) }
    ensures pushed { OnOk result (Contains found.new.items x) }
{
    match found.push(x) {
        Ok(()) => Ok(()),
        Err(_) => Err(NoMemory),
    }
}

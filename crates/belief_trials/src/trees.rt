//! A root that comes and goes, and what two trees have in common.
ghost use Rattle.std.specs.Prelude.{◌≡◌, ◌≢◌, ℕ, [], None, Some, IsTrue, IfOk};
ghost use Rattle.tmm_model.specs.Names.{is_name};
ghost use Rattle.tmm_model.specs.Standing.{empty_list};
ghost use Rattle.net_theory.specs.Fits.{IsNetOf};
ghost use Rattle.spots.specs.Forest.{Member, IsLive, IsTrigger};
ghost use Rattle.spots.specs.OfLists.{HasList};
ghost use Rattle.occ_tree.specs.Standing.{present, forest};

use crate::names::name;
use crate::premises::bare_net;
use dist_net::DistNet;
use occ_tree::{ByName, Tree};
use std::alloc::Global;
use std::process::Abort;
use std::test::Fail;
use tmm_model::{Bound, Name, NoMemory, Shape};

// Adds an event to a tree without nodes.
fn add_event(alloc: Global, tree: &mut Tree, word: Name) -> Result<u32, NoMemory>
    requires none { (x : ℕ) → forest (present tree.old) x ≡ None }
    requires word { IsTrue (is_name word) }
    ensures { IfOk result (λ event. IsLive (forest (present tree.new)) event) }
{
    tree.insert_root(alloc, word, 1, None, word, None, Shape::Event, 5)
}

// Whether a node is there to which no rule leads.
fn is_root(tree: &Tree, x: u32) -> bool
    ensures { IsTrue result → (m : Member) × (forest (present tree.now) x ≡ Some m) × (m.links ≡ []) }
{
    tree.is_live(x) && tree.row(x).rules == 0
}

// Whether a node is such an event, and this rule leads to nothing from it.
fn is_trigger(tree: &Tree, x: u32, rule: &Name) -> bool
    ensures { IsTrue result → (m : Member) × (forest (present tree.now) x ≡ Some m) × IsTrigger (forest (present tree.now)) m rule.now }
{
    if !is_root(tree, x) {
        return false;
    }
    match tree.row(x).shape {
        Shape::Event => match tree.find_effect(x, rule) {
            Some(_) => false,
            None => true,
        },
        _ => false,
    }
}

// Adds an event that a rule leads to from such an event.
fn add_effect(
    rt: &impl Abort,
    alloc: Global,
    tree: &mut Tree,
    event: u32,
    rule: Name,
) -> Result<u32, NoMemory>
    requires word { IsTrue (is_name rule) }
{
    assert!(rt; is_trigger(tree, event, &rule));
    tree.insert_child(
        alloc,
        event,
        rule,
        1,
        Bound::Finite(2),
        rule,
        None,
        Shape::Event,
    )
}

// A root is there, is the first and is found by its occurrence, until a rollback.
fn root_comes_and_goes(rt: &impl Abort, alloc: Global, tree: &mut Tree) -> Result<(), NoMemory>
    requires { (x : ℕ) → forest (present tree.old) x ≡ None }
{
    let event = add_event(alloc, tree, name("press"))?;
    let occ = tree.occ_of(alloc, event)?;
    assert_eq!(rt; tree.row(event).root, event);
    assert_eq!(rt;
        (tree.first_root(), tree.find(&occ)),
        (Some(event), Some(event))
    );
    tree.rollback();
    assert!(rt; !tree.is_live(event));
    assert_eq!(rt; (tree.first_root(), tree.find(&occ)), (None, None));
    Ok(())
}

#[test]
fn a_new_root_goes_with_a_rollback(rt: HostRuntime) -> Result<(), Fail> {
    let mut tree = Tree::make(rt.alloc());
    root_comes_and_goes(&rt, rt.alloc(), &mut tree)?;
    Ok(())
}

// A root that was not committed stays in a copy where the tree is rolled back, till the copy is too.
fn root_stays_in_copy(rt: &impl Abort, alloc: Global, tree: &mut Tree) -> Result<(), NoMemory>
    requires { (x : ℕ) → forest (present tree.old) x ≡ None }
{
    let event = add_event(alloc, tree, name("press"))?;
    let mut copy = tree.copy(alloc)?;
    tree.rollback();
    assert_eq!(rt; (tree.first_root(), copy.first_root()), (None, Some(event)));
    copy.rollback();
    assert_eq!(rt; copy.first_root(), None);
    Ok(())
}

#[test]
fn a_copy_of_a_tree_changes_on_its_own(rt: HostRuntime) -> Result<(), Fail> {
    let mut tree = Tree::make(rt.alloc());
    root_stays_in_copy(&rt, rt.alloc(), &mut tree)?;
    Ok(())
}

// Two roots, and what a rule of the name of the second leads to from the first.
#[derive(Clone, Copy)]
struct Sample {
    first: u32,
    second: u32,
    effect: u32,
}

fn add_sample(
    rt: &impl Abort,
    alloc: Global,
    tree: &mut Tree,
    first: Name,
    second: Name,
) -> Result<Sample, NoMemory>
    requires none { (x : ℕ) → forest (present tree.old) x ≡ None }
    requires first { IsTrue (is_name first) }
    requires second { IsTrue (is_name second) }
    requires differ { first ≢ second }
{
    let event = tree.insert_root(alloc, first, 1, None, first, None, Shape::Event, 5)?;
    let other = tree.insert_root(alloc, second, 2, None, first, None, Shape::Event, 5)?;
    let effect = add_effect(rt, alloc, tree, event, second)?;
    Ok(Sample {
        first: event,
        second: other,
        effect,
    })
}

// The number among the nodes of one tree of what is node `x` of another.
fn same(rt: &impl Abort, index: &ByName<'_>, other: &Tree, x: u32) -> Option<u32> {
    assert!(rt; other.is_live(x));
    index.find_same(other, x)
}

// What is found by its names in a tree of two roots: in the other the names of the roots are
// exchanged.
fn are_found(rt: &impl Abort, alloc: Global, one: &mut Tree, two: &mut Tree) -> Result<(), NoMemory>
    requires one { (x : ℕ) → forest (present one.old) x ≡ None }
    requires two { (x : ℕ) → forest (present two.old) x ≡ None }
{
    let press = name("press");
    let ring = name("ring");
    assert!(rt; press != ring);
    let here = add_sample(rt, alloc, one, press, ring)?;
    let there = add_sample(rt, alloc, two, ring, press)?;
    let index = ByName::of(alloc, two)?;
    assert_eq!(rt; same(rt, &index, one, here.first), Some(there.second));
    assert_eq!(rt; same(rt, &index, one, here.second), Some(there.first));
    assert_eq!(rt; same(rt, &index, one, here.effect), None);
    assert_eq!(rt; same(rt, &index, two, there.effect), Some(there.effect));
    Ok(())
}

// The same of a tree and another that has no other use.
fn are_found_from(rt: &impl Abort, alloc: Global, one: &mut Tree) -> Result<(), NoMemory>
    requires { (x : ℕ) → forest (present one.old) x ≡ None }
{
    let mut two = Tree::make(alloc);
    are_found(rt, alloc, one, &mut two)
}

#[test]
fn nodes_of_another_tree_are_found_by_their_names(rt: HostRuntime) -> Result<(), Fail> {
    let mut one = Tree::make(rt.alloc());
    are_found_from(&rt, rt.alloc(), &mut one)?;
    Ok(())
}

// An effect is found by its occurrence, and all numbers are told.
fn are_told(rt: &impl Abort, alloc: Global, tree: &mut Tree) -> Result<(), NoMemory>
    requires { (x : ℕ) → forest (present tree.old) x ≡ None }
{
    let press = name("press");
    let ring = name("ring");
    assert!(rt; press != ring);
    let sample = add_sample(rt, alloc, tree, press, ring)?;
    let numbers = tree.numbers(alloc)?;
    let want = [sample.first, sample.second, sample.effect];
    assert_eq!(rt; numbers.as_slice(), want.as_slice());
    assert!(rt; tree.is_live(sample.effect));
    let occ = tree.occ_of(alloc, sample.effect)?;
    let index = ByName::of(alloc, tree)?;
    assert_eq!(rt; index.find(&occ), Some(sample.effect));
    Ok(())
}

#[test]
fn an_occurrence_is_found_by_its_names(rt: HostRuntime) -> Result<(), Fail> {
    let mut tree = Tree::make(rt.alloc());
    are_told(&rt, rt.alloc(), &mut tree)?;
    Ok(())
}

// How many nodes and classes are touched since the last commit.
fn touched(alloc: Global, tree: &Tree, net: &DistNet) -> Result<(usize, usize), NoMemory>
    requires { HasList net.now.present (forest (present tree.now)) }
{
    let touched = tree.touched(alloc, net)?;
    Ok((touched.nodes.len(), touched.classes.len()))
}

// The same, where there never was a node.
fn touched_at_first(alloc: Global, net: &DistNet) -> Result<(usize, usize), NoMemory>
    requires { IsNetOf empty_list net.now.present }
{
    let tree = Tree::make(alloc);
    touched(alloc, &tree, net)
}

#[test]
fn nothing_is_touched_at_first(rt: HostRuntime) -> Result<(), Fail> {
    let net = bare_net(rt.alloc())?;
    assert_eq!(rt; touched_at_first(rt.alloc(), &net)?, (0, 0));
    Ok(())
}

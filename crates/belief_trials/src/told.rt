//! What is told where nothing is believed, and what is taken over of an edit.
ghost use Rattle.std.specs.Prelude.{◌≡◌, ℕ, None};
ghost use Rattle.tmm_model.specs.Standing.{empty_list};
ghost use Rattle.net_theory.specs.Fits.{IsNetOf};
ghost use Rattle.occ_tree.specs.OfLists.{IsTreeIn};
ghost use Rattle.occ_tree.specs.Standing.{present, committed, forest};

use crate::premises::bare_net;
use belief_list::{
    BeliefChanges, Difference, KeptRow, changes_told, compare, list_rows, reach, size_after,
    take_over,
};
use dist_net::DistNet;
use occ_tree::Tree;
use std::alloc::Global;
use std::test::Fail;
use tmm_model::NoMemory;

// How many rows and changes are told of a tree without nodes.
fn told_of_none(alloc: Global, tree: &Tree) -> Result<usize, NoMemory>
    requires { (x : ℕ) → forest (present tree.now) x ≡ None }
{
    let rows = list_rows(alloc, tree, &[])?;
    let changes = compare(alloc, tree, &[], tree, &[])?;
    Ok(rows.items().len().saturating_add(count(&changes)))
}

// How many changes are told from the last commit, which had no nodes, to a tree without nodes.
fn changes_of_none(alloc: Global, tree: &Tree, net: &DistNet) -> Result<usize, NoMemory>
    requires none { (x : ℕ) → forest (present tree.now) x ≡ None }
    requires committed { committed tree.now ≡ present tree.now }
    requires dates { IsTreeIn net.now.present tree.now }
{
    let changes = changes_told(alloc, tree, net, &[], &[])?;
    Ok(count(&changes))
}

// How many changes there are.
fn count(changes: &BeliefChanges) -> usize {
    let left = changes.left.items().len();
    let entered = changes.entered.items().len();
    let loose = changes.loose.items().len();
    let clips = changes.clips.items().len();
    left.saturating_add(entered)
        .saturating_add(loose)
        .saturating_add(clips)
}

// The same, where there never was a node.
fn changes_at_first(alloc: Global, net: &DistNet) -> Result<usize, NoMemory>
    requires { IsNetOf empty_list net.now.present }
{
    let tree = Tree::make(alloc);
    changes_of_none(alloc, &tree, net)
}

#[test]
fn nothing_is_told_of_empty_trees(rt: HostRuntime) -> Result<(), Fail> {
    let tree = Tree::make(rt.alloc());
    assert_eq!(rt; told_of_none(rt.alloc(), &tree)?, 0);
    Ok(())
}

#[test]
fn nothing_changed_in_an_empty_tree(rt: HostRuntime) -> Result<(), Fail> {
    let net = bare_net(rt.alloc())?;
    assert_eq!(rt; changes_at_first(rt.alloc(), &net)?, 0);
    Ok(())
}

#[test]
fn what_differs_is_taken_over(rt: HostRuntime) -> Result<(), Fail> {
    let row = KeptRow {
        early: 3,
        clip: None,
        weight: 2,
    };
    let entered = [Difference {
        node: 1,
        was: None,
        now: Some(row),
    }];
    let mut rows = Vec::new(rt.alloc());
    reach(rt.alloc(), &mut rows, 2)?;
    take_over(&mut rows, &entered);
    assert!(rt; rows.get(0).copied().flatten().is_none());
    assert!(rt; rows.get(1).copied().flatten() == Some(row));
    assert!(rt; matches!(size_after(1, &entered), Ok(3)));
    Ok(())
}

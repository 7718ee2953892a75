// Nodes that go, and the rows that go or wait with them.
ghost use Rattle.std.specs.Prelude.{◌≡◌, ℕ, IfOk, OnOk};
ghost use Rattle.tmm_model.specs.Moments.{After};
ghost use Rattle.spots.specs.Forest.{IsLive};
ghost use Rattle.row_links.specs.Lists.{IsOn};
ghost use Rattle.occ_tree.specs.OfLists.{IsTreeIn};
ghost use Rattle.occ_tree.specs.Places.{forest};
ghost use Rattle.occ_tree.specs.Standing.{present, committed};
ghost use Rattle.undo_rows.specs.Changes.{present as table};
ghost use Rattle.marking.specs.Covered.{Covers};
ghost use Rattle.belief_table.specs.Decided.{AreOfSome, KeepsLast};
ghost use Rattle.belief_table.specs.LastCommit.{KeepLast};
ghost use Rattle.belief_turns.specs.Leaving.{LosesNode, LosesRows, AreBelow, TakesAway};
ghost use Rattle.belief_table.specs.Marks.{HaveEvents};

use belief_table::{Beliefs, Decisions, drop_rows};
use dist_net::DistNet;
use marking::{EditMarks, mark_readers};
use occ_tree::Tree;
use premise_list::Standing;
use std::alloc::Global;
use tmm_model::NoMemory;

// Takes out a node with all below it, whose numbers these are, and their rows; rows wait on which a
// token among them may bear.
pub(crate) fn take_away(
    alloc: Global,
    standing: &Standing,
    net: &DistNet,
    beliefs: &mut Beliefs,
    marks: &mut EditMarks,
    x: u32,
    numbers: &[u32],
) -> Result<(), NoMemory>
    requires tree { IsTreeIn net.now.present beliefs.old.tree }
    requires live { IsLive (forest beliefs.old.tree) x }
    requires numbers { AreBelow beliefs.old.tree x numbers.now }
    requires events { HaveEvents beliefs.old.tree (table beliefs.old.decisions.rows) }
    requires under { AreOfSome beliefs.old.decisions }
    requires covered { Covers standing.now.present (present beliefs.old.tree) beliefs.old.decisions marks.old }
    ensures ok { OnOk result (TakesAway standing.now.present net.now.present x numbers.now beliefs.old beliefs.new) }
    ensures covered { OnOk result (Covers standing.now.present (present beliefs.new.tree) beliefs.new.decisions marks.new) }
    ensures last { KeepLast beliefs.old beliefs.new }
{
    lose_rows(
        alloc,
        standing,
        net,
        &beliefs.tree,
        &mut beliefs.decisions,
        marks,
        numbers,
    )?;
    beliefs.tree.withdraw(alloc, x)?;
    Ok(())
}

// Takes out the rows at nodes that leave, and lets those rows wait on which a token among them may
// bear.
fn lose_rows(
    alloc: Global,
    standing: &Standing,
    net: &DistNet,
    tree: &Tree,
    decisions: &mut Decisions,
    marks: &mut EditMarks,
    numbers: &[u32],
) -> Result<(), NoMemory>
    requires tree { IsTreeIn net.now.present tree.now }
    requires live { (y : ℕ) → IsOn numbers.now y → IsLive (forest tree.now) y }
    requires events { HaveEvents tree.now (table decisions.old.rows) }
    requires under { AreOfSome decisions.old }
    requires covered { Covers standing.now.present (present tree.now) decisions.old marks.old }
    ensures ok { OnOk result (LosesRows standing.now.present net.now.present tree.now numbers.now numbers.now decisions.old decisions.new) }
    ensures covered { OnOk result (Covers standing.now.present (present tree.now) decisions.new marks.new) }
    ensures last { KeepsLast decisions.old decisions.new }
{
    // it tells the proof that rows are on their lists
    let _ = decisions.rows.first(0, 0);
    for y in numbers {
        lose_node(alloc, standing, net, tree, decisions, marks, *y, numbers)?;
    }
    Ok(())
}

// Takes out the rows at a node that leaves with these, and lets those rows wait on which it may
// bear if it is a token.
fn lose_node(
    alloc: Global,
    standing: &Standing,
    net: &DistNet,
    tree: &Tree,
    decisions: &mut Decisions,
    marks: &mut EditMarks,
    y: u32,
    going: &[u32],
) -> Result<(), NoMemory>
    requires tree { IsTreeIn net.now.present tree.now }
    requires live { IsLive (forest tree.now) y }
    requires events { HaveEvents tree.now (table decisions.old.rows) }
    requires under { AreOfSome decisions.old }
    requires covered { Covers standing.now.present (present tree.now) decisions.old marks.old }
    ensures ok { OnOk result (LosesNode standing.now.present net.now.present tree.now going.now y decisions.old decisions.new) }
    ensures covered { OnOk result (Covers standing.now.present (present tree.now) decisions.new marks.new) }
    ensures last { KeepsLast decisions.old decisions.new }
{
    drop_rows(alloc, decisions, y)?;
    match tree.row(y).class {
        Some(class) => mark_readers(
            alloc, standing, tree, net, decisions, marks, class, y, going,
        ),
        None => Ok(()),
    }
}

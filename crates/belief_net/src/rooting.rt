// Roots that are declared anew, with their rows or marks.
ghost use Rattle.std.specs.Prelude.{OnOk};
ghost use Rattle.tmm_model.specs.Standing.{name_of};
ghost use Rattle.list_theory.proofs.Elements.{In};
ghost use Rattle.dist_net.specs.Net.{Net};
ghost use Rattle.spots.specs.Forest.{IsLive, IsNoRoot};
ghost use Rattle.occ_tree.specs.Places.{forest};
ghost use Rattle.belief_net.specs.Adding.{FollowsRoot, EntersRoot};
ghost use Rattle.belief_table.specs.Decided.{AreUnder, KeepsLast};
ghost use Rattle.belief_table.specs.LastCommit.{KeepLast};
ghost use Rattle.belief_turns.specs.Turning.{IsFit};

use belief_table::{Beliefs, Decisions};
use belief_turns::add_rows;
use dist_net::DistNet;
use marking::{mark_rivals, mark_token};
use occ_tree::Tree;
use premise_list::Standing;
use std::alloc::Global;
use supports::add_root;
use tmm_model::{NoMemory, Premise};

// Adds what a premise declares to occur. If that is an event, its rules get rows, which wait; if it
// is a token, all rows wait on which it may bear.
pub(crate) fn enter_root(
    alloc: Global,
    standing: &Standing,
    net: &DistNet,
    beliefs: &mut Beliefs,
    premise: &Premise,
) -> Result<(), NoMemory>
    requires fit { IsFit standing.now.present net.now.present beliefs.old }
    requires stands { In premise.now standing.now.present.premises }
    requires new { IsNoRoot (forest beliefs.old.tree) (name_of premise.now) }
    ensures enters { OnOk result (EntersRoot standing.now.present net.now.present premise.now beliefs.old beliefs.new) }
    ensures fit { OnOk result (IsFit standing.now.present net.now.present beliefs.new) }
    ensures last { KeepLast beliefs.old beliefs.new }
{
    // it tells the proof that rows are on their lists
    let _ = beliefs.decisions.rows.first(0, 0);
    let entered = add_root(alloc, standing, net, &mut beliefs.tree, premise)?;
    match entered {
        Some(x) => {
            follow_root(alloc, standing, &beliefs.tree, &mut beliefs.decisions, x)?;
            Ok(())
        }
        None => Ok(()),
    }
}

// Adds the rows of a root that has entered, or lets those rows wait on which it may bear.
fn follow_root(
    alloc: Global,
    standing: &Standing,
    tree: &Tree,
    decisions: &mut Decisions,
    x: u32,
) -> Result<(), NoMemory>
    requires fit { (net : Net) × IsFit standing.now.present net (record { tree = tree.now; decisions = decisions.old }) }
    requires node { IsLive (forest tree.now) x }
    ensures follows { OnOk result (FollowsRoot standing.now.present x tree.now decisions.old decisions.new) }
    ensures under { OnOk result (AreUnder standing.now.present decisions.new) }
    ensures last { KeepsLast decisions.old decisions.new }
{
    let row = tree.row(x);
    match row.class {
        Some(class) => {
            mark_token(tree, decisions, class, 0)?;
            mark_rivals(standing, tree, decisions, row.what, 0)?;
            Ok(())
        }
        None => {
            add_rows(alloc, standing, decisions, x, tree.early(x), row.what)?;
            Ok(())
        }
    }
}

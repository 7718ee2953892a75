// Rows that wait since points moved on whose distances they depend.
ghost use Rattle.std.specs.Prelude.{true, ◌≡◌, ℕ, List, length, OnOk};
ghost use Rattle.std.specs.List.{Contains};
ghost use Rattle.spots.specs.OfLists.{IsForestOf};
ghost use Rattle.occ_tree.specs.Places.{forest};
ghost use Rattle.occ_tree.specs.Standing.{present};
ghost use Rattle.occ_tree.specs.Touched.{IsUntouched};
ghost use Rattle.belief_table.specs.Decided.{table_of, AreUnder};
ghost use Rattle.belief_table.specs.Marks.{HaveEvents, Wakes};
ghost use Rattle.bearing.specs.MovedPairs.{WereThere};
ghost use Rattle.bearing.specs.Reach.{AreBelow256};
ghost use Rattle.marking.specs.Woken.{IsRowMoved};
ghost use Rattle.belief_table.specs.Waiting.{dates_in};
ghost use Rattle.marking.specs.Woken.{TellMoves, AreAwake, WakesForAll, IsRowAtRest};

use crate::class_points_moved::wake_touched;
use crate::events_moved::wake_moved_events;
use crate::rival_points_moved::wake_rivalled;
use bearing::distances_changed::none_moved;
use bearing::events_touched::points_of_pairs;
use bearing::what_moved::{Moves, moves_of};
use belief_table::Decisions;
use dist_net::DistNet;
use occ_tree::Tree;
use premise_list::Standing;
use std::alloc::Global;
use tmm_model::{Name, NoMemory};

/// Lets those rows wait that depend on the distance of two points that is another one now, and may
/// not rest. Points of the premise that is added were not there. None waits where nothing moved.
pub fn mark_moved(
    alloc: Global,
    standing: &Standing,
    net: &DistNet,
    tree: &Tree,
    decisions: &mut Decisions,
    added: Option<Name>,
) -> Result<(), NoMemory>
    requires seen { IsForestOf standing.now.present net.now.present (forest tree.now) }
    requires there { WereThere net.now added }
    requires events { HaveEvents tree.now (table_of decisions.old) }
    requires under { AreUnder standing.now.present decisions.old }
    ensures ok { OnOk result (Wakes (present tree.now) (table_of decisions.old) (λ i row. IsRowMoved net.now added standing.now.present (forest tree.now) decisions.old row) (λ i row. IsRowAtRest net.now added standing.now.committed standing.now.present (forest tree.now) decisions.old row) (dates_in decisions.old.waiting) (dates_in decisions.new.waiting)) }
    ensures others { decisions.new ≡ record decisions.old { waiting = decisions.new.waiting } }
{
    // they tell the proof that numbers are below 256, that rows are on their lists, and that
    // classes have their own numbers
    net.invariants();
    let _ = decisions.rows.first(1, 0);
    decisions.classes.have_own();
    if none_moved(net, &added) {
        return Ok(());
    }
    // where no rule ever had a row there is none
    if decisions.rules.len() == 0 {
        return Ok(());
    }
    let moves = moves_of(alloc, net, added)?;
    let touched = tree.touched(alloc, net)?;
    let awake = wake_moved_events(
        alloc,
        net,
        tree,
        &decisions.rows,
        &mut decisions.waiting,
        &moves,
        touched.nodes.as_slice(),
    )?;
    let classes = touched.classes.as_slice();
    wake_classes(alloc, net, tree, decisions, &moves, classes, awake)?;
    wake_rivalled(alloc, standing, net, tree, decisions, &moves)?;
    Ok(())
}

// Lets those rows wait that read a class and may not rest, where all classes but these are
// untouched, and where it is said that the rows of events that moved wait, they do.
fn wake_classes(
    alloc: Global,
    net: &DistNet,
    tree: &Tree,
    decisions: &mut Decisions,
    moves: &Moves,
    touched: &[Name],
    awake: bool,
) -> Result<(), NoMemory>
    requires below { AreBelow256 (forest tree.now) }
    requires moves { TellMoves net.now moves.now }
    requires events { HaveEvents tree.now (table_of decisions.old) }
    requires untouched { (class : List ℕ) → (Contains touched.now class → ⊥) → IsUntouched net.now tree.now class }
    requires awake { awake ≡ true → AreAwake net.now (forest tree.now) (table_of decisions.old) (dates_in decisions.old.waiting) }
    ensures ok { OnOk result (WakesForAll (present tree.now) net.now moves.now decisions.old (length decisions.old.classes) (dates_in decisions.old.waiting) (dates_in decisions.new.waiting)) }
    ensures others { decisions.new ≡ record decisions.old { waiting = decisions.new.waiting } }
{
    let points = points_of_pairs(alloc, &moves.pairs, net.moved())?;
    for class in 0..decisions.classes.len() {
        let name = decisions.classes.name(class);
        wake_touched(
            alloc,
            net,
            tree,
            &decisions.rows,
            &mut decisions.waiting,
            moves,
            class,
            name,
            touched,
            awake,
            &points,
        )?;
    }
    Ok(())
}

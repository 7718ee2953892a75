// Rows that wait since a token enters or leaves.
ghost use Rattle.std.specs.Prelude.{◌≡◌, Some, None, OnOk};
ghost use Rattle.tmm_model.specs.Standing.{Standing as List};
ghost use Rattle.spots.specs.Forest.{Member, member};
ghost use Rattle.occ_tree.specs.OfLists.{IsTreeIn};
ghost use Rattle.occ_tree.specs.Places.{forest};
ghost use Rattle.occ_tree.specs.Standing.{present};
ghost use Rattle.undo_rows.specs.Changes.{present as table};
ghost use Rattle.marking.specs.Covered.{CoverClasses, Covers};
ghost use Rattle.belief_table.specs.Decided.{AreOfSome, KeepsLast};
ghost use Rattle.marking.specs.TokenMarks.{MarksClass, MarksOwn, MarksReaders};
ghost use Rattle.belief_table.specs.Marks.{HaveEvents};

use crate::edit_marks::EditMarks;
use crate::rivals_of_token::mark_rivals_once;
use bearing::moving_tokens::window_of;
use belief_table::{Decisions, mark_class};
use dist_net::DistNet;
use occ_tree::Tree;
use premise_list::Standing;
use std::alloc::Global;
use tmm_model::{Name, NoMemory};

/// Lets those rows wait that may read a token of a class from this date on.
pub fn mark_token(
    tree: &Tree,
    decisions: &mut Decisions,
    class: Name,
    from: i64,
) -> Result<(), NoMemory>
    requires { HaveEvents tree.now (table decisions.old.rows) }
    ensures ok { OnOk result (MarksClass (present tree.now) class from decisions.old decisions.new) }
    ensures last { KeepsLast decisions.old decisions.new }
{
    let number = decisions.classes.enter(class)?;
    mark_class(
        tree,
        &decisions.rows,
        &mut decisions.waiting,
        number,
        from,
        None,
    )?;
    Ok(())
}

/// Lets those rows wait on which the token of a class at a node may bear, which enters or leaves
/// with these nodes: those that read its class, and those whose rules read what contradicts it.
pub fn mark_readers(
    alloc: Global,
    standing: &Standing,
    tree: &Tree,
    net: &DistNet,
    decisions: &mut Decisions,
    marks: &mut EditMarks,
    class: Name,
    x: u32,
    moving: &[u32],
) -> Result<(), NoMemory>
    requires tree { IsTreeIn net.now.present tree.now }
    requires token { (m : Member) × (member (forest tree.now) x ≡ Some m) × (m.class ≡ Some class) }
    requires events { HaveEvents tree.now (table decisions.old.rows) }
    requires under { AreOfSome decisions.old }
    requires covered { Covers standing.now.present (present tree.now) decisions.old marks.old }
    ensures ok { OnOk result (MarksReaders standing.now.present net.now.present tree.now moving.now x class decisions.old decisions.new) }
    ensures covered { OnOk result (Covers standing.now.present (present tree.now) decisions.new marks.new) }
    ensures last { KeepsLast decisions.old decisions.new }
{
    mark_own(alloc, tree, net, decisions, marks, class, x, moving)?;
    let fact = tree.row(x).what;
    let from = tree.early(x);
    mark_rivals_once(standing, tree, decisions, marks, fact, from)
}

// Lets those rows wait that read the class of the token at a node, which enters or leaves with
// these nodes, but where it bears on nothing by its class. After the first few tokens of a class
// all its rows wait from the date of one on, which serves those to come: an edit may move many
// tokens of a class, and to walk over all its rows for each of them would take the square.
fn mark_own(
    alloc: Global,
    tree: &Tree,
    net: &DistNet,
    decisions: &mut Decisions,
    marks: &mut EditMarks,
    class: Name,
    x: u32,
    moving: &[u32],
) -> Result<(), NoMemory>
    requires tree { IsTreeIn net.now.present tree.now }
    requires token { (m : Member) × (member (forest tree.now) x ≡ Some m) × (m.class ≡ Some class) }
    requires events { HaveEvents tree.now (table decisions.old.rows) }
    requires covered { CoverClasses (present tree.now) decisions.old marks.old }
    ensures ok { OnOk result (MarksOwn net.now.present tree.now moving.now x class decisions.old decisions.new) }
    ensures covered { OnOk result ((list : List) → Covers list (present tree.now) decisions.old marks.old → Covers list (present tree.now) decisions.new marks.new) }
    ensures last { KeepsLast decisions.old decisions.new }
{
    // it tells the proof that rows are on their lists
    let _ = decisions.rows.first(0, 0);
    let number = decisions.classes.enter(class)?;
    let from = tree.early(x);
    if marks.covers(number, from) {
        return Ok(());
    }
    let many = marks.count(number)?;
    if many {
        mark_class(
            tree,
            &decisions.rows,
            &mut decisions.waiting,
            number,
            from,
            None,
        )?;
        return marks.mark(number, from);
    }
    let window = window_of(alloc, tree, net, class, x, moving)?;
    mark_class(
        tree,
        &decisions.rows,
        &mut decisions.waiting,
        number,
        from,
        Some(&window),
    )?;
    Ok(())
}

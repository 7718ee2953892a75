// How an update begins: nodes and rows of the list before an edit are made ready for the list after
// it.
ghost use Rattle.std.specs.Prelude.{◌≡◌, IfOk, OnOk};
ghost use Rattle.occ_tree.specs.Standing.{present};
ghost use Rattle.belief_table.specs.Decided.{table_of};
ghost use Rattle.belief_table.specs.LastCommit.{KeepLast};
ghost use Rattle.belief_net.specs.MarkLaws.{added_by as name_added};
ghost use Rattle.belief_table.specs.Marks.{Wakes};
ghost use Rattle.bearing.specs.MovedPairs.{WereThere};
ghost use Rattle.belief_turns.specs.Numbered.{AreNumbered, left_under};
ghost use Rattle.belief_turns.specs.Settling.{Begins};
ghost use Rattle.belief_turns.specs.Telling.{IsWeighed};
ghost use Rattle.belief_turns.specs.Turning.{IsFit};
ghost use Rattle.belief_net.specs.Updating.{IsKept, IsPending, MayAdd, Entered, IsChanged, IsUnchanged, IsTouchedBy, IsLeftBy};
ghost use Rattle.belief_table.specs.Waiting.{dates_in};

use crate::dates::re_date_moved;
use crate::rooting::enter_root;
use crate::ruling::enter_rule;
use belief_table::{Beliefs, erase};
use belief_turns::Told;
use dist_net::DistNet;
use marking::{mark_contradicted, mark_departed, mark_horizon, mark_moved};
use premise_list::Standing;
use std::alloc::Global;
use tmm_model::{Edit, Name, NoMemory};

// Withdraws what is erased, gives roots the dates that they have now, enters what is added, and
// lets all rows wait that the edit touches, for those dates. What left is told.
pub(crate) fn open(
    alloc: Global,
    beliefs: &mut Beliefs,
    edit: &Edit,
    erased: &[Name],
    net: &DistNet,
    standing: &Standing,
    before: u32,
) -> Result<Told, NoMemory>
    requires kept { IsKept standing.now.committed net.now.committed beliefs.old }
    requires pending { IsPending standing.now net.now edit.now erased.now }
    requires before { before ≡ standing.now.committed.horizon }
    ensures fit { OnOk result (IsFit standing.now.present net.now.present beliefs.new) }
    ensures begins { IfOk result (Begins standing.now.committed edit.now net.now.present beliefs.new) }
    ensures weighed { IfOk result (IsWeighed standing.now.present) }
    ensures numbered { IfOk result (λ told. AreNumbered standing.now.present beliefs.new.tree (left_under told.left.items)) }
    ensures last { KeepLast beliefs.old beliefs.new }
{
    let departed = erase(alloc, beliefs, erased)?;
    re_date_moved(alloc, net, &mut beliefs.tree)?;
    mark_departed(
        alloc,
        standing,
        net,
        &beliefs.tree,
        &mut beliefs.decisions,
        &departed,
    )?;
    enter_added(alloc, standing, net, beliefs, edit)?;
    mark_touched(alloc, standing, net, beliefs, edit, before)?;
    Ok(Told::of_left(alloc, departed.left))
}

// Enters what the edit adds: a root with its rows or marks, or the rows of a rule.
fn enter_added(
    alloc: Global,
    standing: &Standing,
    net: &DistNet,
    beliefs: &mut Beliefs,
    edit: &Edit,
) -> Result<(), NoMemory>
    requires fit { IsFit standing.now.present net.now.present beliefs.old }
    requires may { MayAdd standing.now.present edit.now beliefs.old }
    ensures ok { OnOk result (Entered standing.now.present net.now.present edit.now beliefs.old beliefs.new) }
    ensures last { KeepLast beliefs.old beliefs.new }
{
    match edit {
        Edit::Add(premise) => {
            enter_root(alloc, standing, net, beliefs, premise)?;
            enter_rule(alloc, standing, net, beliefs, premise)
        }
        Edit::Erase(_) | Edit::Horizon(_) | Edit::Upgrade => Ok(()),
    }
}

// Lets those rows wait that the edit touches and that may not rest, beside those that read what
// left or entered.
fn mark_touched(
    alloc: Global,
    standing: &Standing,
    net: &DistNet,
    beliefs: &mut Beliefs,
    edit: &Edit,
    before: u32,
) -> Result<(), NoMemory>
    requires fit { IsFit standing.now.present net.now.present beliefs.old }
    requires there { WereThere net.now (name_added edit.now) }
    ensures ok { OnOk result (Wakes (present beliefs.old.tree) (table_of beliefs.old.decisions) (λ i row. IsTouchedBy edit.now standing.now.committed standing.now.present net.now before beliefs.old row) (λ i row. IsLeftBy edit.now standing.now.committed standing.now.present net.now before beliefs.old row) (dates_in beliefs.old.decisions.waiting) (dates_in beliefs.new.decisions.waiting)) }
    ensures others { beliefs.new ≡ record beliefs.old { decisions = record beliefs.old.decisions { waiting = beliefs.new.decisions.waiting } } }
{
    let added = match edit {
        Edit::Add(premise) => Some(premise.name()),
        Edit::Erase(_) => None,
        Edit::Upgrade => None,
        Edit::Horizon(_) => {
            mark_horizon(standing, &beliefs.tree, &mut beliefs.decisions, before)?;
            return Ok(());
        }
    };
    mark_changed(alloc, standing, net, beliefs, added)
}

// Lets those rows wait whose rules read what other facts contradict since the edit, and those that
// depend on points that moved and may not rest.
fn mark_changed(
    alloc: Global,
    standing: &Standing,
    net: &DistNet,
    beliefs: &mut Beliefs,
    added: Option<Name>,
) -> Result<(), NoMemory>
    requires fit { IsFit standing.now.present net.now.present beliefs.old }
    requires there { WereThere net.now added }
    ensures ok { OnOk result (Wakes (present beliefs.old.tree) (table_of beliefs.old.decisions) (λ i row. IsChanged added standing.now.committed standing.now.present net.now beliefs.old row) (λ i row. IsUnchanged added standing.now.committed standing.now.present net.now beliefs.old row) (dates_in beliefs.old.decisions.waiting) (dates_in beliefs.new.decisions.waiting)) }
    ensures others { beliefs.new ≡ record beliefs.old { decisions = record beliefs.old.decisions { waiting = beliefs.new.decisions.waiting } } }
{
    mark_contradicted(alloc, standing, &beliefs.tree, &mut beliefs.decisions)?;
    mark_moved(
        alloc,
        standing,
        net,
        &beliefs.tree,
        &mut beliefs.decisions,
        added,
    )
}

// What an edit makes of a list and its network.
ghost use Rattle.std.specs.Prelude.{◌≡◌, [], None, IfOk, IfErr, OnOk, OnErr};
ghost use Rattle.tmm_model.specs.Edits.{next_list};
ghost use Rattle.tmm_model.specs.Lines.{IsWellFormedEdit};
ghost use Rattle.tmm_model.specs.Standing.{IsConsistent, points_in};
ghost use Rattle.tmm_model.specs.Verdicts.{list_cause};
ghost use Rattle.net_theory.specs.Fits.{IsNetOf};
ghost use Rattle.list_net.specs.Settled.{NothingPending};
ghost use Rattle.net_theory.specs.KeptNumbers.{PointsKeepNumbers};
ghost use Rattle.list_theory.specs.LeftOut.{IsLeftOut};
ghost use Rattle.map_core.specs.Stops.{StopsEdit, NamesEdited};

use crate::addition::add_premise;
use crate::erasure::erase_premise;
use dist_net::DistNet;
use premise_list::Standing;
use std::alloc::Global;
use tmm_model::{Edit, Name, NoMemory, Premise, Seq, Stop};

/// Makes an edit that names and counts let through, and answers the names of the premises that it
/// retracts. Every point that stays keeps its number. Where the edit is refused, or there is no
/// memory, all is as before.
pub fn apply_edit(
    alloc: Global,
    standing: &mut Standing,
    net: &mut DistNet,
    edit: &Edit,
) -> Result<Seq<Name>, Stop>
    requires no_cause { list_cause standing.old.present edit.now ≡ None }
    requires well_formed { IsWellFormedEdit edit.now }
    requires network { IsNetOf standing.old.present net.old.present }
    requires settled { NothingPending standing.old net.old }
    ensures list { OnOk result (standing.new ≡ record standing.old { present = next_list standing.old.present edit.now }) }
    ensures network { OnOk result (IsNetOf standing.new.present net.new.present) }
    ensures numbers { OnOk result (PointsKeepNumbers (points_in (next_list standing.old.present edit.now).premises) net.old.present.names net.new.present.names) }
    ensures dates { OnOk result (IsConsistent (next_list standing.old.present edit.now).premises) }
    ensures erased { IfOk result (λ names. IsLeftOut standing.old.present (next_list standing.old.present edit.now) names.items) }
    ensures stops { IfErr result (StopsEdit standing.old.present edit.now) }
    ensures named { IfErr result NamesEdited }
    ensures list_kept { OnErr result (standing.new ≡ standing.old) }
    ensures net_kept { OnErr result (net.new.present ≡ net.old.present) }
    ensures committed { net.new.committed ≡ net.old.committed }
{
    match edit {
        Edit::Add(premise) => add(alloc, standing, net, premise),
        Edit::Erase(name) => match erase(alloc, standing, net, *name) {
            Ok(names) => Ok(names),
            Err(NoMemory) => Err(Stop::NoMemory),
        },
        Edit::Horizon(n) => {
            standing.invariants();
            standing.set_horizon(*n);
            net.invariants();
            Ok(Seq::make(alloc))
        }
        Edit::Upgrade => {
            standing.invariants();
            standing.upgrade();
            net.invariants();
            Ok(Seq::make(alloc))
        }
    }
}

fn add(
    alloc: Global,
    standing: &mut Standing,
    net: &mut DistNet,
    premise: &Premise,
) -> Result<Seq<Name>, Stop>
    requires no_cause { list_cause standing.old.present (Edit.Add premise.now) ≡ None }
    requires well_formed { IsWellFormedEdit (Edit.Add premise.now) }
    requires network { IsNetOf standing.old.present net.old.present }
    requires settled { NothingPending standing.old net.old }
    ensures list { OnOk result (standing.new ≡ record standing.old { present = next_list standing.old.present (Edit.Add premise.now) }) }
    ensures network { OnOk result (IsNetOf standing.new.present net.new.present) }
    ensures numbers { OnOk result (PointsKeepNumbers (points_in (next_list standing.old.present (Edit.Add premise.now)).premises) net.old.present.names net.new.present.names) }
    ensures dates { OnOk result (IsConsistent (next_list standing.old.present (Edit.Add premise.now)).premises) }
    ensures erased { IfOk result (λ names. IsLeftOut standing.old.present (next_list standing.old.present (Edit.Add premise.now)) names.items) }
    ensures stops { IfErr result (StopsEdit standing.old.present (Edit.Add premise.now)) }
    ensures named { IfErr result NamesEdited }
    ensures list_kept { OnErr result (standing.new ≡ standing.old) }
    ensures net_kept { OnErr result (net.new.present ≡ net.old.present) }
    ensures committed { net.new.committed ≡ net.old.committed }
{
    add_premise(alloc, standing, net, premise)?;
    standing.invariants();
    net.invariants();
    Ok(Seq::make(alloc))
}

fn erase(
    alloc: Global,
    standing: &mut Standing,
    net: &mut DistNet,
    name: Name,
) -> Result<Seq<Name>, NoMemory>
    requires no_cause { list_cause standing.old.present (Edit.Erase name) ≡ None }
    requires network { IsNetOf standing.old.present net.old.present }
    ensures list { OnOk result (standing.new ≡ record standing.old { present = next_list standing.old.present (Edit.Erase name) }) }
    ensures network { OnOk result (IsNetOf standing.new.present net.new.present) }
    ensures numbers { OnOk result (PointsKeepNumbers (points_in (next_list standing.old.present (Edit.Erase name)).premises) net.old.present.names net.new.present.names) }
    ensures dates { OnOk result (IsConsistent (next_list standing.old.present (Edit.Erase name)).premises) }
    ensures erased { IfOk result (λ names. IsLeftOut standing.old.present (next_list standing.old.present (Edit.Erase name)) names.items) }
    ensures list_kept { OnErr result (standing.new ≡ standing.old) }
    ensures net_kept { OnErr result (net.new.present ≡ net.old.present) }
    ensures committed { net.new.committed ≡ net.old.committed }
{
    let names = match erase_premise(alloc, standing, net, name) {
        Ok(names) => names,
        Err(NoMemory) => return Err(NoMemory),
    };
    standing.invariants();
    net.invariants();
    Ok(names)
}

/// Makes the list and its network those of the last commit.
pub fn roll_back(standing: &mut Standing, net: &mut DistNet)
    ensures list { standing.new ≡ record standing.old { present = standing.old.committed } }
    ensures net { net.new ≡ record net.old { present = net.old.committed; moved = [] } }
{
    standing.rollback();
    net.rollback();
}

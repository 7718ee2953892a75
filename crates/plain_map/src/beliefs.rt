// What the plain map keeps of a list beside its distances.
ghost use Rattle.std.specs.Prelude.{◌≡◌, ◌≤◌, IfOk, IfErr};
ghost use Rattle.tmm_model.specs.Answers.{size};
ghost use Rattle.tmm_model.specs.Changes.{changes, delta_of};
ghost use Rattle.tmm_model.specs.Maps.{built};
ghost use Rattle.tmm_model.specs.Standing.{Standing as List};
ghost use Rattle.belief_list.specs.Rows.{IsListing};
ghost use Rattle.dist_net.specs.Net.{Net};
ghost use Rattle.net_theory.specs.Fits.{IsNetOf};
ghost use Rattle.occ_tree.specs.Places.{forest};
ghost use Rattle.projection.specs.Queues.{IsTooLarge};
ghost use Rattle.plain_map.specs.Beliefs.{AreBeliefs};
ghost use Rattle.list_theory.specs.LeftOut.{IsLeftOut};

use crate::changes::with_reports;
use crate::view::{View, view_of};
use belief_list::compare;
use dist_net::DistNet;
use map_core::Counter;
use occ_tree::Tree;
use premise_list::Standing;
use projection::{Projected, rebuild};
use std::alloc::Global;
use supports::TimeMap;
use tmm_model::{Changes, Name, NoMemory, Seq, Stop};

// What is believed of a list, as it is kept.
#[derive(Drop)]
pub(crate) struct Beliefs {
    // The believed occurrences.
    pub tree: Tree,
    // What is read of them.
    pub view: View,
}

// The beliefs of a list, from scratch. A map that is too large is refused.
pub(crate) fn project(
    alloc: Global,
    standing: &Standing,
    net: &DistNet,
    counter: &mut Counter,
) -> Result<Beliefs, Stop>
    requires network { IsNetOf standing.now.present net.now.present }
    ensures beliefs { IfOk result (AreBeliefs standing.now.present net.now.present) }
    ensures stops { IfErr result (IsTooLarge (size (built standing.now.present))) }
    ensures counted { counter.old ≤ counter.new }
{
    let Projected { tree, size } = rebuild(alloc, standing, net, counter)?;
    let map = TimeMap {
        standing,
        tree: &tree,
        net,
    };
    match view_of(alloc, &map, size) {
        Ok(view) => Ok(Beliefs { tree, view }),
        Err(NoMemory) => Err(Stop::NoMemory),
    }
}

// The beliefs of the list that an edit leaves, and what it changes.
pub(crate) fn project_and_compare(
    alloc: Global,
    standing: &Standing,
    net: &DistNet,
    old: &Beliefs,
    erased: Seq<Name>,
    counter: &mut Counter,
) -> Result<(Beliefs, Changes), Stop>
    requires network { IsNetOf standing.now.present net.now.present }
    requires old { IsListing (forest old.now.tree) old.now.view.rows.items }
    ensures beliefs { IfOk result (λ made. AreBeliefs standing.now.present net.now.present made.0) }
    ensures changes { (list : List) (old_net : Net) → AreBeliefs list old_net old.now → IsLeftOut list standing.now.present erased.items
        → IfOk result (λ made. delta_of made.1 ≡ changes list standing.now.present) }
    ensures stops { IfErr result (IsTooLarge (size (built standing.now.present))) }
    ensures counted { counter.old ≤ counter.new }
{
    let next = project(alloc, standing, net, counter)?;
    match changes_to(alloc, erased, old, &next, standing) {
        Ok(changes) => Ok((next, changes)),
        Err(NoMemory) => Err(Stop::NoMemory),
    }
}

// What changes from the beliefs of one list to those of another, from which these premises are
// gone.
fn changes_to(
    alloc: Global,
    erased: Seq<Name>,
    old: &Beliefs,
    new: &Beliefs,
    standing: &Standing,
) -> Result<Changes, NoMemory>
    requires old { IsListing (forest old.now.tree) old.now.view.rows.items }
    requires new { IsListing (forest new.now.tree) new.now.view.rows.items }
    ensures { (list : List) (old_net net : Net) → AreBeliefs list old_net old.now → AreBeliefs standing.now.present net new.now → IsLeftOut list standing.now.present erased.items
        → IfOk result (λ told. delta_of told ≡ changes list standing.now.present) }
{
    let believed = compare(
        alloc,
        &old.tree,
        old.view.rows.items(),
        &new.tree,
        new.view.rows.items(),
    )?;
    with_reports(
        alloc,
        standing,
        erased,
        believed,
        old.view.reports.items(),
        new.view.reports.items(),
    )
}

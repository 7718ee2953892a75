// Roots that get the dates of their points.
ghost use Rattle.std.specs.Prelude.{OnOk};
ghost use Rattle.dist_net.specs.Net.{IsInUse};
ghost use Rattle.spots.specs.OfLists.{HasList};
ghost use Rattle.occ_tree.specs.Dated.{IsDatedBy};
ghost use Rattle.occ_tree.specs.Places.{forest};
ghost use Rattle.occ_tree.specs.Standing.{present};
ghost use Rattle.belief_net.specs.Dating.{KeepsNodes, AreDatedBefore};

use dist_net::DistNet;
use occ_tree::Tree;
use std::alloc::Global;
use tmm_model::NoMemory;

// Gives each root whose point moved the date that it has now, with all below it.
pub(crate) fn re_date_moved(alloc: Global, net: &DistNet, tree: &mut Tree) -> Result<(), NoMemory>
    requires list { HasList net.now.present (forest tree.old) }
    requires before { AreDatedBefore net.now tree.old }
    requires start { IsInUse net.now.committed.names 0 }
    ensures dated { OnOk result (IsDatedBy net.now.present (present tree.new)) }
    ensures keeps { KeepsNodes tree.old tree.new }
{
    if net.moved().is_empty() {
        // it tells the proof that dates follow those of the roots
        if let Some(root) = tree.first_root() {
            let _ = tree.early(root);
        }
        return Ok(());
    }
    tree.re_date_all(alloc, net)?;
    Ok(())
}

// What is read of the rows of believed occurrences.
ghost use Rattle.std.specs.Prelude.{◌≡◌, map, IfOk};
ghost use Rattle.std.specs.List.{All};
ghost use Rattle.tmm_model.specs.Moments.{moment_of};
ghost use Rattle.spots.specs.Forest.{moment_at};
ghost use Rattle.occ_tree.specs.Places.{forest};
ghost use Rattle.belief_list.specs.Rows.{IsLiveRow};

use crate::list::BeliefRow;
use occ_tree::Tree;
use std::alloc::Global;
use tmm_model::{NoMemory, Occ, Seq};

/// The occurrences of the rows. Without memory it answers that.
pub fn occurrences(alloc: Global, tree: &Tree, rows: &[BeliefRow]) -> Result<Seq<Occ>, NoMemory>
    requires { All (IsLiveRow (forest tree.now)) rows.now }
    ensures { IfOk result (λ occs. map moment_of occs.items ≡ map (λ r. moment_at (forest tree.now) r.node) rows.now) }
{
    let mut occs = Seq::make(alloc);
    for row in rows {
        match occs.push(tree.occ_of(alloc, row.node)?) {
            Ok(()) => {}
            Err(_) => return Err(NoMemory),
        }
    }
    Ok(occs)
}

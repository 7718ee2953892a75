// What is read of the believed occurrences of a list.
ghost use Rattle.std.specs.Prelude.{◌≡◌, ◌≤◌, map, IsTrue, IfOk};
ghost use Rattle.tmm_model.specs.Answers.{rows, row_of, size, most_size};
ghost use Rattle.tmm_model.specs.Maps.{built};
ghost use Rattle.tmm_model.specs.Standing.{Standing as List};
ghost use Rattle.belief_list.specs.Rows.{IsListing};
ghost use Rattle.occ_tree.specs.Places.{forest};
ghost use Rattle.spots.specs.OfLists.{HasOccurrences};
ghost use Rattle.supports.specs.TimeMaps.{IsTimeMap};
ghost use Rattle.plain_map.specs.Views.{IsViewOf};

use belief_list::{BeliefRow, list_rows, listed, occurrences};
use just_check::audit;
use occ_tree::Tree;
use protections::report;
use std::alloc::Global;
use supports::TimeMap;
use tmm_model::{ListRow, NoMemory, Report, Seq};

// What is read of a tree of the believed occurrences.
#[derive(Drop)]
pub(crate) struct View {
    // The size of the map.
    pub size: u64,
    // The occurrences in their order, with their clips.
    pub rows: Seq<BeliefRow>,
    // The broken protections.
    pub reports: Seq<Report>,
}

// What is read of the believed occurrences, where the size of their map is known.
pub(crate) fn view_of(alloc: Global, map: &TimeMap<'_>, counted: u64) -> Result<View, NoMemory>
    requires seen { IsTimeMap map.now }
    requires holds { HasOccurrences (built map.now.standing.now.present).believed (forest map.now.tree.now) }
    requires counted { counted ≡ size (built map.now.standing.now.present) }
    requires small { counted ≤ most_size }
    ensures { IfOk result (IsViewOf map.now.standing.now.present (forest map.now.tree.now)) }
{
    let rows = listed(alloc, map)?;
    let reports = report(alloc, map.standing, map.tree, map.net)?;
    Ok(View {
        size: counted,
        rows,
        reports,
    })
}

// The believed occurrences, in their order.
pub(crate) fn told_rows(alloc: Global, tree: &Tree, view: &View) -> Result<Seq<ListRow>, NoMemory>
    requires { IsListing (forest tree.now) view.now.rows.items }
    ensures { (list : List) → IsViewOf list (forest tree.now) view.now → IfOk result (λ found. map row_of found.items ≡ rows (built list)) }
{
    list_rows(alloc, tree, view.rows.items())
}

// Whether the rows are the believed occurrences of the list, in their order. They are, and it is
// found anew from the list.
pub(crate) fn audited(alloc: Global, map: &TimeMap<'_>, view: &View) -> Result<bool, NoMemory>
    requires seen { IsTimeMap map.now }
    requires view { IsViewOf map.now.standing.now.present (forest map.now.tree.now) view.now }
    ensures { IfOk result (λ good. IsTrue good) }
{
    let rows = occurrences(alloc, map.tree, view.rows.items())?;
    audit(alloc, map.standing, map.net, rows.items())
}

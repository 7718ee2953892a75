// The believed occurrences in order, from what is kept of them by their numbers.
ghost use Rattle.std.specs.Prelude.{◌≡◌, map as mapped, IfOk};
ghost use Rattle.tmm_model.specs.Answers.{rows};
ghost use Rattle.tmm_model.specs.Maps.{built};
ghost use Rattle.spots.specs.OfLists.{HasOccurrences};
ghost use Rattle.occ_tree.specs.Places.{forest};
ghost use Rattle.occ_tree.specs.Ranks.{nodes_of};
ghost use Rattle.supports.specs.TimeMaps.{IsTimeMap};
ghost use Rattle.belief_list.specs.KeptRows.{row_under, AreRowsOf};
ghost use Rattle.belief_list.specs.Rows.{row_at, IsListing};
ghost use Rattle.belief_list.specs.Told.{clip_of};

use crate::kept_rows::KeptRow;
use crate::list::{BeliefRow, all_ranked, rows_of};
use occ_tree::Ranked;
use std::alloc::Global;
use supports::TimeMap;
use tmm_model::{NoMemory, Seq};

/// The believed occurrences, in order, from what is kept of each under its number. Without memory
/// it answers that.
pub fn listed_by_number(
    alloc: Global,
    map: &TimeMap<'_>,
    kept: &[Option<KeptRow>],
) -> Result<Seq<BeliefRow>, NoMemory>
    requires seen { IsTimeMap map.now }
    requires holds { HasOccurrences (built map.now.standing.now.present).believed (forest map.now.tree.now) }
    requires kept { AreRowsOf map.now.standing.now.present (forest map.now.tree.now) (row_under kept.now) }
    ensures rows { IfOk result (λ list. mapped (row_at (forest map.now.tree.now)) list.items ≡ rows (built map.now.standing.now.present)) }
    ensures listing { IfOk result (λ list. IsListing (forest map.now.tree.now) list.items) }
{
    let nodes = all_ranked(alloc, map.tree, map.net)?;
    let ranked = nodes.as_slice();
    let clips = clips_kept(alloc, ranked, kept)?;
    rows_of(alloc, ranked, clips.as_slice())
}

// What clips each of the nodes, as it is kept.
fn clips_kept(
    alloc: Global,
    ranked: &[Ranked],
    kept: &[Option<KeptRow>],
) -> Result<Vec<Option<u32>>, NoMemory>
    ensures { IfOk result (λ clips. clips.items ≡ mapped (λ x. clip_of (row_under kept.now x)) (nodes_of ranked.now)) }
{
    let mut clips = Vec::with_capacity(alloc, ranked.len())?;
    for r in ranked {
        clips.push_reserved(kept_clip(kept, r.node));
    }
    Ok(clips)
}

// What clips a node, by what is kept under its number.
pub(crate) fn kept_clip(kept: &[Option<KeptRow>], x: u32) -> Option<u32>
    ensures { result ≡ clip_of (row_under kept.now x) }
{
    match kept.get(x as usize) {
        Some(Some(row)) => row.clip,
        _ => None,
    }
}

// What clips a node, by what is kept of it.
pub(crate) fn clip_of(row: Option<KeptRow>) -> Option<u32>
    ensures { result ≡ clip_of row }
{
    row?.clip
}

// The believed occurrences in order.
ghost use Rattle.std.specs.Prelude.{◌≡◌, ◌≤◌, ◌++◌, ◌∷◌, [], map as mapped, take, length, IfOk, OnOk};
ghost use Rattle.std.specs.List.{All, zip};
ghost use Rattle.std.specs.Option.{option_map};
ghost use Rattle.tmm_model.specs.Answers.{row_of, rows};
ghost use Rattle.tmm_model.specs.Maps.{built};
ghost use Rattle.tmm_model.specs.Moments.{moment_of};
ghost use Rattle.spots.specs.Forest.{IsLive, moment_at};
ghost use Rattle.spots.specs.OfLists.{HasOccurrences};
ghost use Rattle.occ_tree.specs.OfLists.{IsTreeIn};
ghost use Rattle.occ_tree.specs.Places.{forest};
ghost use Rattle.supports.specs.TimeMaps.{IsTimeMap};
ghost use Rattle.belief_list.specs.Rows.{belief_row, row_at, IsLiveRow, AreAllRanked, IsListing};

use dist_net::DistNet;
use occ_tree::{Order, Ranked, Tree, in_order};
use std::alloc::Global;
use supports::{TimeMap, clips};
use tmm_model::{ListRow, NoMemory, Occ, Seq};

/// A believed occurrence.
#[derive(Clone, Copy, PartialEq, Eq, Debug)]
pub struct BeliefRow {
    /// The node of the occurrence.
    pub node: u32,
    /// Its earliest date, in whole time units.
    pub early: i64,
    /// The node of the first token that clips it, none where no token does.
    pub clip: Option<u32>,
}

/// The believed occurrences, in order, each with its earliest date and its clip.
pub fn listed(alloc: Global, map: &TimeMap<'_>) -> Result<Seq<BeliefRow>, NoMemory>
    requires seen { IsTimeMap map.now }
    requires holds { HasOccurrences (built map.now.standing.now.present).believed (forest map.now.tree.now) }
    ensures rows { IfOk result (λ list. mapped (row_at (forest map.now.tree.now)) list.items ≡ rows (built map.now.standing.now.present)) }
    ensures listing { IfOk result (λ list. IsListing (forest map.now.tree.now) list.items) }
{
    let nodes = all_ranked(alloc, map.tree, map.net)?;
    let ranked = nodes.as_slice();
    let clips = clips(alloc, map.standing, map.tree, map.net, ranked)?;
    rows_of(alloc, ranked, clips.as_slice())
}

// All nodes in their order, with their dates.
pub(crate) fn all_ranked(alloc: Global, tree: &Tree, net: &DistNet) -> Result<Vec<Ranked>, NoMemory>
    requires { IsTreeIn net.now.present tree.now }
    ensures { IfOk result (λ ranked. AreAllRanked net.now.present (forest tree.now) ranked.items) }
{
    let nodes = tree.numbers(alloc)?;
    let ranked = in_order(alloc, &Order { tree, net }, nodes.as_slice())?;
    Ok(ranked)
}

// The row of each node.
pub(crate) fn rows_of(
    alloc: Global,
    ranked: &[Ranked],
    clips: &[Option<u32>],
) -> Result<Seq<BeliefRow>, NoMemory>
    requires { length clips.now ≡ length ranked.now }
    ensures { IfOk result (λ list. list.items ≡ mapped belief_row (zip ranked.now clips.now)) }
{
    let mut list = Seq::make(alloc);
    for i in 0..ranked.len() {
        let row = BeliefRow {
            node: ranked[i].node,
            early: ranked[i].early,
            clip: clips[i],
        };
        match list.push(row) {
            Ok(()) => {}
            Err(_) => return Err(NoMemory),
        }
    }
    Ok(list)
}

/// The rows as a reply has them.
pub fn list_rows(alloc: Global, tree: &Tree, rows: &[BeliefRow]) -> Result<Seq<ListRow>, NoMemory>
    requires { All (IsLiveRow (forest tree.now)) rows.now }
    ensures { IfOk result (λ told. mapped row_of told.items ≡ mapped (row_at (forest tree.now)) rows.now) }
{
    let mut told = Seq::make(alloc);
    for i in 0..rows.len() {
        let occ = occ_after(alloc, tree, rows[i].node, rows, i, told.items())?;
        let row = list_row(alloc, tree, &rows[i], occ)?;
        push_row(&mut told, row)?;
    }
    Ok(told)
}

// The occurrence of a node, where so many rows are given.
fn occ_after(
    alloc: Global,
    tree: &Tree,
    x: u32,
    rows: &[BeliefRow],
    many: usize,
    before: &[ListRow],
) -> Result<Occ, NoMemory>
    requires x_live { IsLive (forest tree.now) x }
    requires live { All (IsLiveRow (forest tree.now)) rows.now }
    requires within { many ≤ length rows.now }
    requires before { mapped row_of before.now ≡ mapped (row_at (forest tree.now)) (take many rows.now) }
    ensures { IfOk result (λ occ. moment_of occ ≡ moment_at (forest tree.now) x) }
{
    if many == 0 {
        return tree.occ_of(alloc, x);
    }
    let last = many - 1;
    tree.occ_beside(alloc, x, rows[last].node, &before[last].occ)
}

// The row of this occurrence.
fn list_row(alloc: Global, tree: &Tree, row: &BeliefRow, occ: Occ) -> Result<ListRow, NoMemory>
    requires live { IsLiveRow (forest tree.now) row.now }
    requires own { moment_of occ ≡ moment_at (forest tree.now) row.now.node }
    ensures { IfOk result (λ told. row_of told ≡ row_at (forest tree.now) row.now) }
{
    let clip = clip_of(alloc, tree, row, &occ)?;
    Ok(ListRow {
        early: row.early,
        occ,
        what: tree.row(row.node).what,
        clip,
    })
}

fn push_row(rows: &mut Seq<ListRow>, row: ListRow) -> Result<(), NoMemory>
    ensures { OnOk result (rows.new.items ≡ rows.old.items ++ row ∷ []) }
{
    match rows.push(row) {
        Ok(()) => Ok(()),
        Err(_) => Err(NoMemory),
    }
}

fn clip_of(alloc: Global, tree: &Tree, row: &BeliefRow, occ: &Occ) -> Result<Option<Occ>, NoMemory>
    requires live { IsLiveRow (forest tree.now) row.now }
    requires own { moment_of occ.now ≡ moment_at (forest tree.now) row.now.node }
    ensures { IfOk result (λ occ. option_map moment_of occ ≡ option_map (moment_at (forest tree.now)) row.now.clip) }
{
    match row.clip {
        None => Ok(None),
        Some(by) => Ok(Some(tree.occ_beside(alloc, by, row.node, occ)?)),
    }
}

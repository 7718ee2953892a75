// What of belief changed between two lists.
ghost use Rattle.std.specs.Prelude.{◌≡◌, ◌≤◌, ◌++◌, ◌∷◌, [], map, take, length, ◌&&◌, IfOk, OnOk, IfSome, Some};
ghost use Rattle.std.specs.List.{All, filter_map};
ghost use Rattle.std.specs.Option.{option_map, is_some, is_none};
ghost use Rattle.tmm_model.specs.Answers.{rows};
ghost use Rattle.tmm_model.specs.Changes.{clip_pair};
ghost use Rattle.tmm_model.specs.Maps.{TimeMap};
ghost use Rattle.tmm_model.specs.Moments.{moment_of, is_derived};
ghost use Rattle.spots.specs.Forest.{Forest, IsLive, moment_at};
ghost use Rattle.occ_tree.specs.Places.{forest};
ghost use Rattle.belief_list.specs.Rows.{row_at, IsLiveRow, IsListing};
ghost use Rattle.belief_list.specs.Compared.{row_in, clip_in, gone_row, loose_row, clip_row, AreChanges};
ghost use Rattle.belief_list.specs.Matches.{AreMatched};
ghost use Rattle.belief_list.specs.Told.{pairs_of};

use crate::list::BeliefRow;
use crate::matched::{Matched, places_by_name};
use occ_tree::Tree;
use std::alloc::Global;
use tmm_model::{Clip, NoMemory, Occ, Seq};

/// What of belief changed.
#[derive(Drop)]
pub struct BeliefChanges {
    /// The derived occurrences that are believed no longer.
    pub left: Seq<Occ>,
    /// The derived occurrences that are newly believed.
    pub entered: Seq<Occ>,
    /// The tokens that are clipped no longer.
    pub loose: Seq<Occ>,
    /// The tokens that are newly clipped, or by another token.
    pub clips: Seq<Clip>,
}

/// What of belief changed from the old rows to the new ones.
pub fn compare(
    alloc: Global,
    old_tree: &Tree,
    old: &[BeliefRow],
    new_tree: &Tree,
    new: &[BeliefRow],
) -> Result<BeliefChanges, NoMemory>
    requires old { IsListing (forest old_tree.now) old.now }
    requires new { IsListing (forest new_tree.now) new.now }
    ensures left { IfOk result (λ changes. map moment_of changes.left.items ≡ filter_map (gone_row (map (row_at (forest new_tree.now)) new.now)) (map (row_at (forest old_tree.now)) old.now)) }
    ensures entered { IfOk result (λ changes. map moment_of changes.entered.items ≡ filter_map (gone_row (map (row_at (forest old_tree.now)) old.now)) (map (row_at (forest new_tree.now)) new.now)) }
    ensures loose { IfOk result (λ changes. map moment_of changes.loose.items ≡ filter_map (loose_row (map (row_at (forest old_tree.now)) old.now)) (map (row_at (forest new_tree.now)) new.now)) }
    ensures clips { IfOk result (λ changes. map clip_pair changes.clips.items ≡ filter_map (clip_row (map (row_at (forest old_tree.now)) old.now)) (map (row_at (forest new_tree.now)) new.now)) }
    ensures delta { IfOk result (λ changes. (m_old m_new : TimeMap) → map (row_at (forest old_tree.now)) old.now ≡ rows m_old → map (row_at (forest new_tree.now)) new.now ≡ rows m_new → AreChanges m_old m_new changes) }
{
    let old_places = places_by_name(alloc, old_tree, old, new_tree)?;
    let new_places = places_by_name(alloc, new_tree, new, old_tree)?;
    let before = Matched {
        rows: old,
        places: old_places.as_slice(),
    };
    let after = Matched {
        rows: new,
        places: new_places.as_slice(),
    };
    Ok(BeliefChanges {
        left: gone(alloc, old_tree, old, &after)?,
        entered: gone(alloc, new_tree, new, &before)?,
        loose: loosened(alloc, new_tree, new, &before)?,
        clips: clipped(alloc, new_tree, new, &before)?,
    })
}

// The derived occurrences that are not among the other rows.
fn gone(
    alloc: Global,
    tree: &Tree,
    rows: &[BeliefRow],
    others: &Matched<'_>,
) -> Result<Seq<Occ>, NoMemory>
    requires { All (IsLiveRow (forest tree.now)) rows.now }
    ensures { IfOk result (λ occs. (f : Forest) → AreMatched (forest tree.now) f others.now.rows.now others.now.places.now → map moment_of occs.items ≡ filter_map (gone_row (map (row_at f) others.now.rows.now)) (map (row_at (forest tree.now)) rows.now)) }
{
    let mut occs = Seq::make(alloc);
    for row in rows {
        if is_gone(tree, row.node, others) {
            push_occ(alloc, tree, row.node, &mut occs)?;
        }
    }
    Ok(occs)
}

fn is_gone(tree: &Tree, node: u32, others: &Matched<'_>) -> bool
    requires { IsLive (forest tree.now) node }
    ensures { (f : Forest) → AreMatched (forest tree.now) f others.now.rows.now others.now.places.now → result ≡ (is_derived (moment_at (forest tree.now) node) && is_none (row_in (map (row_at f) others.now.rows.now) (moment_at (forest tree.now) node))) }
{
    tree.row(node).parent.is_some() && others.row_of(node).is_none()
}

// The tokens that are clipped no longer.
fn loosened(
    alloc: Global,
    tree: &Tree,
    rows: &[BeliefRow],
    before: &Matched<'_>,
) -> Result<Seq<Occ>, NoMemory>
    requires { All (IsLiveRow (forest tree.now)) rows.now }
    ensures { IfOk result (λ occs. (f : Forest) → AreMatched (forest tree.now) f before.now.rows.now before.now.places.now → map moment_of occs.items ≡ filter_map (loose_row (map (row_at f) before.now.rows.now)) (map (row_at (forest tree.now)) rows.now)) }
{
    let mut occs = Seq::make(alloc);
    for row in rows {
        if is_loosened(row, before) {
            push_occ(alloc, tree, row.node, &mut occs)?;
        }
    }
    Ok(occs)
}

fn is_loosened(row: &BeliefRow, before: &Matched<'_>) -> bool
    ensures { (f other : Forest) → AreMatched f other before.now.rows.now before.now.places.now → IsLive f row.now.node → result ≡ (is_some (clip_in (map (row_at other) before.now.rows.now) (moment_at f row.now.node)) && is_none row.now.clip) }
{
    row.clip.is_none() && before.clip_of(row.node).is_some()
}

// The tokens that are newly clipped, or by another token.
fn clipped(
    alloc: Global,
    tree: &Tree,
    rows: &[BeliefRow],
    before: &Matched<'_>,
) -> Result<Seq<Clip>, NoMemory>
    requires { All (IsLiveRow (forest tree.now)) rows.now }
    ensures { IfOk result (λ clips. (f : Forest) → AreMatched (forest tree.now) f before.now.rows.now before.now.places.now → map clip_pair clips.items ≡ filter_map (clip_row (map (row_at f) before.now.rows.now)) (map (row_at (forest tree.now)) rows.now)) }
{
    let mut clips = Seq::make(alloc);
    for row in rows {
        if let Some(by) = new_clip(row, before) {
            push_clip(alloc, tree, row.node, by, &mut clips)?;
        }
    }
    Ok(clips)
}

// What clips the node of the row, if that is new.
fn new_clip(row: &BeliefRow, before: &Matched<'_>) -> Option<u32>
    ensures clip { (f other : Forest) → AreMatched f other before.now.rows.now before.now.places.now → IsLiveRow f row.now → option_map (λ by. (moment_at f row.now.node, moment_at f by)) result ≡ clip_row (map (row_at other) before.now.rows.now) (row_at f row.now) }
    ensures live { (f : Forest) → IsLiveRow f row.now → IfSome result (IsLive f) }
{
    let by = row.clip?;
    if before.is_clip_of(row.node, by) {
        None
    } else {
        Some(by)
    }
}

// Appends the occurrence of a node.
fn push_occ(alloc: Global, tree: &Tree, node: u32, occs: &mut Seq<Occ>) -> Result<(), NoMemory>
    requires { IsLive (forest tree.now) node }
    ensures { OnOk result (map moment_of occs.new.items ≡ map moment_of occs.old.items ++ moment_at (forest tree.now) node ∷ []) }
{
    match occs.push(tree.occ_of(alloc, node)?) {
        Ok(()) => Ok(()),
        Err(_) => Err(NoMemory),
    }
}

fn push_clip(
    alloc: Global,
    tree: &Tree,
    token: u32,
    by: u32,
    clips: &mut Seq<Clip>,
) -> Result<(), NoMemory>
    requires token { IsLive (forest tree.now) token }
    requires by { IsLive (forest tree.now) by }
    ensures { OnOk result (map clip_pair clips.new.items ≡ map clip_pair clips.old.items ++ (moment_at (forest tree.now) token, moment_at (forest tree.now) by) ∷ []) }
{
    let token = tree.occ_of(alloc, token)?;
    let by = tree.occ_of(alloc, by)?;
    match clips.push(Clip { token, by }) {
        Ok(()) => Ok(()),
        Err(_) => Err(NoMemory),
    }
}

/// The occurrences of these nodes.
pub(crate) fn occs_of(alloc: Global, tree: &Tree, nodes: &[u32]) -> Result<Seq<Occ>, NoMemory>
    requires { All (IsLive (forest tree.now)) nodes.now }
    ensures { IfOk result (λ occs. map moment_of occs.items ≡ map (moment_at (forest tree.now)) nodes.now) }
{
    let mut occs = Seq::make(alloc);
    occs.reserve(nodes.len())?;
    for i in 0..nodes.len() {
        let occ = occ_after(alloc, tree, nodes[i], nodes, i, occs.items())?;
        push_one(&mut occs, occ)?;
    }
    Ok(occs)
}

// The occurrence of a node, where those of so many nodes are given.
fn occ_after(
    alloc: Global,
    tree: &Tree,
    x: u32,
    nodes: &[u32],
    many: usize,
    before: &[Occ],
) -> Result<Occ, NoMemory>
    requires x_live { IsLive (forest tree.now) x }
    requires live { All (IsLive (forest tree.now)) nodes.now }
    requires within { many ≤ length nodes.now }
    requires before { map moment_of before.now ≡ map (moment_at (forest tree.now)) (take many nodes.now) }
    ensures { IfOk result (λ occ. moment_of occ ≡ moment_at (forest tree.now) x) }
{
    if many == 0 {
        return tree.occ_of(alloc, x);
    }
    let last = many - 1;
    tree.occ_beside(alloc, x, nodes[last], &before[last])
}

fn push_one(occs: &mut Seq<Occ>, occ: Occ) -> Result<(), NoMemory>
    ensures { OnOk result (occs.new.items ≡ occs.old.items ++ occ ∷ []) }
{
    match occs.push(occ) {
        Ok(()) => Ok(()),
        Err(_) => Err(NoMemory),
    }
}

/// The occurrences of these tokens, each with that of what clips it.
pub(crate) fn clips_of(
    alloc: Global,
    tree: &Tree,
    pairs: &[(u32, u32)],
) -> Result<Seq<Clip>, NoMemory>
    requires { All (λ p. IsLive (forest tree.now) p.0 × IsLive (forest tree.now) p.1) pairs.now }
    ensures { IfOk result (λ clips. map clip_pair clips.items ≡ pairs_of (forest tree.now) pairs.now) }
{
    let mut clips = Seq::make(alloc);
    for i in 0..pairs.len() {
        let (x, y) = pairs[i];
        let token = token_after(alloc, tree, x, pairs, i, clips.items())?;
        let by = tree.occ_beside(alloc, y, x, &token)?;
        push_clip_of(&mut clips, Clip { token, by })?;
    }
    Ok(clips)
}

// The occurrence of a token, where those of so many tokens are given, each with its clip.
fn token_after(
    alloc: Global,
    tree: &Tree,
    x: u32,
    pairs: &[(u32, u32)],
    many: usize,
    before: &[Clip],
) -> Result<Occ, NoMemory>
    requires x_live { IsLive (forest tree.now) x }
    requires live { All (λ p. IsLive (forest tree.now) p.0 × IsLive (forest tree.now) p.1) pairs.now }
    requires within { many ≤ length pairs.now }
    requires before { map clip_pair before.now ≡ pairs_of (forest tree.now) (take many pairs.now) }
    ensures { IfOk result (λ occ. moment_of occ ≡ moment_at (forest tree.now) x) }
{
    if many == 0 {
        return tree.occ_of(alloc, x);
    }
    let last = many - 1;
    tree.occ_beside(alloc, x, pairs[last].1, &before[last].by)
}

fn push_clip_of(clips: &mut Seq<Clip>, clip: Clip) -> Result<(), NoMemory>
    ensures { OnOk result (clips.new.items ≡ clips.old.items ++ clip ∷ []) }
{
    match clips.push(clip) {
        Ok(()) => Ok(()),
        Err(_) => Err(NoMemory),
    }
}

// What of belief changed, as differences tell it.
ghost use Rattle.std.specs.Prelude.{◌≡◌, ◌++◌, ◌∷◌, [], List, map, filter, Option, Some, IfOk, OnOk, slice_index_or};
ghost use Rattle.std.specs.List.{All, filter_map};
ghost use Rattle.std.specs.List.Sorted.{IsPermutation};
ghost use Rattle.std.specs.Option.{option_map, option_copied, is_some};
ghost use Rattle.tmm_model.specs.declared.premise.Edit.{Edit as AnEdit};
ghost use Rattle.tmm_model.specs.Changes.{clip_pair};
ghost use Rattle.tmm_model.specs.Maps.{built};
ghost use Rattle.tmm_model.specs.Moments.{moment_of, printed};
ghost use Rattle.tmm_model.specs.Standing.{Standing as AStanding};
ghost use Rattle.dist_net.specs.Net.{Net};
ghost use Rattle.premise_list.specs.States.{States};
ghost use Rattle.spots.specs.Forest.{Member, member, IsLive, moment_at};
ghost use Rattle.spots.specs.OfLists.{IsForestOf};
ghost use Rattle.occ_tree.specs.Dated.{IsDatedBy};
ghost use Rattle.occ_tree.specs.OfLists.{IsTreeIn};
ghost use Rattle.occ_tree.specs.Places.{forest};
ghost use Rattle.occ_tree.specs.Standing.{present, early};
ghost use Rattle.occ_tree.specs.Words.{slash_if};
ghost use Rattle.supports.specs.Edited.{old_forest};
ghost use Rattle.belief_list.specs.declared.kept_rows.KeptRow.{KeptRow as AKeptRow};
ghost use Rattle.belief_list.specs.Compared.{AreChanges};
ghost use Rattle.belief_list.specs.LeftNodes.{AreWords};
ghost use Rattle.belief_list.specs.Heads.{told_in, front, AreBytes, head_text, IsHeaded, head_cmp, headed_cmp, AreHeadsInOrder};
ghost use Rattle.belief_list.specs.KeptRows.{AreDifferences};
ghost use Rattle.belief_list.specs.Told.{
  is_entered,
  is_loosened,
  new_clip,
  is_told,
  entered_at,
  loosened_at,
  clipped_at,
  left_at,
  differences_of,
  pairs_of,
  told_cmp,
  AreInOrder,
  AreRanked,
  IsToldThen,
};

use crate::by_number::clip_of;
use crate::changes::{BeliefChanges, clips_of, occs_of};
use crate::kept_rows::Difference;
use crate::left_nodes::{LeftNode, if_derived, places_by_left, push_copy, told_of};
use dist_net::DistNet;
use occ_tree::Tree;
use std::alloc::Global;
use std::cmp::Ordering;
use tmm_model::{Clip, Name, NoMemory, Occ, Seq};

// A node that is gone, of which something is told.
#[derive(Drop)]
struct Told {
    // The earliest date of the occurrence.
    early: i64,
    // The bytes of its word.
    word: Seq<u8>,
    // What an edit makes of its node.
    difference: Difference,
}

// A present node of which something is told, with what it is compared by first.
#[derive(Clone, Copy)]
struct Headed<'a> {
    // The earliest date of the occurrence.
    early: i64,
    // The first bytes of its word as a number, by which most words are told apart.
    head: u64,
    // What an edit makes of its node.
    difference: &'a Difference,
}

/// What of belief changed, where these are the differences that an edit makes, and `left` tells the
/// occurrences of the derived nodes that are gone, in any order. Only what changed is sorted.
/// Without memory it answers that.
pub fn changes_told(
    alloc: Global,
    tree: &Tree,
    net: &DistNet,
    differences: &[Difference],
    left: &[LeftNode<'_>],
) -> Result<BeliefChanges, NoMemory>
    requires dates { IsTreeIn net.now.present tree.now }
    requires left { AreWords (old_forest tree.now) (forest tree.now) left.now }
    ensures { IfOk result (λ changes. (lists : States) (edit : AnEdit) (kept : List (Option AKeptRow)) → AreDifferences lists net.now edit tree.now kept differences.now → AreChanges (built lists.committed) (built lists.present) changes) }
{
    // the nodes have their dates in this network
    let _ = net;
    let places = places_by_left(alloc, left)?;
    let places = places.as_slice();
    let gone = gone_in_order(alloc, left, places, differences)?;
    let present = present_in_order(alloc, tree, differences)?;
    let present = present.as_slice();
    Ok(BeliefChanges {
        left: left_told(alloc, left, places, gone.as_slice())?,
        entered: entered_told(alloc, tree, present)?,
        loose: loosened_told(alloc, tree, present)?,
        clips: clips_told(alloc, tree, present)?,
    })
}

// ---- present nodes

// The present nodes of which something is told, in their order.
fn present_in_order(
    alloc: Global,
    tree: &Tree,
    differences: &[Difference],
) -> Result<Vec<Difference>, NoMemory>
    ensures same { IfOk result (λ told. IsPermutation (filter (is_told (forest tree.now)) differences.now) told.items) }
    ensures in_order { IfOk result (λ told. (s : AStanding) (net : Net) → IsForestOf s net (forest tree.now) → IsDatedBy net (present tree.now) → AreRanked (present tree.now) told.items) }
{
    let mut headed = heads_of(alloc, tree, differences)?;
    sort_headed(tree, &mut headed);
    let told = told_of_heads(alloc, &headed)?;
    Ok(told)
}

// The present nodes of which something is told, with what they are compared by before their words,
// which are far to seek.
fn heads_of<'a>(
    alloc: Global,
    tree: &Tree,
    differences: &'a [Difference],
) -> Result<Vec<Headed<'a>>, NoMemory>
    ensures same { IfOk result (λ headed. told_in headed.items ≡ filter (is_told (forest tree.now)) differences.now) }
    ensures headed { IfOk result (λ headed. All (IsHeaded (present tree.now)) headed.items) }
{
    let mut headed = Vec::with_capacity(alloc, differences.len())?;
    for d in differences {
        if is_told(tree, d) {
            headed.push_reserved(headed_of(tree, d));
        }
    }
    Ok(headed)
}

// A node with its date, and with the first bytes of its word.
fn headed_of<'a>(tree: &Tree, difference: &'a Difference) -> Headed<'a>
    requires live { IsLive (forest tree.now) difference.now.node }
    ensures difference { result.difference.now ≡ difference.entry.now }
    ensures date { result.early ≡ early (present tree.now) difference.entry.now.node }
    ensures head { (m : Member) → member (forest tree.now) difference.entry.now.node ≡ Some m → result.head ≡ front 8 (head_text m) }
    ensures bytes { (m : Member) → member (forest tree.now) difference.entry.now.node ≡ Some m → AreBytes 8 (head_text m) }
{
    let row = tree.row(difference.node);
    let root = tree.row(row.root).name;
    Headed {
        early: tree.early(difference.node),
        head: head_of(&root, row.rules > 0),
        difference,
    }
}

// The first eight bytes of a name, and of `/` behind it where one follows, as a number: zeros stand
// behind fewer.
fn head_of(name: &Name, slash: bool) -> u64
    ensures value { result ≡ front 8 (name.now ++ slash_if slash) }
    ensures bytes { AreBytes 8 (name.now ++ slash_if slash) }
{
    let mut head = 0;
    for i in 0..8 {
        head = head * 256 + u64::from(byte_at(name, slash, i));
    }
    head
}

// The byte at a place of a name, and of `/` behind it where one follows; zero where none stands.
fn byte_at(name: &Name, slash: bool, i: usize) -> u8
    ensures { result ≡ slice_index_or (name.now ++ slash_if slash) i 0 }
{
    let bytes = name.bytes();
    if i < bytes.len() {
        bytes[i]
    } else if slash && i == bytes.len() {
        b'/'
    } else {
        0
    }
}

// Sorts by dates, then by heads, and then by the order of nodes.
fn sort_headed(tree: &Tree, headed: &mut Vec<Headed<'_>>)
    ensures same { IsPermutation headed.old.items headed.new.items }
    ensures in_order { AreHeadsInOrder (present tree.now) headed.new.items }
{
    headed.sort_unstable_by(|p, q| cmp_headed(tree, p, q));
}

// The order of two: by their dates, then by their heads, and then that of their nodes.
fn cmp_headed(tree: &Tree, p: &Headed<'_>, q: &Headed<'_>) -> Ordering
    ensures { result ≡ headed_cmp (present tree.now) p.now q.now }
{
    match p.early.cmp(&q.early) {
        Ordering::Equal => cmp_heads(tree, p, q),
        other => other,
    }
}

// The order of two of one date.
fn cmp_heads(tree: &Tree, p: &Headed<'_>, q: &Headed<'_>) -> Ordering
    ensures { result ≡ head_cmp (present tree.now) p.now q.now }
{
    match p.head.cmp(&q.head) {
        Ordering::Equal => tree.rank(p.difference.node, q.difference.node),
        other => other,
    }
}

// The differences alone.
fn told_of_heads(alloc: Global, headed: &[Headed<'_>]) -> Result<Vec<Difference>, NoMemory>
    ensures { IfOk result (λ told. told.items ≡ told_in headed.now) }
{
    let mut told = Vec::with_capacity(alloc, headed.len())?;
    for h in headed {
        told.push_reserved(*h.difference);
    }
    Ok(told)
}

// Appends the number of a node.
fn push_number(nodes: &mut Vec<u32>, x: u32) -> Result<(), NoMemory>
    ensures { OnOk result (nodes.new.items ≡ nodes.old.items ++ x ∷ []) }
{
    match nodes.push(x) {
        Ok(()) => Ok(()),
        Err(_) => Err(NoMemory),
    }
}

// Appends the numbers of two nodes.
fn push_pair(pairs: &mut Vec<(u32, u32)>, pair: (u32, u32)) -> Result<(), NoMemory>
    ensures { OnOk result (pairs.new.items ≡ pairs.old.items ++ pair ∷ []) }
{
    match pairs.push(pair) {
        Ok(()) => Ok(()),
        Err(_) => Err(NoMemory),
    }
}

// Whether something is told of the node.
fn is_told(tree: &Tree, d: &Difference) -> bool
    ensures { result ≡ is_told (forest tree.now) d.entry.now }
{
    if !tree.is_live(d.node) {
        return false;
    }
    is_entered(tree, d) || is_loosened(d) || new_clip(tree, d).is_some()
}

// Whether the node was not there, and a rule brings it about.
fn is_entered(tree: &Tree, d: &Difference) -> bool
    requires { IsLive (forest tree.now) d.now.node }
    ensures { result ≡ is_entered (forest tree.now) d.entry.now }
{
    d.was.is_none() && tree.row(d.node).parent.is_some()
}

// Whether the node was clipped, and is no longer.
fn is_loosened(d: &Difference) -> bool
    ensures { result ≡ is_loosened d.entry.now }
{
    clip_of(d.was).is_some() && clip_of(d.now).is_none()
}

// What clips the node, if that is new.
fn new_clip(tree: &Tree, d: &Difference) -> Option<u32>
    ensures { result ≡ new_clip (forest tree.now) d.entry.now }
{
    let by = clip_of(d.now)?;
    if tree.is_live(by) && clip_of(d.was) != Some(by) {
        Some(by)
    } else {
        None
    }
}

// The derived occurrences that are newly believed.
fn entered_told(alloc: Global, tree: &Tree, told: &[Difference]) -> Result<Seq<Occ>, NoMemory>
    requires { All (λ d. IsLive (forest tree.now) d.node) told.now }
    ensures { IfOk result (λ occs. map moment_of occs.items ≡ filter_map (entered_at (forest tree.now)) told.now) }
{
    let nodes = entered_nodes(alloc, tree, told)?;
    occs_of(alloc, tree, nodes.as_slice())
}

// Their nodes.
fn entered_nodes(alloc: Global, tree: &Tree, told: &[Difference]) -> Result<Vec<u32>, NoMemory>
    requires { All (λ d. IsLive (forest tree.now) d.node) told.now }
    ensures live { IfOk result (λ nodes. All (IsLive (forest tree.now)) nodes.items) }
    ensures moments { IfOk result (λ nodes. map (moment_at (forest tree.now)) nodes.items ≡ filter_map (entered_at (forest tree.now)) told.now) }
{
    let mut nodes = Vec::with_capacity(alloc, told.len())?;
    for d in told {
        if is_entered(tree, d) {
            push_number(&mut nodes, d.node)?;
        }
    }
    Ok(nodes)
}

// The tokens that are clipped no longer.
fn loosened_told(alloc: Global, tree: &Tree, told: &[Difference]) -> Result<Seq<Occ>, NoMemory>
    requires { All (λ d. IsLive (forest tree.now) d.node) told.now }
    ensures { IfOk result (λ occs. map moment_of occs.items ≡ filter_map (loosened_at (forest tree.now)) told.now) }
{
    let nodes = loosened_nodes(alloc, tree, told)?;
    occs_of(alloc, tree, nodes.as_slice())
}

// Their nodes.
fn loosened_nodes(alloc: Global, tree: &Tree, told: &[Difference]) -> Result<Vec<u32>, NoMemory>
    requires { All (λ d. IsLive (forest tree.now) d.node) told.now }
    ensures live { IfOk result (λ nodes. All (IsLive (forest tree.now)) nodes.items) }
    ensures moments { IfOk result (λ nodes. map (moment_at (forest tree.now)) nodes.items ≡ filter_map (loosened_at (forest tree.now)) told.now) }
{
    let mut nodes = Vec::new(alloc);
    for d in told {
        if is_loosened(d) {
            push_number(&mut nodes, d.node)?;
        }
    }
    Ok(nodes)
}

// The tokens that are newly clipped, or by another token.
fn clips_told(alloc: Global, tree: &Tree, told: &[Difference]) -> Result<Seq<Clip>, NoMemory>
    requires { All (λ d. IsLive (forest tree.now) d.node) told.now }
    ensures { IfOk result (λ clips. map clip_pair clips.items ≡ filter_map (clipped_at (forest tree.now)) told.now) }
{
    let pairs = clip_nodes(alloc, tree, told)?;
    clips_of(alloc, tree, pairs.as_slice())
}

// Their nodes, each with the one that clips it.
fn clip_nodes(alloc: Global, tree: &Tree, told: &[Difference]) -> Result<Vec<(u32, u32)>, NoMemory>
    requires { All (λ d. IsLive (forest tree.now) d.node) told.now }
    ensures live { IfOk result (λ pairs. All (λ p. IsLive (forest tree.now) p.0 × IsLive (forest tree.now) p.1) pairs.items) }
    ensures moments { IfOk result (λ pairs. pairs_of (forest tree.now) pairs.items ≡ filter_map (clipped_at (forest tree.now)) told.now) }
{
    let mut pairs = Vec::new(alloc);
    for d in told {
        if let Some(by) = new_clip(tree, d) {
            push_pair(&mut pairs, (d.node, by))?;
        }
    }
    Ok(pairs)
}

// ---- nodes that are gone

// The derived nodes that are gone, in the order in which they were.
fn gone_in_order(
    alloc: Global,
    left: &[LeftNode<'_>],
    places: &[Option<usize>],
    differences: &[Difference],
) -> Result<Vec<Told>, NoMemory>
    ensures same { IfOk result (λ told. IsPermutation (filter (λ d. is_some (left_at left.now places.now d)) differences.now) (differences_of told.items)) }
    ensures dated { IfOk result (λ told. All (IsToldThen left.now places.now) told.items) }
    ensures in_order { IfOk result (λ told. AreInOrder told.items) }
{
    let mut told = gone_nodes(alloc, left, places, differences)?;
    sort(&mut told);
    Ok(told)
}

// The derived nodes that are gone.
fn gone_nodes(
    alloc: Global,
    left: &[LeftNode<'_>],
    places: &[Option<usize>],
    differences: &[Difference],
) -> Result<Vec<Told>, NoMemory>
    ensures same { IfOk result (λ told. differences_of told.items ≡ filter (λ d. is_some (left_at left.now places.now d)) differences.now) }
    ensures dated { IfOk result (λ told. All (IsToldThen left.now places.now) told.items) }
{
    let mut told = Vec::new(alloc);
    for d in differences {
        if let Some(occ) = left_occ(left, places, d) {
            push(&mut told, gone_node(alloc, d, occ)?)?;
        }
    }
    Ok(told)
}

// A node that is gone with the date that was kept of it, and the word of its occurrence.
fn gone_node(alloc: Global, d: &Difference, occ: &Occ) -> Result<Told, NoMemory>
    ensures early { IfOk result (λ told. (r : AKeptRow) → d.entry.now.was ≡ Some r → told.early ≡ r.early) }
    ensures word { IfOk result (λ told. told.word.items ≡ printed (moment_of occ.now)) }
    ensures difference { IfOk result (λ told. told.difference ≡ d.entry.now) }
{
    Ok(Told {
        early: d.was.map_or(0, |row| row.early),
        word: word_of(alloc, occ)?,
        difference: *d,
    })
}

// The occurrence of a node that was there and is gone, if a rule brings it about.
fn left_occ<'a>(left: &[LeftNode<'a>], places: &[Option<usize>], d: &Difference) -> Option<&'a Occ>
    ensures { option_map moment_of (option_copied result) ≡ left_at left.now places.now d.entry.now }
{
    if d.was.is_none() || d.now.is_some() {
        return None;
    }
    if_derived(told_of(left, places, d.node)?.occ)
}

// The derived occurrences that are believed no longer.
fn left_told(
    alloc: Global,
    left: &[LeftNode<'_>],
    places: &[Option<usize>],
    told: &[Told],
) -> Result<Seq<Occ>, NoMemory>
    ensures { IfOk result (λ occs. map moment_of occs.items ≡ filter_map (left_at left.now places.now) (differences_of told.now)) }
{
    let mut occs = Seq::make(alloc);
    for t in told {
        if let Some(occ) = left_occ(left, places, &t.difference) {
            push_copy(alloc, occ, &mut occs)?;
        }
    }
    Ok(occs)
}

// The word of an occurrence.
fn word_of(alloc: Global, occ: &Occ) -> Result<Seq<u8>, NoMemory>
    ensures { IfOk result (λ word. word.items ≡ printed (moment_of occ.now)) }
{
    let mut word = Seq::make(alloc);
    word.extend(occ.root.bytes())?;
    word.put_links(occ.rules.items())?;
    Ok(word)
}

// Appends one of which something is told.
fn push(told: &mut Vec<Told>, one: Told) -> Result<(), NoMemory>
    ensures { OnOk result (told.new.items ≡ told.old.items ++ one ∷ []) }
{
    match told.push(one) {
        Ok(()) => Ok(()),
        Err(_) => Err(NoMemory),
    }
}

// ---- order

// Sorts by dates, and then by words.
fn sort(told: &mut Vec<Told>)
    ensures same { IsPermutation told.old.items told.new.items }
    ensures in_order { AreInOrder told.new.items }
{
    told.sort_unstable_by(|p, q| cmp_told(p, q));
}

// The order of two: by their dates, and then by the bytes of their words.
fn cmp_told(p: &Told, q: &Told) -> Ordering
    ensures { result ≡ told_cmp p.now q.now }
{
    match p.early.cmp(&q.early) {
        Ordering::Equal => p.word.items().cmp(q.word.items()),
        other => other,
    }
}

// What clips the tokens of a tree, all of them at once, or those of a class.
ghost use Rattle.std.specs.Prelude.{◌≡◌, ◌<◌, ◌+◌, ℕ, List, map, length, drop, IfOk, IfSome, IsNone, MatchOption, OnOk, slice_index_or};
ghost use Rattle.std.specs.List.{All, Contains};
ghost use Rattle.std.specs.List.Sorted.{IsStrictlySortedBy};
ghost use Rattle.std.specs.Option.{option_map, ForSome};
ghost use Rattle.tmm_model.specs.Answers.{clip};
ghost use Rattle.tmm_model.specs.Moments.{Moment};
ghost use Rattle.tmm_model.specs.Standing.{Standing as StandingList};
ghost use Rattle.tmm_model.specs.Tokens.{of_one_class, clips};
ghost use Rattle.clipping.specs.ByDate.{IsByDate};
ghost use Rattle.clipping.specs.Stretches.{rows_of, HaveStretches};
ghost use Rattle.name_lists.specs.Lists.{list_of};
ghost use Rattle.occ_tree.specs.Ranks.{nodes_of};
ghost use Rattle.supports.specs.Entries.{AreBranches};
ghost use Rattle.supports.specs.Firsts.{IsFirstOf, IsClipper};
ghost use Rattle.occ_tree.specs.Tokens.{IsInOrder, numbers_in};
ghost use Rattle.spots.specs.Forest.{IsLive, IsOnce, moment_at};
ghost use Rattle.spots.specs.OfLists.{IsForestOf, HasOccurrences, map_of};
ghost use Rattle.spots.specs.Spots.{IsSpot, AreTokens, spot_distance, spot_early, spot_cmp, node_cmp};
ghost use Rattle.occ_tree.specs.OfLists.{IsTreeIn};
ghost use Rattle.occ_tree.specs.Places.{forest};
ghost use Rattle.occ_tree.specs.Standing.{order, present};
ghost use Rattle.supports.specs.Behind.{AreBehind, IsClip, IsLastNode, token_at};
ghost use Rattle.supports.specs.ClassClips.{AreClips};
ghost use Rattle.supports.specs.Clips.{IsClipBy};
ghost use Rattle.supports.specs.Near.{AreAlike};
ghost use Rattle.supports.specs.Nodes.{IsOfNode};

use crate::branches::Branches;
use crate::near::{Near, Stretch, near_clip};
use crate::{node_of, rivals};
use clipping::{Stretched, last_clipper, stretch_behind};
use dist_net::DistNet;
use name_lists::NameLists;
use occ_tree::{Order, Ranked, Tree};
use premise_list::Standing;
use spots::Spot;
use std::alloc::Global;
use tmm_model::{Name, NoMemory, TokenRow};

/// What clips each node, given all nodes in their order: the node of the first token that does,
/// none exactly where no token does. A span and an event have none. Without memory it answers that.
pub fn clips(
    alloc: Global,
    standing: &Standing,
    tree: &Tree,
    net: &DistNet,
    ranked: &[Ranked],
) -> Result<Vec<Option<u32>>, NoMemory>
    requires dates { IsTreeIn net.now.present tree.now }
    requires live { All (IsLive (forest tree.now)) (nodes_of ranked.now) }
    requires all { (x : ℕ) → IsLive (forest tree.now) x → Contains (nodes_of ranked.now) x }
    requires in_order { IsStrictlySortedBy (node_cmp net.now.present (forest tree.now)) (nodes_of ranked.now) }
    ensures live { IfOk result (λ clips. All (λ clip. IfSome clip (IsLive (forest tree.now))) clips.items) }
    ensures first { IfOk result (λ clips. (b : List Moment) → IsForestOf standing.now.present net.now.present (forest tree.now) → HasOccurrences b (forest tree.now) → map (option_map (moment_at (forest tree.now))) clips.items ≡ map (λ x. clip (map_of standing.now.present b) (moment_at (forest tree.now) x)) (nodes_of ranked.now)) }
{
    let mut clips = Vec::from_elem(alloc, None, ranked.len())?;
    // the tokens behind by their classes: in each class the nearest one stands last
    let mut behind = NameLists::make(alloc);
    for i in (0..ranked.len()).rev() {
        clips[i] = clip_at(alloc, standing, tree, net, ranked, i, &mut behind)?;
    }
    Ok(clips)
}

/// What clips those tokens of a class that are wanted, each at its place: the node of the first
/// token that does, none exactly where none does. A span has none. Tokens before all that are
/// wanted are not looked at. Without memory it answers that.
pub fn class_clips(
    alloc: Global,
    standing: &Standing,
    tree: &Tree,
    net: &DistNet,
    class: &Name,
    wanted: &[bool],
) -> Result<Vec<Option<u32>>, NoMemory>
    requires dates { IsTreeIn net.now.present tree.now }
    requires long { length wanted.now ≡ length ((present tree.now).tokens class.now) }
    ensures each { IfOk result (λ clips. AreClips standing.now.present net.now.present (forest tree.now) ((present tree.now).tokens class.now) wanted.now clips.items) }
    ensures live { IfOk result (λ clips. All (λ clip. IfSome clip (IsLive (forest tree.now))) clips.items) }
{
    let rows = tree.tokens(class);
    let mut clips = Vec::from_elem(alloc, None, rows.len())?;
    // what the search for the one before passed over
    let mut passed = Stretch { first: 0, end: 0 };
    // made where what clips a token is not among those right behind it
    let mut branches = None;
    for i in (0..rows.len()).rev() {
        if wanted[i] {
            let own = class_clip(alloc, tree, net, rows, i, &mut passed, &mut branches)?;
            clips[i] = rivals::clip(standing, tree, net, &rows[i], own);
        }
    }
    Ok(clips)
}

// What clips the token at `i` of those of its class. A span has none.
fn class_clip(
    alloc: Global,
    tree: &Tree,
    net: &DistNet,
    rows: &[TokenRow<Spot>],
    i: usize,
    passed: &mut Stretch,
    branches: &mut Option<Branches>,
) -> Result<Option<u32>, NoMemory>
    requires dates { IsTreeIn net.now.present tree.now }
    requires tokens { (class : List ℕ) × AreTokens (forest tree.now) class rows.now }
    requires in_order { IsInOrder (order (present tree.now)) (numbers_in rows.now) }
    requires within { i < length rows.now }
    requires passed { AreAlike rows.now passed.old }
    requires branches { IfSome branches.old (AreBranches (forest tree.now) rows.now) }
    ensures live { IfOk result (λ clip. IfSome clip (IsLive (forest tree.now))) }
    ensures clip { IfOk result (λ clip. (s : StandingList) → IsClipBy of_one_class s net.now.present (forest tree.now) (slice_index_or (numbers_in rows.now) i 0) clip) }
    ensures passed { OnOk result (AreAlike rows.now passed.new) }
    ensures branches { OnOk result (IfSome branches.new (AreBranches (forest tree.now) rows.now)) }
{
    if rows[i].end.is_some() {
        return Ok(None);
    }
    let order = Order { tree, net };
    let place = clip_place(alloc, &order, rows, i, passed, branches)?;
    match place {
        Some(place) => Ok(Some(node_of(&rows[place]))),
        None => Ok(None),
    }
}

// The place of the first token that clips the one at `i`, were it no span: among the nearest behind
// it, or among all.
fn clip_place(
    alloc: Global,
    order: &Order<'_>,
    rows: &[TokenRow<Spot>],
    i: usize,
    passed: &mut Stretch,
    branches: &mut Option<Branches>,
) -> Result<Option<usize>, NoMemory>
    requires dates { IsTreeIn order.now.net.now.present order.now.tree.now }
    requires tokens { (class : List ℕ) × AreTokens (forest order.now.tree.now) class rows.now }
    requires by_date { IsByDate (spot_early order.now.net.now.present (forest order.now.tree.now)) (spot_cmp order.now.net.now.present (forest order.now.tree.now)) rows.now }
    requires within { i < length rows.now }
    requires passed { AreAlike rows.now passed.old }
    requires branches { IfSome branches.old (AreBranches (forest order.now.tree.now) rows.now) }
    ensures first { IfOk result (IsFirstOf (IsClipper order.now.net.now.present (forest order.now.tree.now) rows.now i)) }
    ensures passed { AreAlike rows.now passed.new }
    ensures branches { OnOk result (IfSome branches.new (AreBranches (forest order.now.tree.now) rows.now)) }
{
    match near_clip(order, rows, i, passed) {
        Near::Found(place) => Ok(place),
        Near::Open => far_clip(alloc, order, rows, i, branches),
    }
}

// The place of the first token that clips the one at `i`, were it no span, by the nodes under which
// tokens are. These are gathered where they are first asked for.
fn far_clip(
    alloc: Global,
    order: &Order<'_>,
    rows: &[TokenRow<Spot>],
    i: usize,
    branches: &mut Option<Branches>,
) -> Result<Option<usize>, NoMemory>
    requires dates { IsTreeIn order.now.net.now.present order.now.tree.now }
    requires tokens { (class : List ℕ) × AreTokens (forest order.now.tree.now) class rows.now }
    requires by_date { IsByDate (spot_early order.now.net.now.present (forest order.now.tree.now)) (spot_cmp order.now.net.now.present (forest order.now.tree.now)) rows.now }
    requires within { i < length rows.now }
    requires branches { IfSome branches.old (AreBranches (forest order.now.tree.now) rows.now) }
    ensures first { IfOk result (IsFirstOf (IsClipper order.now.net.now.present (forest order.now.tree.now) rows.now i)) }
    ensures branches { OnOk result (IfSome branches.new (AreBranches (forest order.now.tree.now) rows.now)) }
{
    let table = gathered(alloc, order.tree, rows, branches.take())?;
    let place = table.first_clipper(alloc, order, rows, i)?;
    *branches = Some(table);
    Ok(place)
}

// The tokens under the nodes above them, where they are not gathered yet.
fn gathered(
    alloc: Global,
    tree: &Tree,
    rows: &[TokenRow<Spot>],
    before: Option<Branches>,
) -> Result<Branches, NoMemory>
    requires tokens { (class : List ℕ) × AreTokens (forest tree.now) class rows.now }
    requires once { IsOnce (forest tree.now) }
    requires before { IfSome before (AreBranches (forest tree.now) rows.now) }
    ensures { IfOk result (AreBranches (forest tree.now) rows.now) }
{
    match before {
        Some(branches) => Ok(branches),
        None => Branches::of(alloc, tree, rows),
    }
}

// What clips the node at a place, given the tokens behind it by their classes, to which its own is
// added. What clips a token begins after it, so of its class it is the nearest behind it that does.
fn clip_at(
    alloc: Global,
    standing: &Standing,
    tree: &Tree,
    net: &DistNet,
    ranked: &[Ranked],
    i: usize,
    behind: &mut NameLists<Stretched<Spot>>,
) -> Result<Option<u32>, NoMemory>
    requires dates { IsTreeIn net.now.present tree.now }
    requires live { All (IsLive (forest tree.now)) (nodes_of ranked.now) }
    requires all { (x : ℕ) → IsLive (forest tree.now) x → Contains (nodes_of ranked.now) x }
    requires in_order { IsStrictlySortedBy (node_cmp net.now.present (forest tree.now)) (nodes_of ranked.now) }
    requires within { i < length ranked.now }
    requires behind { AreBehind (forest tree.now) (drop (i + 1) (nodes_of ranked.now)) (list_of behind.old) }
    ensures live { IfOk result (λ clip. IfSome clip (IsLive (forest tree.now))) }
    ensures clip { IfOk result (IsClip standing.now.present net.now.present (forest tree.now) (slice_index_or (nodes_of ranked.now) i 0)) }
    ensures behind { OnOk result (AreBehind (forest tree.now) (drop i (nodes_of ranked.now)) (list_of behind.new)) }
{
    let Some(token) = token_at(tree, ranked[i].node) else {
        return Ok(None);
    };
    let others = behind.of(&token.class);
    let own = next_clip(tree, net, others, &token);
    let clip = rivals::clip(standing, tree, net, &token, own);
    let first = stretch_behind(others, &token.fact);
    behind.push(alloc, token.class, Stretched { row: token, first })?;
    Ok(clip)
}

// The token that a node is, none for an event.
fn token_at(tree: &Tree, x: u32) -> Option<TokenRow<Spot>>
    requires { IsLive (forest tree.now) x }
    ensures { result ≡ token_at (forest tree.now) x }
{
    let row = tree.row(x);
    let class = row.class?;
    Some(TokenRow {
        spot: Spot::Node(x),
        end: row.end.map(Spot::Declared),
        fact: row.what,
        class,
    })
}

// The node of the last of the tokens that clips `k`. A span has none.
fn next_clip(
    tree: &Tree,
    net: &DistNet,
    behind: &[Stretched<Spot>],
    k: &TokenRow<Spot>,
) -> Option<u32>
    requires dates { IsTreeIn net.now.present tree.now }
    requires nodes { All IsOfNode (rows_of behind.now) }
    requires live { All (λ row. IsSpot net.now.present.names (forest tree.now) row.spot × ForSome row.end (IsSpot net.now.present.names (forest tree.now))) (rows_of behind.now) }
    requires stretches { HaveStretches behind.now }
    requires k_live { IsSpot net.now.present.names (forest tree.now) k.now.spot }
    ensures live { IfSome result (IsLive (forest tree.now)) }
    ensures last { MatchOption k.now.end (IsLastNode (clips of_one_class (spot_distance net.now.present (forest tree.now)) k.now) (rows_of behind.now) result) (λ _. IsNone result) }
{
    if k.end.is_some() {
        return None;
    }
    let place = last_clipper(&Order { tree, net }, behind, k)?;
    Some(node_of(&behind[place].row))
}

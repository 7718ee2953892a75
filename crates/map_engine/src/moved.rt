// What an edit makes of what is believed, where it may touch it.
ghost use Rattle.std.specs.Prelude.{◌≡◌, ◌≤◌, ◌<◌, ℕ, List, Option, false, length, map, IfOk, IfErr, OnOk};
ghost use Rattle.std.specs.List.{All};
ghost use Rattle.tmm_model.specs.declared.premise.Edit.{Edit as AnEdit};
ghost use Rattle.tmm_model.specs.Answers.{size, reports};
ghost use Rattle.tmm_model.specs.Changes.{changes, delta_of};
ghost use Rattle.tmm_model.specs.Maps.{built};
ghost use Rattle.belief_list.specs.declared.kept_rows.KeptRow.{KeptRow as AKeptRow};
ghost use Rattle.belief_list.specs.KeptRows.{AreRowsOf, row_under, CoverTouched, AreDifferences};
ghost use Rattle.belief_table.specs.LastCommit.{KeepLast};
ghost use Rattle.belief_turns.specs.Numbered.{KeepsNumbers, left_under};
ghost use Rattle.belief_turns.specs.Settling.{counted};
ghost use Rattle.belief_net.specs.Updating.{IsKept, IsPending, IsCountedWithin};
ghost use Rattle.protections.specs.Found.{AreFound, found_in};
ghost use Rattle.protections.specs.Reviews.{IsReviewOf};
ghost use Rattle.occ_tree.specs.Places.{forest};
ghost use Rattle.projection.specs.Queues.{IsTooLarge};
ghost use Rattle.revisions.specs.Counted.{changed};
ghost use Rattle.revisions.specs.Ruling.{is_ruling};
ghost use Rattle.spots.specs.OfLists.{HasOccurrences};
ghost use Rattle.supports.specs.Apart.{AreOthersApart};
ghost use Rattle.supports.specs.Edited.{IsEdited, old_forest};
ghost use Rattle.supports.specs.TimeMaps.{IsTimeMap};
ghost use Rattle.list_theory.specs.LeftOut.{IsLeftOut};
ghost use Rattle.map_engine.specs.Gone.{seen_left};
ghost use Rattle.map_engine.specs.NetMaps.{AreNodesOf};
ghost use Rattle.map_engine.specs.Nexts.{IsUnguarded, read_next, HasPlacesFor};
ghost use Rattle.map_engine.specs.Reads.{IsReadOf, read_of};
ghost use Rattle.map_engine.specs.Ruled.{HasRuled};
ghost use Rattle.map_engine.specs.Touching.{IsToldOf};

use crate::kept_view::{KeptView, NextView};
use crate::next::Known;
use crate::touching::{push_ruled, roots_named, touched};
use belief_list::{
    Difference, KeptRow, LeftNode, changes_told, differences, reach, size_after, with_protections,
};
use belief_net::{BeliefNet, DatedOcc, Told};
use dist_net::DistNet;
use map_core::Counter;
use occ_tree::Touched;
use premise_list::Standing;
use protections::{BrokenProtections, Review, review_edit};
use std::alloc::Global;
use supports::TimeMap;
use tmm_model::{Changes, Edit, Name, NoMemory, Seq, Stop};

// Makes nodes and decisions those of the list that the edit leaves, which list and network have
// already, and answers what is read of them then and what changes. Only what the edit may have
// touched is looked at. A map that is too large is refused. After an error `rollback` of the nodes
// leads back.
pub(crate) fn moved(
    alloc: Global,
    edit: &Edit,
    standing: &Standing,
    net: &DistNet,
    nodes: &mut BeliefNet,
    view: &mut KeptView,
    erased: Seq<Name>,
    known: Known,
    counter: &mut Counter,
) -> Result<(NextView, Changes), Stop>
    requires kept { IsKept standing.now.committed net.now.committed nodes.old }
    requires view { IsReadOf standing.now.committed (forest nodes.old.tree) (read_of view.old) }
    requires pending { IsPending standing.now net.now edit.now erased.items }
    requires before { known.before ≡ standing.now.committed.horizon }
    requires ruling { known.ruling ≡ is_ruling standing.now.committed.premises edit.now }
    requires unguarded_before { known.guarded ≡ false → IsUnguarded standing.now.committed }
    requires unguarded_now { known.guarded ≡ false → IsUnguarded standing.now.present }
    ensures nodes { OnOk result (AreNodesOf standing.now.present net.now.present nodes.new) }
    ensures view { IfOk result (λ made. IsReadOf standing.now.present (forest nodes.new.tree) (read_next view.new made.0)) }
    ensures places { IfOk result (λ made. HasPlacesFor view.new made.0) }
    ensures same { read_of view.new ≡ read_of view.old }
    ensures changes { IfOk result (λ made. delta_of made.1 ≡ changes standing.now.committed standing.now.present) }
    ensures stops { IfErr result (IsTooLarge (size (built standing.now.present))) }
    ensures counted { counter.old ≤ counter.new }
    ensures within { IsCountedWithin standing.now counter.old counter.new }
    ensures least { OnOk result (counted counter.old (changed standing.now.committed standing.now.present) ≤ counter.new) }
    ensures last { KeepLast nodes.old nodes.new }
{
    // it tells the proof that no count is above the greatest
    let _ = counter.value();
    let Ok(mut others) = roots_named(alloc, nodes.tree(), erased.items()) else {
        return Err(Stop::NoMemory);
    };
    let told = nodes.update(
        alloc,
        edit,
        erased.items(),
        net,
        standing,
        known.before,
        counter,
    )?;
    let Ok(()) = push_ruled(alloc, edit, nodes, known.ruling, &mut others) else {
        return Err(Stop::NoMemory);
    };
    let map = TimeMap {
        standing,
        tree: nodes.tree(),
        net,
    };
    read(
        alloc,
        edit,
        &map,
        &told,
        others.as_slice(),
        view,
        erased,
        known,
    )
}

// What is read of the nodes of a tree, and what changed since its last commit, where it is told
// what entered and left, and among these other numbers are those of the roots that are gone, and of
// the events of which the rules changed.
fn read(
    alloc: Global,
    edit: &Edit,
    map: &TimeMap<'_>,
    told: &Told,
    others: &[u32],
    view: &mut KeptView,
    erased: Seq<Name>,
    known: Known,
) -> Result<(NextView, Changes), Stop>
    requires seen { IsTimeMap map.now }
    requires holds { HasOccurrences (built map.now.standing.now.present).believed (forest map.now.tree.now) }
    requires told { IsToldOf map.now.standing.now map.now.net.now edit.now map.now.tree.now told.now others.now }
    requires ruled { HasRuled (forest map.now.tree.now) map.now.standing.now.committed.premises edit.now others.now }
    requires view { IsReadOf map.now.standing.now.committed (old_forest map.now.tree.now) (read_of view.old) }
    requires left_out { IsLeftOut map.now.standing.now.committed map.now.standing.now.present erased.items }
    requires unguarded_before { known.guarded ≡ false → IsUnguarded map.now.standing.now.committed }
    requires unguarded_now { known.guarded ≡ false → IsUnguarded map.now.standing.now.present }
    ensures view { IfOk result (λ made. IsReadOf map.now.standing.now.present (forest map.now.tree.now) (read_next view.new made.0)) }
    ensures places { IfOk result (λ made. HasPlacesFor view.new made.0) }
    ensures same { read_of view.new ≡ read_of view.old }
    ensures changes { IfOk result (λ made. delta_of made.1 ≡ changes map.now.standing.now.committed map.now.standing.now.present) }
    ensures stops { IfErr result (IsTooLarge (size (built map.now.standing.now.present))) }
{
    let Ok(found) = touched(alloc, edit, map, told, others) else {
        return Err(Stop::NoMemory);
    };
    let Ok(made) = differing(alloc, map, &found, &mut view.rows) else {
        return Err(Stop::NoMemory);
    };
    let size = size_after(view.size, made.as_slice())?;
    let Ok((review, changes)) = tell(
        alloc,
        edit,
        map,
        told.left.items(),
        found.classes.as_slice(),
        made.as_slice(),
        &view.broken,
        erased,
        known.guarded,
    ) else {
        return Err(Stop::NoMemory);
    };
    let Ok(()) = view.broken.reserve(&review) else {
        return Err(Stop::NoMemory);
    };
    let next = NextView {
        size,
        differences: made,
        review,
    };
    Ok((next, changes))
}

// What the edit makes of nodes, each of which has a place then in what is kept.
fn differing(
    alloc: Global,
    map: &TimeMap<'_>,
    found: &Touched,
    rows: &mut Vec<Option<KeptRow>>,
) -> Result<Vec<Difference>, NoMemory>
    requires seen { IsTimeMap map.now }
    requires kept { AreRowsOf map.now.standing.now.committed (old_forest map.now.tree.now) (row_under rows.old.items) }
    requires covered { CoverTouched map.now.standing.now map.now.net.now map.now.tree.now found.now.nodes.items found.now.classes.items }
    ensures made { IfOk result (λ made. (edit : AnEdit) → IsEdited map.now.standing.now map.now.net.now edit map.now.tree.now → AreDifferences map.now.standing.now map.now.net.now edit map.now.tree.now rows.new.items made.items) }
    ensures places { IfOk result (λ made. All (λ d. d.node < length rows.new.items) made.items) }
    ensures same { (x : ℕ) → row_under rows.new.items x ≡ row_under rows.old.items x }
{
    reach(alloc, rows, map.tree.limit())?;
    differences(
        alloc,
        map,
        found.nodes.as_slice(),
        found.classes.as_slice(),
        rows.as_slice(),
    )
}

// What the edit makes of protections, and what it changes, where these are its differences.
fn tell(
    alloc: Global,
    edit: &Edit,
    map: &TimeMap<'_>,
    left: &[DatedOcc],
    classes: &[Name],
    made: &[Difference],
    before: &BrokenProtections,
    erased: Seq<Name>,
    guarded: bool,
) -> Result<(Review, Changes), NoMemory>
    requires seen { IsTimeMap map.now }
    requires holds { HasOccurrences (built map.now.standing.now.present).believed (forest map.now.tree.now) }
    requires edited { IsEdited map.now.standing.now map.now.net.now edit.now map.now.tree.now }
    requires others { AreOthersApart map.now.standing.now map.now.net.now map.now.tree.now classes.now }
    requires numbers { KeepsNumbers map.now.tree.now (left_under left.now) }
    requires made { (kept : List (Option AKeptRow)) × AreDifferences map.now.standing.now map.now.net.now edit.now map.now.tree.now kept made.now }
    requires before { AreFound (reports (built map.now.standing.now.committed)) (found_in before.now) }
    requires left_out { IsLeftOut map.now.standing.now.committed map.now.standing.now.present erased.items }
    requires unguarded_before { guarded ≡ false → IsUnguarded map.now.standing.now.committed }
    requires unguarded_now { guarded ≡ false → IsUnguarded map.now.standing.now.present }
    ensures review { IfOk result (λ told. IsReviewOf (built map.now.standing.now.committed) (built map.now.standing.now.present) (found_in before.now) told.0) }
    ensures changes { IfOk result (λ told. delta_of told.1 ≡ changes map.now.standing.now.committed map.now.standing.now.present) }
{
    let review = reviewed(alloc, edit, map, classes, before, erased.items(), guarded)?;
    let nodes = left_nodes(alloc, left)?;
    let believed = changes_told(alloc, map.tree, map.net, made, nodes.as_slice())?;
    let (broken, mended) = review.told(alloc)?;
    let changes = with_protections(erased, believed, broken, mended);
    Ok((review, changes))
}

// What the edit makes of protections. Where none stands nothing is looked at.
fn reviewed(
    alloc: Global,
    edit: &Edit,
    map: &TimeMap<'_>,
    classes: &[Name],
    before: &BrokenProtections,
    erased: &[Name],
    guarded: bool,
) -> Result<Review, NoMemory>
    requires seen { IsTimeMap map.now }
    requires holds { HasOccurrences (built map.now.standing.now.present).believed (forest map.now.tree.now) }
    requires edited { IsEdited map.now.standing.now map.now.net.now edit.now map.now.tree.now }
    requires others { AreOthersApart map.now.standing.now map.now.net.now map.now.tree.now classes.now }
    requires before { AreFound (reports (built map.now.standing.now.committed)) (found_in before.now) }
    requires left_out { IsLeftOut map.now.standing.now.committed map.now.standing.now.present erased.now }
    requires unguarded_before { guarded ≡ false → IsUnguarded map.now.standing.now.committed }
    requires unguarded_now { guarded ≡ false → IsUnguarded map.now.standing.now.present }
    ensures { IfOk result (IsReviewOf (built map.now.standing.now.committed) (built map.now.standing.now.present) (found_in before.now)) }
{
    if !guarded {
        return Ok(Review::none(alloc));
    }
    review_edit(
        alloc,
        map.standing,
        map.tree,
        map.net,
        edit,
        classes,
        erased,
        before,
    )
}

// The nodes of these occurrences.
fn left_nodes<'a>(alloc: Global, left: &'a [DatedOcc]) -> Result<Vec<LeftNode<'a>>, NoMemory>
    ensures { IfOk result (λ nodes. map seen_left nodes.items ≡ left_under left.now) }
{
    let mut nodes = Vec::new(alloc);
    for gone in left {
        match nodes.push(LeftNode {
            node: gone.node,
            occ: &gone.occ,
        }) {
            Ok(()) => {}
            Err(_) => return Err(NoMemory),
        }
    }
    Ok(nodes)
}

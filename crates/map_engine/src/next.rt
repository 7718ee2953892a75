// What is read of the believed occurrences once a pending edit is made.
ghost use Rattle.std.specs.Prelude.{◌≡◌, ◌≤◌, ◌||◌, [], Some, true, false, IfOk, IfErr, OnOk};
ghost use Rattle.tmm_model.specs.Answers.{size};
ghost use Rattle.tmm_model.specs.Changes.{changes, delta_of};
ghost use Rattle.tmm_model.specs.Maps.{built};
ghost use Rattle.belief_table.specs.LastCommit.{KeepLast};
ghost use Rattle.belief_turns.specs.Settling.{counted};
ghost use Rattle.belief_net.specs.Updating.{IsPending, IsCountedWithin};
ghost use Rattle.occ_tree.specs.Places.{forest};
ghost use Rattle.projection.specs.Queues.{IsTooLarge};
ghost use Rattle.revisions.specs.Alike.{SayAlike, AreAlike};
ghost use Rattle.revisions.specs.Counted.{changed};
ghost use Rattle.revisions.specs.Ruling.{is_ruling};
ghost use Rattle.spots.specs.OfLists.{HasOccurrences};
ghost use Rattle.supports.specs.Edited.{IsEdited, AreOthersUntouched};
ghost use Rattle.supports.specs.TimeMaps.{IsTimeMap};
ghost use Rattle.list_theory.specs.LeftOut.{IsLeftOut};
ghost use Rattle.map_engine.specs.NetMaps.{AreNodesOf, IsResting};
ghost use Rattle.map_engine.specs.Nexts.{after, read_next, HasPlacesFor, HasPlacesIn, pending_list, IsUnguarded, adds_protection};
ghost use Rattle.map_engine.specs.Reads.{IsReadOf, read_of};

use crate::kept_view::{KeptView, NextView};
use crate::moved::moved;
use crate::still::is_still;
use belief_list::take_over;
use belief_net::BeliefNet;
use dist_net::DistNet;
use map_core::Counter;
use premise_list::Standing;
use protections::{Review, review_edit};
use std::alloc::Global;
use supports::TimeMap;
use tmm_model::{Changes, Edit, Name, NoMemory, Premise, Report, Seq, Stop};

// What is read of the believed occurrences of the list that a pending edit leaves, beside what was
// read before it.
#[derive(Drop)]
pub(crate) enum Next {
    // No edit is pending.
    Nothing,
    // All is the same.
    Same,
    // Beliefs are the same, and this is made of protections.
    Reviewed(Review),
    // These are to be taken over.
    Changed(NextView),
}

// What is known of an edit beside the list that it leaves.
#[derive(Clone, Copy)]
pub(crate) struct Known {
    // It added or retracted nothing that beliefs read.
    pub unread: bool,
    // It may change which rules are on a kind.
    pub ruling: bool,
    // A protection may stand before or after it.
    pub guarded: bool,
    // The horizon before it.
    pub before: u32,
}

// Makes nodes and decisions those of the list that an edit leaves, which list and network have
// already, and answers what is read of them then and what changes. Where the same is believed of
// both lists, nothing of the size of the map is walked, and premises only if a protection may
// stand; else no more decisions are made than the edit touches. After an error `rollback` of the
// nodes leads back.
pub(crate) fn draw_next(
    alloc: Global,
    edit: &Edit,
    standing: &Standing,
    net: &DistNet,
    nodes: &mut BeliefNet,
    view: &mut KeptView,
    erased: Seq<Name>,
    known: Known,
    counter: &mut Counter,
) -> Result<(Next, Changes), Stop>
    requires rests { IsResting standing.now.committed net.now.committed nodes.old view.old }
    requires pending { IsPending standing.now net.now edit.now erased.items }
    requires before { known.before ≡ standing.now.committed.horizon }
    requires unread { known.unread ≡ true → SayAlike standing.now.committed standing.now.present }
    requires ruling { known.ruling ≡ is_ruling standing.now.committed.premises edit.now }
    requires unguarded_before { known.guarded ≡ false → IsUnguarded standing.now.committed }
    requires unguarded_now { known.guarded ≡ false → IsUnguarded standing.now.present }
    ensures nodes { OnOk result (AreNodesOf standing.now.present net.now.present nodes.new) }
    ensures view { IfOk result (λ made. IsReadOf standing.now.present (forest nodes.new.tree) (after view.new made.0)) }
    ensures places { IfOk result (λ made. HasPlacesIn view.new made.0) }
    ensures same { read_of view.new ≡ read_of view.old }
    ensures pending { IfOk result (λ made. pending_list standing.now.present made.0 ≡ Some standing.now.present) }
    ensures changes { IfOk result (λ made. delta_of made.1 ≡ changes standing.now.committed standing.now.present) }
    ensures stops { IfErr result (IsTooLarge (size (built standing.now.present))) }
    ensures counted { counter.old ≤ counter.new }
    ensures within { IsCountedWithin standing.now counter.old counter.new }
    ensures least { OnOk result (counted counter.old (changed standing.now.committed standing.now.present) ≤ counter.new) }
    ensures last { KeepLast nodes.old nodes.new }
{
    // it tells the proof that no count is above the greatest
    let _ = counter.value();
    if is_still(standing, net, known.unread) {
        let map = TimeMap {
            standing,
            tree: nodes.tree(),
            net,
        };
        // it tells the proof that the tokens of each class are those of the nodes
        map.tree.have_tokens();
        match unmoved(alloc, edit, &map, view, erased, known.guarded) {
            Ok(made) => Ok(made),
            Err(NoMemory) => Err(Stop::NoMemory),
        }
    } else {
        let (next, changes) = moved(
            alloc, edit, standing, net, nodes, view, erased, known, counter,
        )?;
        Ok((Next::Changed(next), changes))
    }
}

// The same where the list that the edit leaves is alike in all that beliefs read, and no class is
// touched: those protections are looked at again that the edit adds, or of which a point moved.
fn unmoved(
    alloc: Global,
    edit: &Edit,
    map: &TimeMap<'_>,
    view: &mut KeptView,
    erased: Seq<Name>,
    guarded: bool,
) -> Result<(Next, Changes), NoMemory>
    requires view { IsReadOf map.now.standing.now.committed (forest map.now.tree.now) (read_of view.old) }
    requires seen { IsTimeMap map.now }
    requires holds { HasOccurrences (built map.now.standing.now.present).believed (forest map.now.tree.now) }
    requires alike { AreAlike map.now.standing.now.committed map.now.standing.now.present }
    requires edited { IsEdited map.now.standing.now map.now.net.now edit.now map.now.tree.now }
    requires others { AreOthersUntouched map.now.net.now map.now.tree.now [] }
    requires unguarded_before { guarded ≡ false → IsUnguarded map.now.standing.now.committed }
    requires unguarded_now { guarded ≡ false → IsUnguarded map.now.standing.now.present }
    requires left_out { IsLeftOut map.now.standing.now.committed map.now.standing.now.present erased.items }
    ensures view { IfOk result (λ made. IsReadOf map.now.standing.now.present (forest map.now.tree.now) (after view.new made.0)) }
    ensures places { IfOk result (λ made. HasPlacesIn view.new made.0) }
    ensures same { read_of view.new ≡ read_of view.old }
    ensures pending { IfOk result (λ made. pending_list map.now.standing.now.present made.0 ≡ Some map.now.standing.now.present) }
    ensures changes { IfOk result (λ made. delta_of made.1 ≡ changes map.now.standing.now.committed map.now.standing.now.present) }
{
    if !guarded {
        let changes = changes_of(alloc, erased, Seq::make(alloc), Seq::make(alloc));
        return Ok((Next::Same, changes));
    }
    let review = review_edit(
        alloc,
        map.standing,
        map.tree,
        map.net,
        edit,
        &[],
        erased.items(),
        &view.broken,
    )?;
    view.broken.reserve(&review)?;
    let (broken, mended) = review.told(alloc)?;
    let changes = changes_of(alloc, erased, broken, mended);
    Ok((Next::Reviewed(review), changes))
}

// Changes among premises and protections alone.
fn changes_of(alloc: Global, erased: Seq<Name>, broken: Seq<Report>, mended: Seq<Name>) -> Changes
    ensures erased { result.erased.items ≡ erased.items }
    ensures left { result.left.items ≡ [] }
    ensures entered { result.entered.items ≡ [] }
    ensures loose { result.loose.items ≡ [] }
    ensures clips { result.clips.items ≡ [] }
    ensures broken { result.broken.items ≡ broken.items }
    ensures mended { result.mended.items ≡ mended.items }
{
    Changes {
        erased,
        left: Seq::make(alloc),
        entered: Seq::make(alloc),
        loose: Seq::make(alloc),
        clips: Seq::make(alloc),
        broken,
        mended,
    }
}

// Makes what is read after a pending edit what is kept. It takes no memory.
pub(crate) fn keep(view: &mut KeptView, next: Next)
    requires { HasPlacesIn view.old next }
    ensures { read_of view.new ≡ after view.old next }
{
    match next {
        Next::Nothing | Next::Same => {}
        Next::Reviewed(review) => view.broken.take_over(review),
        Next::Changed(made) => take_over_all(view, made),
    }
}

// Takes over what an edit made another.
fn take_over_all(view: &mut KeptView, made: NextView)
    requires { HasPlacesFor view.old made }
    ensures { read_of view.new ≡ read_next view.old made }
{
    take_over(&mut view.rows, made.differences.as_slice());
    view.size = made.size;
    view.broken.take_over(made.review);
}

// Whether a protection may stand before or after the edit, where it is told whether one may before.
pub(crate) fn may_guard(guarded: bool, edit: &Edit) -> bool
    ensures { result ≡ (guarded || adds_protection edit.now) }
{
    guarded || matches!(edit, Edit::Add(Premise::Protect { .. }))
}

// The map whose beliefs are kept current.
ghost use Rattle.std.specs.Prelude.{◌≡◌, ◌≤◌, ℕ, false, None, Some, IfOk, IfErr, OnOk, OnErr};
ghost use Rattle.tmm_model.specs.Changes.{changes, delta_of};
ghost use Rattle.tmm_model.specs.Edits.{next_list};
ghost use Rattle.tmm_model.specs.Kept.{IsAccepted};
ghost use Rattle.tmm_model.specs.Lines.{IsWellFormedEdit};
ghost use Rattle.tmm_model.specs.Standing.{empty_list};
ghost use Rattle.belief_turns.specs.Settling.{counted};
ghost use Rattle.belief_net.specs.Updating.{IsKept};
ghost use Rattle.occ_tree.specs.Places.{forest};
ghost use Rattle.spots.specs.Forest.{member};
ghost use Rattle.list_net.specs.Settled.{NothingPending};
ghost use Rattle.revisions.specs.Counted.{changed};
ghost use Rattle.map_engine.specs.NetMaps.{CountsEdit, IsHeld, IsResting};
ghost use Rattle.map_core.specs.Stops.{StopsEdit, NamesEdited};

use crate::kept_view::{KeptView, audited_view, first_view, kept_rows};
use crate::next::{Known, Next, draw_next, keep, may_guard};
use crate::still::{is_ruling, is_unread};
use belief_net::BeliefNet;
use dist_net::DistNet;
use justify::{ask_between, bounds_between, path_between, tell_why};
use list_net::{apply_edit, roll_back};
use map_core::{Copies, Counter, Listener, MapCore, Opens, Pending};
use premise_list::Standing;
use std::alloc::Global;
use std::marker::Model;
use std::mem;
use supports::TimeMap;
use tmm_model::{
    Answer, Bound, Edit, ListRow, Name, NoMemory, Occ, QueryPoint, Report, Seq, Stop, WalkStep,
};

/// A map that keeps the standing list, its distances, and the believed occurrences with the
/// decisions on which they rest. An edit that moves no point of an occurrence, and adds or retracts
/// points, constraints and protections alone, leaves these as they are; at any other only those
/// decisions are made again that it touches, and what it changed is undone by a rollback.
#[derive(Drop)]
pub struct NetMap {
    standing: Standing,
    net: DistNet,
    // the believed occurrences and the decisions, of the list that a pending edit leaves
    nodes: BeliefNet,
    // what is read of the believed occurrences of the last commit
    view: KeptView,
    // whether a protection was ever added: where none was, none stands
    guarded: bool,
    // what is read of those of the list that a pending edit leaves
    next: Next,
}

impl Model for NetMap {
    ghost use Rattle.map_core.specs.MapStates.{MapState};
    ghost use Rattle.map_engine.specs.Nexts.{pending_list};
    ghost use Rattle.map_engine.specs.NetMaps.{IsNetMap};

    ghost Value = { MapState };

    ghost view = { λ m. record { list = m.standing.committed; pending = pending_list m.standing.present m.next } };

    ghost invariant = { λ m. IsNetMap m.standing m.net m.nodes m.view m.guarded m.next };
}

impl NetMap {
    /// The empty map, with nothing pending.
    pub fn make(alloc: Global) -> Result<NetMap, NoMemory>
        ensures list { IfOk result (λ m. m.list ≡ empty_list) }
        ensures idle { IfOk result (λ m. m.pending ≡ None) }
    {
        let standing = Standing::make(alloc);
        let net = DistNet::make(alloc)?;
        net.invariants();
        let nodes = BeliefNet::make(alloc);
        Ok(first_map(alloc, standing, net, nodes))
    }
}

// The map of a list in which nothing is declared to occur, so that there is no node, and no
// protection stands. It asks for no memory, so that no way out has all these parts to drop.
fn first_map(alloc: Global, standing: Standing, net: DistNet, nodes: BeliefNet) -> NetMap
    requires settled { NothingPending standing net }
    requires held { IsHeld standing.present net.present false }
    requires kept { IsKept standing.present net.present nodes }
    requires empty { (x : ℕ) → member (forest nodes.tree) x ≡ None }
    ensures list { result.list ≡ standing.committed }
    ensures idle { result.pending ≡ None }
{
    let view = first_view(alloc);
    NetMap {
        standing,
        net,
        nodes,
        view,
        guarded: false,
        next: Next::Nothing,
    }
}

// The map of a list that it may be kept for, with nothing pending. It asks for no memory.
fn resting_map(
    standing: Standing,
    net: DistNet,
    nodes: BeliefNet,
    view: KeptView,
    guarded: bool,
) -> NetMap
    requires settled { NothingPending standing net }
    requires held { IsHeld standing.committed net.committed guarded }
    requires rests { IsResting standing.committed net.committed nodes view }
    ensures list { result.list ≡ standing.committed }
    ensures idle { result.pending ≡ None }
{
    NetMap {
        standing,
        net,
        nodes,
        view,
        guarded,
        next: Next::Nothing,
    }
}

impl Copies for NetMap {
    fn copy(&self, alloc: Global) -> Result<NetMap, NoMemory> {
        let view = self.view.copy(alloc)?;
        let standing = self.standing.copy(alloc)?;
        let net = self.net.copy(alloc)?;
        let nodes = self.nodes.copy(alloc)?;
        Ok(resting_map(standing, net, nodes, view, self.guarded))
    }
}

impl Opens for NetMap {
    fn open(alloc: Global) -> Result<NetMap, NoMemory> {
        NetMap::make(alloc)
    }
}

impl MapCore for NetMap {
    ghost list = { λ m. m.list };

    ghost pending = { λ m. m.pending };

    fn apply(&mut self, alloc: Global, edit: &Edit, counter: &mut Counter) -> Result<Pending, Stop>
        requires idle { self.old.pending ≡ None }
        requires well_formed { IsWellFormedEdit edit.now }
        ensures accepted { IfOk result (λ made. IsAccepted self.old.list edit.now) }
        ensures changes { IfOk result (λ made. delta_of made.changes ≡ changes self.old.list (next_list self.old.list edit.now)) }
        ensures pending { IfOk result (λ made. self.new.pending ≡ Some (next_list self.old.list edit.now)) }
        ensures stops { IfErr result (StopsEdit self.old.list edit.now) }
        ensures named { IfErr result NamesEdited }
        ensures idle { OnErr result (self.new.pending ≡ None) }
        ensures kept { self.new.list ≡ self.old.list }
        ensures counted { counter.old ≤ counter.new }

        // how many decisions are made: none that the edit does not touch, and all that it changes
        ensures within { CountsEdit self.old.list edit.now counter.old counter.new }
        ensures least { OnOk result (counted counter.old (changed self.old.list (next_list self.old.list edit.now)) ≤ counter.new) }
    {
        // it tells the proof that no count is above the greatest
        let _ = counter.value();
        if let Err(refusal) = self.standing.check(edit) {
            return Err(Stop::Refused(refusal));
        }
        self.guarded = may_guard(self.guarded, edit);
        let known = Known {
            unread: is_unread(&self.standing, edit),
            ruling: is_ruling(&self.standing, edit),
            guarded: self.guarded,
            before: self.standing.horizon(),
        };
        let erased = apply_edit(alloc, &mut self.standing, &mut self.net, edit)?;
        match draw_next(
            alloc,
            edit,
            &self.standing,
            &self.net,
            &mut self.nodes,
            &mut self.view,
            erased,
            known,
            counter,
        ) {
            Ok((next, changes)) => {
                self.next = next;
                Ok(Pending { changes })
            }
            Err(stop) => {
                roll_back(&mut self.standing, &mut self.net);
                self.nodes.rollback();
                Err(stop)
            }
        }
    }

    fn commit(&mut self) {
        self.standing.commit();
        self.net.commit();
        self.nodes.commit();
        let next = mem::replace(&mut self.next, Next::Nothing);
        keep(&mut self.view, next);
    }

    fn rollback(&mut self) {
        roll_back(&mut self.standing, &mut self.net);
        self.nodes.rollback();
        self.next = Next::Nothing;
    }

    fn bounds(
        &self,
        alloc: Global,
        p: &QueryPoint,
        q: &QueryPoint,
    ) -> Result<(Bound, Bound), Stop> {
        let map = TimeMap {
            standing: &self.standing,
            tree: self.nodes.tree(),
            net: &self.net,
        };
        bounds_between(alloc, &map, p, q)
    }

    fn path(
        &self,
        alloc: Global,
        p: &QueryPoint,
        q: &QueryPoint,
    ) -> Result<(Bound, Seq<WalkStep>), Stop> {
        let map = TimeMap {
            standing: &self.standing,
            tree: self.nodes.tree(),
            net: &self.net,
        };
        path_between(alloc, &map, p, q)
    }

    fn ask(
        &self,
        alloc: Global,
        fact: Name,
        p: &QueryPoint,
        q: &QueryPoint,
    ) -> Result<Answer, Stop> {
        let map = TimeMap {
            standing: &self.standing,
            tree: self.nodes.tree(),
            net: &self.net,
        };
        ask_between(alloc, &map, fact, p, q)
    }

    fn why<R: Listener>(&self, alloc: Global, occ: &Occ, listener: &mut R) -> Result<(), Stop> {
        let map = TimeMap {
            standing: &self.standing,
            tree: self.nodes.tree(),
            net: &self.net,
        };
        tell_why(alloc, &map, occ, listener)
    }

    fn check(&self, alloc: Global) -> Result<Seq<Report>, NoMemory> {
        self.view.broken.listed(alloc, &self.standing)
    }

    fn list(&self, alloc: Global) -> Result<Seq<ListRow>, NoMemory> {
        let map = TimeMap {
            standing: &self.standing,
            tree: self.nodes.tree(),
            net: &self.net,
        };
        kept_rows(alloc, &map, &self.view)
    }

    fn audit(&self, alloc: Global) -> Result<bool, NoMemory> {
        let map = TimeMap {
            standing: &self.standing,
            tree: self.nodes.tree(),
            net: &self.net,
        };
        audited_view(alloc, &map, &self.view)
    }

    fn standing(&self) -> &Standing {
        &self.standing
    }

    fn size(&self) -> u64 {
        self.view.size
    }
}

// The plain map: distances are kept current, and beliefs are made afresh at each edit.
ghost use Rattle.std.specs.Prelude.{◌≡◌, None, IfOk};
ghost use Rattle.tmm_model.specs.Standing.{empty_list};

use crate::beliefs::{Beliefs, project, project_and_compare};
use crate::view::{audited, told_rows};
use dist_net::DistNet;
use justify::{ask_between, bounds_between, path_between, tell_why};
use list_net::{apply_edit, roll_back};
use map_core::{Counter, Listener, MapCore, Pending};
use premise_list::Standing;
use protections::copied;
use std::alloc::Global;
use std::marker::Model;
use supports::TimeMap;
use tmm_model::{
    Answer, Bound, Edit, ListRow, Name, NoMemory, Occ, QueryPoint, Report, Seq, Stop, WalkStep,
};

/// A map that keeps the standing list, its distances and its beliefs. Those before a pending edit
/// are kept until it is committed.
#[derive(Drop)]
pub struct PlainMap {
    standing: Standing,
    net: DistNet,
    // of the list of the last commit
    beliefs: Beliefs,
    // of the list that a pending edit leaves
    next: Option<Beliefs>,
}

impl Model for PlainMap {
    ghost use Rattle.std.specs.Option.{option_map};
    ghost use Rattle.map_core.specs.MapStates.{MapState};
    ghost use Rattle.plain_map.specs.Plain.{IsPlain};

    ghost Value = { MapState };

    ghost view = { λ m. record { list = m.standing.committed; pending = option_map (λ _. m.standing.present) m.next } };

    ghost invariant = { λ m. IsPlain m.standing m.net m.beliefs m.next };
}

impl PlainMap {
    /// The empty map, with nothing pending.
    pub fn make(alloc: Global) -> Result<PlainMap, NoMemory>
        ensures list { IfOk result (λ m. m.list ≡ empty_list) }
        ensures idle { IfOk result (λ m. m.pending ≡ None) }
    {
        let standing = Standing::make(alloc);
        let net = DistNet::make(alloc)?;
        net.invariants();
        let mut counter = Counter::zero();
        match project(alloc, &standing, &net, &mut counter) {
            Ok(beliefs) => Ok(PlainMap {
                standing,
                net,
                beliefs,
                next: None,
            }),
            // The empty map is small, so only memory can be wanting.
            Err(_) => Err(NoMemory),
        }
    }
}

impl MapCore for PlainMap {
    ghost list = { λ m. m.list };

    ghost pending = { λ m. m.pending };

    fn apply(
        &mut self,
        alloc: Global,
        edit: &Edit,
        counter: &mut Counter,
    ) -> Result<Pending, Stop> {
        if let Err(refusal) = self.standing.check(edit) {
            return Err(Stop::Refused(refusal));
        }
        let erased = apply_edit(alloc, &mut self.standing, &mut self.net, edit)?;
        match project_and_compare(
            alloc,
            &self.standing,
            &self.net,
            &self.beliefs,
            erased,
            counter,
        ) {
            Ok((next, changes)) => {
                self.next = Some(next);
                Ok(Pending { changes })
            }
            Err(stop) => {
                roll_back(&mut self.standing, &mut self.net);
                Err(stop)
            }
        }
    }

    fn commit(&mut self) {
        if let Some(next) = self.next.take() {
            self.standing.commit();
            self.net.commit();
            self.beliefs = next;
        }
    }

    fn rollback(&mut self) {
        roll_back(&mut self.standing, &mut self.net);
        self.next = None;
    }

    fn bounds(
        &self,
        alloc: Global,
        p: &QueryPoint,
        q: &QueryPoint,
    ) -> Result<(Bound, Bound), Stop> {
        let map = TimeMap {
            standing: &self.standing,
            tree: &self.beliefs.tree,
            net: &self.net,
        };
        bounds_between(alloc, &map, p, q)
    }

    fn path(
        &self,
        alloc: Global,
        p: &QueryPoint,
        q: &QueryPoint,
    ) -> Result<(Bound, Seq<WalkStep>), Stop> {
        let map = TimeMap {
            standing: &self.standing,
            tree: &self.beliefs.tree,
            net: &self.net,
        };
        path_between(alloc, &map, p, q)
    }

    fn ask(
        &self,
        alloc: Global,
        fact: Name,
        p: &QueryPoint,
        q: &QueryPoint,
    ) -> Result<Answer, Stop> {
        let map = TimeMap {
            standing: &self.standing,
            tree: &self.beliefs.tree,
            net: &self.net,
        };
        ask_between(alloc, &map, fact, p, q)
    }

    fn why<R: Listener>(&self, alloc: Global, occ: &Occ, listener: &mut R) -> Result<(), Stop> {
        let map = TimeMap {
            standing: &self.standing,
            tree: &self.beliefs.tree,
            net: &self.net,
        };
        tell_why(alloc, &map, occ, listener)
    }

    fn check(&self, alloc: Global) -> Result<Seq<Report>, NoMemory> {
        copied(alloc, self.beliefs.view.reports.items())
    }

    fn list(&self, alloc: Global) -> Result<Seq<ListRow>, NoMemory> {
        told_rows(alloc, &self.beliefs.tree, &self.beliefs.view)
    }

    fn audit(&self, alloc: Global) -> Result<bool, NoMemory> {
        let map = TimeMap {
            standing: &self.standing,
            tree: &self.beliefs.tree,
            net: &self.net,
        };
        audited(alloc, &map, &self.beliefs.view)
    }

    fn standing(&self) -> &Standing {
        &self.standing
    }

    fn size(&self) -> u64 {
        self.beliefs.view.size
    }
}

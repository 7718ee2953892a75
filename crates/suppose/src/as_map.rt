// A stack is a map too: the one on top.
use crate::stack::Stack;
use map_core::{Counter, Listener, MapCore, Pending};
use premise_list::Standing;
use std::alloc::Global;
use tmm_model::{
    Answer, Bound, Edit, ListRow, Name, NoMemory, Occ, QueryPoint, Report, Seq, Stop, WalkStep,
};

/// Edits and questions go to the map on top.
impl<M: MapCore> MapCore for Stack<M> {
    ghost list = { λ s. M.list s.top };

    ghost pending = { λ s. M.pending s.top };

    fn apply(
        &mut self,
        alloc: Global,
        edit: &Edit,
        counter: &mut Counter,
    ) -> Result<Pending, Stop> {
        self.top.apply(alloc, edit, counter)
    }

    fn commit(&mut self) {
        self.top.commit();
    }

    fn rollback(&mut self) {
        self.top.rollback();
    }

    fn bounds(
        &self,
        alloc: Global,
        p: &QueryPoint,
        q: &QueryPoint,
    ) -> Result<(Bound, Bound), Stop> {
        self.top.bounds(alloc, p, q)
    }

    fn path(
        &self,
        alloc: Global,
        p: &QueryPoint,
        q: &QueryPoint,
    ) -> Result<(Bound, Seq<WalkStep>), Stop> {
        self.top.path(alloc, p, q)
    }

    fn ask(
        &self,
        alloc: Global,
        fact: Name,
        p: &QueryPoint,
        q: &QueryPoint,
    ) -> Result<Answer, Stop> {
        self.top.ask(alloc, fact, p, q)
    }

    fn why<R: Listener>(&self, alloc: Global, occ: &Occ, listener: &mut R) -> Result<(), Stop> {
        self.top.why(alloc, occ, listener)
    }

    fn check(&self, alloc: Global) -> Result<Seq<Report>, NoMemory> {
        self.top.check(alloc)
    }

    fn list(&self, alloc: Global) -> Result<Seq<ListRow>, NoMemory> {
        self.top.list(alloc)
    }

    fn audit(&self, alloc: Global) -> Result<bool, NoMemory> {
        self.top.audit(alloc)
    }

    fn standing(&self) -> &Standing {
        self.top.standing()
    }

    fn size(&self) -> u64 {
        self.top.size()
    }
}

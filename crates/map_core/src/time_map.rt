// What the program asks of a map.
ghost use Rattle.std.specs.Prelude.{◌≡◌, ◌≤◌, None, Some, map, IsTrue, IfOk, IfErr, OnOk, OnErr};
ghost use Rattle.std.specs.declared.option.Option.{Option};
ghost use Rattle.tmm_model.specs.Answers.{ask, finding_of, reports, report_of, rows, row_of, size};
ghost use Rattle.tmm_model.specs.Bounds.{bound_negated};
ghost use Rattle.tmm_model.specs.Changes.{changes, delta_of};
ghost use Rattle.tmm_model.specs.Edits.{next_list};
ghost use Rattle.tmm_model.specs.Kept.{IsAccepted};
ghost use Rattle.tmm_model.specs.Lines.{IsWellFormedEdit, IsWellFormedQuery};
ghost use Rattle.tmm_model.specs.Maps.{built, gap};
ghost use Rattle.tmm_model.specs.Moments.{moment_of, moment_of_point};
ghost use Rattle.tmm_model.specs.Paths.{GivesPath};
ghost use Rattle.tmm_model.specs.Questions.{query_cause};
ghost use Rattle.tmm_model.specs.Standing.{Standing as List};
ghost use Rattle.map_core.specs.Heard.{AreWhy, Hears, HearsNothing};
ghost use Rattle.map_core.specs.Stops.{StopsEdit, NamesEdited, StopsQuery, NamesRefused};

use crate::counter::Counter;
use crate::listener::Listener;
use premise_list::Standing;
use std::alloc::Global;
use tmm_model::{
    Answer, Bound, Changes, Edit, ListRow, Name, NoMemory, Occ, Query, QueryPoint, Report, Seq,
    Stop, WalkStep,
};

/// An edit that is made and not yet committed, and what it changed.
#[derive(Drop)]
pub struct Pending {
    /// What the edit changed, the map before compared with the map after.
    pub changes: Changes,
}

/// A map of standing premises. Every answer is that of the map which is built of its list from
/// scratch. Questions are asked while no edit is pending.
pub trait MapCore {
    /// The standing list of the last commit.
    ghost list: { Self → List };

    /// The list that a pending edit leaves.
    ghost pending: { Self → Option List };

    /// Makes an edit, and leaves it pending. A refusal is the first cause that holds, and names a
    /// word as the point of a name. A refused edit, or one for which there is no memory, changes
    /// nothing. The count of decisions does not fall: a map may count those that it makes.
    fn apply(&mut self, alloc: Global, edit: &Edit, counter: &mut Counter) -> Result<Pending, Stop>
        requires idle { pending self.old ≡ None }
        requires well_formed { IsWellFormedEdit edit.now }
        ensures accepted { IfOk result (λ made. IsAccepted (list self.old) edit.now) }
        ensures changes { IfOk result (λ made. delta_of made.changes ≡ changes (list self.old) (next_list (list self.old) edit.now)) }
        ensures pending { IfOk result (λ made. pending self.new ≡ Some (next_list (list self.old) edit.now)) }
        ensures stops { IfErr result (StopsEdit (list self.old) edit.now) }
        ensures named { IfErr result NamesEdited }
        ensures idle { OnErr result (pending self.new ≡ None) }
        ensures kept { list self.new ≡ list self.old }
        ensures counted { counter.old ≤ counter.new };

    /// Keeps the pending edit. It takes no memory.
    fn commit(&mut self)
        requires { (next : List) × (pending self.old ≡ Some next) }
        ensures list { pending self.old ≡ Some (list self.new) }
        ensures idle { pending self.new ≡ None };

    /// Undoes the pending edit. It takes no memory.
    fn rollback(&mut self)
        requires { (next : List) × (pending self.old ≡ Some next) }
        ensures list { list self.new ≡ list self.old }
        ensures idle { pending self.new ≡ None };

    /// The lower and the upper bound on the date of the second point less that of the first, in
    /// whole time units. A word with a cause against it is refused. Memory is asked for only for
    /// the word of a derived occurrence that is not believed.
    fn bounds(&self, alloc: Global, p: &QueryPoint, q: &QueryPoint) -> Result<(Bound, Bound), Stop>
        requires idle { pending self.now ≡ None }
        requires well_formed { IsWellFormedQuery (Query.Bounds p.now q.now) }
        ensures known { IfOk result (λ found. query_cause (built (list self.now)) (Query.Bounds p.now q.now) ≡ None) }
        ensures low { IfOk result (λ found. found.0 ≡ bound_negated (gap (built (list self.now)) (moment_of_point q.now) (moment_of_point p.now))) }
        ensures high { IfOk result (λ found. found.1 ≡ gap (built (list self.now)) (moment_of_point p.now) (moment_of_point q.now)) }
        ensures stops { IfErr result (StopsQuery (list self.now) (Query.Bounds p.now q.now)) }
        ensures named { IfErr result (NamesRefused (list self.now) (Query.Bounds p.now q.now)) };

    /// The upper bound on the date of the second point less that of the first, and where there is
    /// one, the constraints of a walk between their declared points that gives the bound on these,
    /// in whole time units. A word with a cause against it is refused.
    fn path(
        &self,
        alloc: Global,
        p: &QueryPoint,
        q: &QueryPoint,
    ) -> Result<(Bound, Seq<WalkStep>), Stop>
        requires idle { pending self.now ≡ None }
        requires well_formed { IsWellFormedQuery (Query.Path p.now q.now) }
        ensures known { IfOk result (λ found. query_cause (built (list self.now)) (Query.Path p.now q.now) ≡ None) }
        ensures gives { IfOk result (λ found. GivesPath (built (list self.now)) (moment_of_point p.now) (moment_of_point q.now) found.0 found.1.items) }
        ensures stops { IfErr result (StopsQuery (list self.now) (Query.Path p.now q.now)) }
        ensures named { IfErr result (NamesRefused (list self.now) (Query.Path p.now q.now)) };

    /// Whether a fact holds from one point to another. A word with a cause against it is refused;
    /// without memory it answers that.
    fn ask(&self, alloc: Global, fact: Name, p: &QueryPoint, q: &QueryPoint) -> Result<Answer, Stop>
        requires idle { pending self.now ≡ None }
        requires well_formed { IsWellFormedQuery (Query.Ask fact p.now q.now) }
        ensures known { IfOk result (λ answer. query_cause (built (list self.now)) (Query.Ask fact p.now q.now) ≡ None) }
        ensures answer { IfOk result (λ answer. finding_of answer ≡ ask (built (list self.now)) fact (moment_of_point p.now) (moment_of_point q.now)) }
        ensures stops { IfErr result (StopsQuery (list self.now) (Query.Ask fact p.now q.now)) }
        ensures named { IfErr result (NamesRefused (list self.now) (Query.Ask fact p.now q.now)) };

    /// Tells the reasons of a declared or derived occurrence, line by line: all that it rests on,
    /// each before what rests on it, and each point told as a question names it. A word with a
    /// cause against it is refused before any line is told; without memory it answers that.
    fn why<R: Listener>(&self, alloc: Global, occ: &Occ, listener: &mut R) -> Result<(), Stop>
        requires idle { pending self.now ≡ None }
        requires well_formed { IsWellFormedQuery (Query.Why occ.now) }
        ensures known { OnOk result (query_cause (built (list self.now)) (Query.Why occ.now) ≡ None) }
        ensures reasons { OnOk result (Hears R.parts_of (AreWhy (built (list self.now)) (moment_of occ.now)) (R.heard listener.old) (R.heard listener.new)) }
        ensures stops { IfErr result (StopsQuery (list self.now) (Query.Why occ.now)) }
        ensures named { IfErr result (NamesRefused (list self.now) (Query.Why occ.now)) }
        ensures unheard { IfErr result (HearsNothing (R.heard listener.old) (R.heard listener.new)) };

    /// The broken protections, in the order of premises. Without memory it answers that.
    fn check(&self, alloc: Global) -> Result<Seq<Report>, NoMemory>
        requires idle { pending self.now ≡ None }
        ensures { IfOk result (λ found. map report_of found.items ≡ reports (built (list self.now))) };

    /// The believed occurrences, in their order. Without memory it answers that.
    fn list(&self, alloc: Global) -> Result<Seq<ListRow>, NoMemory>
        requires idle { pending self.now ≡ None }
        ensures { IfOk result (λ found. map row_of found.items ≡ rows (built (list self.now))) };

    /// Whether the map's own rows are the believed occurrences of its list, in their order, each
    /// once. They are: what is believed is found anew from the list for it. Without memory it answers that.
    fn audit(&self, alloc: Global) -> Result<bool, NoMemory>
        requires idle { pending self.now ≡ None }
        ensures { IfOk result (λ good. IsTrue good) };

    /// The standing premises and their horizon.
    fn standing(&self) -> &Standing
        requires idle { pending self.now ≡ None }
        ensures { result.now.present ≡ list self.now };

    /// The size of the map: for each believed occurrence one, and its rules, and the rules on it.
    fn size(&self) -> u64
        requires idle { pending self.now ≡ None }
        ensures { result ≡ size (built (list self.now)) };
}

// Edits that are made, looked at and undone.
ghost use Rattle.std.specs.Prelude.{◌≡◌, ◌↔◌, ⊤, true, None, IfOk, IsTrue, MatchOption};
ghost use Rattle.tmm_model.specs.Changes.{changes, delta_of};
ghost use Rattle.tmm_model.specs.Edits.{list_without};
ghost use Rattle.tmm_model.specs.Kept.{IsAccepted};
ghost use Rattle.tmm_model.specs.Lines.{IsWellFormedEdit};
ghost use Rattle.repairs.specs.Trials.{IsMending, IsMendingAfter, IsErased};

use crate::judging::{tell_mended, tells_mended};
use map_core::{Copies, Counter, MapCore};
use premise_list::Standing;
use std::alloc::Global;
use tmm_model::{Changes, Edit, Name, NoMemory, Stop};

// Whether the edit is accepted and mends the protection of this name. The map is as before.
#[tactic(auto, using(crate::proofs::Refused::refused))]
pub(crate) fn is_mending<M: MapCore>(
    alloc: Global,
    core: &mut M,
    name: Name,
    edit: &Edit,
) -> Result<bool, NoMemory>
    requires idle { M.pending core.old ≡ None }
    requires well_formed { IsWellFormedEdit edit.now }
    ensures value { IfOk result (λ mends. IsTrue mends ↔ IsMending (M.list core.old) name edit.now) }
    ensures list { M.list core.new ≡ M.list core.old }
    ensures idle { M.pending core.new ≡ None }
{
    match core.apply(alloc, edit, &mut Counter::zero()) {
        Ok(made) => {
            core.rollback();
            Ok(tells_mended(core.standing(), name, &made.changes))
        }
        Err(Stop::Refused(_)) => Ok(false),
        Err(Stop::NoMemory) => Err(NoMemory),
    }
}

/// A map from which a premise was erased, and what that changed.
#[derive(Drop)]
pub(crate) struct Erased<M> {
    /// The map without the premise.
    pub map: M,
    /// What the erasure changed.
    pub changes: Changes,
}

impl<M: Copies + Drop> Erased<M> {
    // A copy of the map from which the premise of this name is erased, none where its erasure is
    // refused.
    #[tactic(auto, using(crate::proofs::Refused::refused))]
    pub(crate) fn make(alloc: Global, core: &M, name: Name) -> Result<Option<Erased<M>>, NoMemory>
        requires idle { M.pending core.now ≡ None }
        requires well_formed { IsWellFormedEdit (Edit.Erase name) }
        ensures { IfOk result (λ made. MatchOption made (¬ (IsAccepted (M.list core.now) (Edit.Erase name))) (IsErased M.list M.pending (M.list core.now) name)) }
    {
        let mut map = core.copy(alloc)?;
        match map.apply(alloc, &Edit::Erase(name), &mut Counter::zero()) {
            Ok(made) => {
                map.commit();
                Ok(Some(Erased {
                    map,
                    changes: made.changes,
                }))
            }
            Err(Stop::Refused(_)) => Ok(None),
            Err(Stop::NoMemory) => Err(NoMemory),
        }
    }

    // Whether the edit is accepted after the erasure, and both mend the protection of this name in
    // the list from which the premise was erased. The map without the premise is as before.
    #[tactic(auto, using(crate::proofs::Refused::refused))]
    pub(crate) fn is_mending(
        &mut self,
        alloc: Global,
        standing: &Standing,
        erased: &Name,
        name: &Name,
        edit: &Edit,
    ) -> Result<bool, NoMemory>
        requires erased { IsErased M.list M.pending standing.now.present erased.now self.old }
        requires well_formed { IsWellFormedEdit edit.now }
        ensures value { IfOk result (λ mends. IsTrue mends ↔ IsMendingAfter standing.now.present erased.now name.now edit.now) }
        ensures erased { IsErased M.list M.pending standing.now.present erased.now self.new }
    {
        match self.map.apply(alloc, edit, &mut Counter::zero()) {
            Ok(made) => {
                self.map.rollback();
                Ok(tell_mended(standing, *name, &self.changes, &made.changes))
            }
            Err(Stop::Refused(_)) => Ok(false),
            Err(Stop::NoMemory) => Err(NoMemory),
        }
    }
}

// Edits that are made one after the other.
ghost use Rattle.std.specs.Prelude.{◌≡◌, All, None, OnOk, IfOk, IfErr, IfSome};
ghost use Rattle.tmm_model.specs.Changes.{changes, delta_of};
ghost use Rattle.tmm_model.specs.Edits.{next_list};
ghost use Rattle.tmm_model.specs.Kept.{IsAccepted};
ghost use Rattle.tmm_model.specs.Lines.{IsWellFormedEdit};
ghost use Rattle.agents.specs.Commits.{AcceptedInTurn, list_after};
ghost use Rattle.agents.specs.Holdings.{StopsBatch, StopsOne};
ghost use Rattle.agents.specs.States.{IsLevel};

use crate::batches::Held;
use map_core::{Copies, Counter, MapCore};
use std::alloc::Global;
use tmm_model::{NoMemory, Refusal, Seq, Stop, Taken};

/// Why none of an agent's edits is made.
#[derive(Drop)]
pub enum BatchStop {
    /// This edit is refused: the number of the line that says it, and the cause.
    Refused { line: u64, refusal: Refusal },
    /// There was no memory.
    NoMemory,
}

impl From<NoMemory> for BatchStop {
    ghost use Rattle.agents.specs.declared.making.BatchStop.TheVariants.{NoMemory as Wanting};

    ghost from_gives = { λ _ stop. stop ≡ Wanting };

    fn from(_: NoMemory) -> BatchStop {
        BatchStop::NoMemory
    }
}

/// A map, and the edits by which it lags behind another one.
#[derive(Drop)]
pub struct Lagging<M> {
    /// The map.
    pub map: M,
    /// The edits, the first of them first.
    pub lag: Vec<Held>,
}

/// A copy of a map, which lags behind it by nothing.
pub(crate) fn copied<M: Copies + Drop>(alloc: Global, core: &M) -> Result<Lagging<M>, NoMemory>
    requires { M.pending core.now ≡ None }
    ensures { IfOk result (IsLevel M.list M.pending (M.list core.now)) }
{
    let map = core.copy(alloc)?;
    Ok(Lagging {
        map,
        lag: Vec::new(alloc),
    })
}

/// A map that has caught up with the edits by which it lagged, none where there is no memory to make
/// them.
pub(crate) fn caught_up<M: MapCore + Drop>(
    alloc: Global,
    spare: Lagging<M>,
    counter: &mut Counter,
) -> Option<Lagging<M>>
    requires idle { M.pending spare.map ≡ None }
    requires well_formed { All (λ held. IsWellFormedEdit held.edit) spare.lag.items }
    ensures { IfSome result (IsLevel M.list M.pending (list_after (M.list spare.map) spare.lag.items)) }
{
    let Lagging { mut map, mut lag } = spare;
    match make_all(alloc, &mut map, lag.as_slice(), counter) {
        Ok(_) => {
            lag.clear();
            Some(Lagging { map, lag })
        }
        Err(_) => None,
    }
}

/// Makes edits on a map, one after the other, up to the first that is refused, and tells of each
/// what it changed. Where it stops, the map is left with the edits before.
pub(crate) fn make_all<M: MapCore>(
    alloc: Global,
    core: &mut M,
    edits: &[Held],
    counter: &mut Counter,
) -> Result<Seq<Taken>, BatchStop>
    requires idle { M.pending core.old ≡ None }
    requires well_formed { All (λ held. IsWellFormedEdit held.edit) edits.now }
    ensures accepted { IfOk result (λ all. AcceptedInTurn (M.list core.old) edits.now all.items) }
    ensures list { OnOk result (M.list core.new ≡ list_after (M.list core.old) edits.now) }
    ensures stops { IfErr result (StopsBatch (M.list core.old) edits.now) }
    ensures idle { M.pending core.new ≡ None }
{
    let mut all = Seq::make(alloc);
    for held in edits {
        let taken = make(alloc, core, held, counter)?;
        all.append(taken)?;
    }
    Ok(all)
}

// Makes an edit, and tells what it changed.
fn make<M: MapCore>(
    alloc: Global,
    core: &mut M,
    held: &Held,
    counter: &mut Counter,
) -> Result<Taken, BatchStop>
    requires idle { M.pending core.old ≡ None }
    requires well_formed { IsWellFormedEdit held.now.edit }
    ensures accepted { OnOk result (IsAccepted (M.list core.old) held.now.edit) }
    ensures line { IfOk result (λ taken. taken.line ≡ held.now.line) }
    ensures changes { IfOk result (λ taken. delta_of taken.changes ≡ changes (M.list core.old) (next_list (M.list core.old) held.now.edit)) }
    ensures list { OnOk result (M.list core.new ≡ next_list (M.list core.old) held.now.edit) }
    ensures stops { IfErr result (StopsOne (M.list core.old) held.now) }
    ensures idle { M.pending core.new ≡ None }
{
    match core.apply(alloc, &held.edit, counter) {
        Ok(made) => {
            core.commit();
            Ok(Taken {
                line: held.line,
                changes: made.changes,
            })
        }
        Err(Stop::Refused(refusal)) => Err(BatchStop::Refused {
            line: held.line,
            refusal,
        }),
        Err(Stop::NoMemory) => Err(BatchStop::NoMemory),
    }
}

// Turns until no row waits.
ghost use Rattle.std.specs.Prelude.{◌≤◌, OnOk, IfErr};
ghost use Rattle.belief_theory.specs.KeptLists.{last_horizon};
ghost use Rattle.belief_table.specs.LastCommit.{KeepLast};
ghost use Rattle.belief_turns.specs.Numbered.{StayNumbered};
ghost use Rattle.belief_turns.specs.Settling.{IfBegun, IsCountedIn, IsSettled, IsAtRest, StopsFor};
ghost use Rattle.belief_turns.specs.Telling.{IsWeighed};
ghost use Rattle.belief_turns.specs.Turning.{IsFit, IsRevising};

use crate::told::Told;
use crate::turn::turn;
use belief_table::Beliefs;
use dist_net::DistNet;
use marking::EditMarks;
use premise_list::Standing;
use projection::{Counter, KnownKinds};
use std::alloc::Global;
use tmm_model::Stop;

/// Decides rows again, the earliest first, until none waits, and tells what enters and leaves. Then
/// nodes and rows are those of the list after the edit; each decision that the edit changed is
/// counted, and none that it does not touch. Nodes keep their numbers from the last commit on. It
/// refuses only a list whose map is larger than 100,000; that 2^64 - 1 turns do not end it counts as
/// want of memory.
pub fn settle(
    alloc: Global,
    standing: &Standing,
    net: &DistNet,
    beliefs: &mut Beliefs,
    told: &mut Told,
    count: &mut Counter,
) -> Result<(), Stop>
    requires fit { IsFit standing.now.present net.now.present beliefs.old }
    requires revising { IsRevising standing.now.present net.now.present beliefs.old }
    requires horizon { standing.now.present.horizon ≤ last_horizon }
    requires weighed { IsWeighed standing.now.present told.old }
    ensures rests { OnOk result (IsAtRest standing.now.present net.now.present beliefs.new told.new) }
    ensures settled { OnOk result (IfBegun standing.now.present net.now.present beliefs.old told.old (IsSettled net.now.present beliefs.new told.new count.old count.new)) }
    ensures stops { IfErr result (λ stop. IfBegun standing.now.present net.now.present beliefs.old told.old (StopsFor stop)) }
    ensures counted { IfBegun standing.now.present net.now.present beliefs.old told.old (IsCountedIn count.old count.new) }
    ensures numbered { OnOk result (StayNumbered standing.now.present beliefs.old beliefs.new told.old told.new) }
    ensures rises { count.old ≤ count.new }
    ensures last { KeepLast beliefs.old beliefs.new }
{
    // it tells the proof that no count is above the greatest
    let _ = count.value();
    let mut marks = EditMarks::make(alloc, beliefs.tree.limit());
    let mut known = KnownKinds::make();
    for _ in 0..u64::MAX {
        if !turn(
            alloc, standing, net, beliefs, &mut marks, told, count, &mut known,
        )? {
            return Ok(());
        }
    }
    Err(Stop::NoMemory)
}

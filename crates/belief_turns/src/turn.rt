// A turn of the loop: the row that is due first is decided again.
ghost use Rattle.std.specs.Prelude.{◌≡◌, ◌+◌, ◌≤◌, ℕ, min, None, IsSome, MatchOption, IfOk, OnOk, IfErr};
ghost use Rattle.tmm_model.specs.Answers.{most_size};
ghost use Rattle.belief_theory.specs.KeptLists.{last_horizon};
ghost use Rattle.occ_tree.specs.Standing.{present};
ghost use Rattle.projection.specs.Kinds.{AreKnown};
ghost use Rattle.marking.specs.Covered.{Covers};
ghost use Rattle.belief_table.specs.LastCommit.{KeepLast};
ghost use Rattle.belief_turns.specs.Numbered.{StayNumbered};
ghost use Rattle.belief_turns.specs.Turning.{IsFit, IsRevising, IsDecided};
ghost use Rattle.belief_turns.specs.Turns.{CountsOne, Rests, TurnsOrRests, StopsTurn};
ghost use Rattle.belief_table.specs.Waiting.{dates_in};

use crate::deciding::{Due, decide};
use crate::following::follow;
use crate::told::Told;
use belief_table::Beliefs;
use dist_net::DistNet;
use marking::EditMarks;
use premise_list::Standing;
use projection::{Counter, KnownKinds};
use std::alloc::Global;
use tmm_model::{NoMemory, Stop};

// A turn: the row that is due first is decided again, and its effect enters or is withdrawn where
// that is decided; whether a row waited. What entered may not count more than 100,000. What is
// known of kinds is kept from turn to turn.
pub(crate) fn turn(
    alloc: Global,
    standing: &Standing,
    net: &DistNet,
    beliefs: &mut Beliefs,
    marks: &mut EditMarks,
    told: &mut Told,
    counter: &mut Counter,
    known: &mut KnownKinds,
) -> Result<bool, Stop>
    requires fit { IsFit standing.now.present net.now.present beliefs.old }
    requires revising { IsRevising standing.now.present net.now.present beliefs.old }
    requires horizon { standing.now.present.horizon ≤ last_horizon }
    requires small { told.old.weight ≤ most_size }
    requires covered { Covers standing.now.present (present beliefs.old.tree) beliefs.old.decisions marks.old }
    requires known { AreKnown standing.now.present known.old }
    ensures ok { IfOk result (TurnsOrRests standing.now.present net.now.present beliefs.old beliefs.new told.old told.new counter.old counter.new) }
    ensures stops { IfErr result (StopsTurn standing.now.present net.now.present beliefs.old told.old) }
    ensures counted { CountsOne beliefs.old counter.old counter.new }
    ensures numbered { OnOk result (StayNumbered standing.now.present beliefs.old beliefs.new told.old told.new) }
    ensures covered { OnOk result (Covers standing.now.present (present beliefs.new.tree) beliefs.new.decisions marks.new) }
    ensures last { KeepLast beliefs.old beliefs.new }
    ensures known { AreKnown standing.now.present known.new }
{
    match decide_first(alloc, standing, net, beliefs, marks, counter) {
        Ok(Some(due)) => {
            follow(alloc, standing, net, beliefs, marks, told, &due, known)?;
            Ok(true)
        }
        Ok(None) => Ok(false),
        Err(_) => Err(Stop::NoMemory),
    }
}

// Decides the row again that is due first, keeps what is decided and counts the decision; none
// where no row waits.
fn decide_first(
    alloc: Global,
    standing: &Standing,
    net: &DistNet,
    beliefs: &mut Beliefs,
    marks: &mut EditMarks,
    counter: &mut Counter,
) -> Result<Option<Due>, NoMemory>
    requires fit { IsFit standing.now.present net.now.present beliefs.old }
    requires revising { IsRevising standing.now.present net.now.present beliefs.old }
    requires covered { Covers standing.now.present (present beliefs.old.tree) beliefs.old.decisions marks.old }
    ensures decided { IfOk result (λ due. MatchOption due ((i : ℕ) → dates_in beliefs.old.decisions.waiting i ≡ None) (IsDecided standing.now.present beliefs.old beliefs.new)) }
    ensures none { IfOk result (λ due. due ≡ None → counter.new ≡ counter.old) }
    ensures counted { IfOk result (λ due. IsSome due → counter.new ≡ min (counter.old + 1) 18446744073709551615) }
    ensures one { CountsOne beliefs.old counter.old counter.new }
    ensures rests { IfOk result (λ due. due ≡ None → Rests beliefs.old beliefs.new) }
    ensures covered { OnOk result (Covers standing.now.present (present beliefs.new.tree) beliefs.new.decisions marks.new) }
    ensures last { KeepLast beliefs.old beliefs.new }
{
    let Some(entry) = beliefs.decisions.waiting.pop() else {
        return Ok(None);
    };
    marks.decide(entry.early.0);
    let row = entry.row;
    let (trigger, number) = beliefs.decisions.rows.pair(row);
    let rule = beliefs.decisions.rules.name(number);
    let before = beliefs.decisions.rows.get(row);
    let found = decide(alloc, standing, net, &beliefs.tree, trigger, rule, counter);
    beliefs.decisions.rows.set(alloc, row, found)?;
    Ok(Some(Due {
        row,
        trigger,
        rule,
        before,
        found,
    }))
}

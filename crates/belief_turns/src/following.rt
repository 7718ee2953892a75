// What follows of a decision: an effect enters, or is withdrawn.
ghost use Rattle.std.specs.Prelude.{◌≡◌, ◌≤◌, true, false, OnOk, IfErr};
ghost use Rattle.tmm_model.specs.Answers.{most_size};
ghost use Rattle.tmm_model.specs.Standing.{Standing as List};
ghost use Rattle.belief_theory.specs.KeptLists.{last_horizon};
ghost use Rattle.spots.specs.Forest.{IsLive};
ghost use Rattle.occ_tree.specs.OfLists.{IsTreeIn};
ghost use Rattle.occ_tree.specs.Places.{forest};
ghost use Rattle.occ_tree.specs.Standing.{present};
ghost use Rattle.projection.specs.Kinds.{AreKnown};
ghost use Rattle.undo_rows.specs.Changes.{present as table};
ghost use Rattle.joined.specs.Rows.{fires_by};
ghost use Rattle.marking.specs.Covered.{Covers};
ghost use Rattle.belief_table.specs.Decided.{AreOfSome};
ghost use Rattle.belief_table.specs.LastCommit.{KeepLast};
ghost use Rattle.belief_table.specs.Marks.{HaveEvents};
ghost use Rattle.belief_turns.specs.Numbered.{StayNumbered};
ghost use Rattle.belief_turns.specs.Turns.{IsAfterSome, IsTurned, IsStopped, HasEffect, Withdraws};

use crate::deciding::Due;
use crate::entering::bring_about;
use crate::leaving::take_away;
use crate::told::Told;
use belief_table::Beliefs;
use decision_rows::Decision;
use dist_net::DistNet;
use marking::EditMarks;
use premise_list::Standing;
use projection::KnownKinds;
use std::alloc::Global;
use tmm_model::{Name, NoMemory, Stop};

// Lets follow what was decided: where the rule fires that did not, its effect enters; where it
// fires no more, that is withdrawn with all below it. Both are told. What entered may not count
// more than 100,000.
pub(crate) fn follow(
    alloc: Global,
    standing: &Standing,
    net: &DistNet,
    beliefs: &mut Beliefs,
    marks: &mut EditMarks,
    told: &mut Told,
    due: &Due,
    known: &mut KnownKinds,
) -> Result<(), Stop>
    requires after { IsAfterSome standing.now.present net.now.present beliefs.old due.now }
    requires horizon { standing.now.present.horizon ≤ last_horizon }
    requires small { told.old.weight ≤ most_size }
    requires covered { Covers standing.now.present (present beliefs.old.tree) beliefs.old.decisions marks.old }
    requires known { AreKnown standing.now.present known.old }
    ensures ok { OnOk result (IsTurned standing.now.present net.now.present beliefs.old beliefs.new due.now told.old told.new) }
    ensures stops { IfErr result (IsStopped standing.now.present net.now.present beliefs.old due.now told.old) }
    ensures numbered { OnOk result (StayNumbered standing.now.present beliefs.old beliefs.new told.old told.new) }
    ensures covered { OnOk result (Covers standing.now.present (present beliefs.new.tree) beliefs.new.decisions marks.new) }
    ensures last { KeepLast beliefs.old beliefs.new }
    ensures known { AreKnown standing.now.present known.new }
{
    match (fires(&due.before), fires(&due.found)) {
        (false, true) => bring_effect(alloc, standing, net, beliefs, marks, told, due, known),
        (true, false) => match withdraw_effect(
            alloc,
            standing,
            net,
            beliefs,
            marks,
            told,
            due.trigger,
            &due.rule,
        ) {
            Ok(()) => Ok(()),
            Err(_) => Err(Stop::NoMemory),
        },
        (false, false) => Ok(()),
        (true, true) => Ok(()),
    }
}

// Whether it was decided that the rule fires.
fn fires(decision: &Decision) -> bool
    ensures { result ≡ fires_by decision.now }
{
    matches!(decision, Decision::Fires)
}

// Adds the effect of a rule that fires and did not, and tells that it entered.
fn bring_effect(
    alloc: Global,
    standing: &Standing,
    net: &DistNet,
    beliefs: &mut Beliefs,
    marks: &mut EditMarks,
    told: &mut Told,
    due: &Due,
    known: &mut KnownKinds,
) -> Result<(), Stop>
    requires after { IsAfterSome standing.now.present net.now.present beliefs.old due.now }
    requires fires { fires_by due.now.found ≡ true }
    requires fired { fires_by due.now.before ≡ false }
    requires horizon { standing.now.present.horizon ≤ last_horizon }
    requires small { told.old.weight ≤ most_size }
    requires covered { Covers standing.now.present (present beliefs.old.tree) beliefs.old.decisions marks.old }
    requires known { AreKnown standing.now.present known.old }
    ensures ok { OnOk result (IsTurned standing.now.present net.now.present beliefs.old beliefs.new due.now told.old told.new) }
    ensures stops { IfErr result (IsStopped standing.now.present net.now.present beliefs.old due.now told.old) }
    ensures numbered { OnOk result (StayNumbered standing.now.present beliefs.old beliefs.new told.old told.new) }
    ensures covered { OnOk result (Covers standing.now.present (present beliefs.new.tree) beliefs.new.decisions marks.new) }
    ensures last { KeepLast beliefs.old beliefs.new }
    ensures known { AreKnown standing.now.present known.new }
{
    match bring_about(
        alloc,
        standing,
        net,
        beliefs,
        marks,
        due.trigger,
        due.rule,
        known,
    ) {
        Ok(effect) => told.enter(alloc, standing, &beliefs.tree, effect, known),
        Err(_) => Err(Stop::NoMemory),
    }
}

// Withdraws the effect of a rule at the event of a node with all below it, and tells that they
// left.
fn withdraw_effect(
    alloc: Global,
    standing: &Standing,
    net: &DistNet,
    beliefs: &mut Beliefs,
    marks: &mut EditMarks,
    told: &mut Told,
    trigger: u32,
    rule: &Name,
) -> Result<(), NoMemory>
    requires tree { IsTreeIn net.now.present beliefs.old.tree }
    requires trigger { IsLive (forest beliefs.old.tree) trigger }
    requires there { HasEffect beliefs.old.tree trigger rule.now }
    requires events { HaveEvents beliefs.old.tree (table beliefs.old.decisions.rows) }
    requires under { AreOfSome beliefs.old.decisions }
    requires covered { Covers standing.now.present (present beliefs.old.tree) beliefs.old.decisions marks.old }
    ensures ok { OnOk result (Withdraws standing.now.present net.now.present trigger rule.now beliefs.old beliefs.new told.old told.new) }
    ensures numbered { OnOk result ((s : List) → StayNumbered s beliefs.old beliefs.new told.old told.new) }
    ensures covered { OnOk result (Covers standing.now.present (present beliefs.new.tree) beliefs.new.decisions marks.new) }
    ensures last { KeepLast beliefs.old beliefs.new }
{
    let Some(effect) = beliefs.tree.find_effect(trigger, rule) else {
        unreachable!()
    };
    let numbers = beliefs.tree.numbers_below(alloc, effect)?;
    told.leave(alloc, &beliefs.tree, numbers.as_slice())?;
    take_away(
        alloc,
        standing,
        net,
        beliefs,
        marks,
        effect,
        numbers.as_slice(),
    )
}

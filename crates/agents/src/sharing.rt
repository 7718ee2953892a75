// The lines of a script of several agents.
ghost use Rattle.std.specs.Prelude.{◌≡◌, ◌≤◌, length, false, None, Some, IfOk, MatchResult};
ghost use Rattle.mode_session.specs.ModeSteps.{OwnStep};
ghost use Rattle.tmm_model.specs.declared.mode.Mode.TheVariants.{Agents as AgentsMode};
ghost use Rattle.tmm_model.specs.Lines.{IsWellFormedEdit};
ghost use Rattle.agents.specs.Batches.{hold_cause};
ghost use Rattle.agents.specs.LongLines.{SharingOther-long};
ghost use Rattle.agents.specs.Sharing.{CommitAnswers, DiscardAnswers, Holds, IsRefused, SharingOther, SharingOwn};
ghost use Rattle.agents.specs.States.{IsReady, IsSettled, Offered, offered, taken_over, world_of};
ghost use Rattle.agents.specs.Turns.{Closes, TurnIs};
ghost use Rattle.agents.specs.Worlds.{World, first_world};

use crate::agents::Agents;
use crate::batches::HoldStop;
use crate::making::BatchStop;
use crate::reading::held_edit;
use map_core::{Copies, Counter, Opens};
use mode_session::Moded;
use replies::{reply_batch, reply_batch_no, reply_held, reply_mode_no, reply_mode_ok, reply_no};
use std::alloc::Global;
use tmm_model::{Edit, Line, Mode, ModeCause, ModeLine, Name, NoMemory, Refusal, Seq, Stop, Turn};
use tmm_script::parse_line;
use tmm_session::answer;

/// Answers the lines of a script of several agents.
#[derive(Drop)]
pub struct Sharing<M> {
    /// The map, and what is held.
    pub agents: Agents<M>,
    /// The decisions that the maps count.
    pub counter: Counter,
}

impl<M: Opens + Drop> Sharing<M> {
    /// The empty map of version 2, no edit held, and no decision counted. Without memory it answers
    /// that.
    pub fn make(alloc: Global) -> Result<Sharing<M>, NoMemory>
        ensures world { IfOk result (λ made. world_of M.list made.agents ≡ first_world) }
        ensures ready { IfOk result (λ made. IsReady M.list M.pending made.agents) }
    {
        let agents = Agents::make(alloc)?;
        Ok(Sharing {
            agents,
            counter: Counter::zero(),
        })
    }
}

impl<M: Copies + Drop> Moded for Sharing<M> {
    ghost State = { World };

    ghost state = { λ s. world_of M.list s.agents };

    ghost ready = { λ s. IsReady M.list M.pending s.agents };

    ghost MODE = { AgentsMode };

    ghost own = { SharingOwn };

    ghost other = { SharingOther };

    ghost long_lines = { SharingOther-long };

    const MODE: Mode = Mode::Agents;

    fn own(&mut self, alloc: Global, line: u64, bytes: &[u8], form: &ModeLine) -> Turn {
        match *form {
            ModeLine::Hold { agent, rest } => self.hold(alloc, line, agent, bytes, rest),
            ModeLine::Commit(agent) => self.commit(alloc, line, agent),
            ModeLine::Discard(agent) => self.discard(alloc, line, agent),
            _ => unreachable!(),
        }
    }

    fn other(&mut self, alloc: Global, line: u64, bytes: &[u8]) -> Turn {
        let version = self.agents.map().standing().version();
        match parse_line(alloc, version, bytes) {
            Ok(Line::Silent) => Turn::Silent,
            Ok(Line::Change(_)) => refuse(alloc, line, ModeCause::Agent),
            Ok(Line::Question(query)) => answer(alloc, line, &query, self.agents.map()).turn(),
            Err(Stop::Refused(refusal)) => tell(reply_no(alloc, line, &refusal), true),
            Err(Stop::NoMemory) => Turn::Memory,
        }
    }
}

// Of each line of an agent's the reply is made before anything is changed, so that want of memory
// leaves all as it was.
impl<M: Copies + Drop> Sharing<M> {
    // Holds the edit that a line says from a place on.
    fn hold(&mut self, alloc: Global, line: u64, agent: Name, bytes: &[u8], rest: usize) -> Turn
        requires ready { IsReady M.list M.pending self.old.agents }
        requires within { rest ≤ length bytes.now }
        ensures answers { OwnStep SharingOwn (world_of M.list self.old.agents) line bytes.now (ModeLine.Hold agent rest) result (world_of M.list self.new.agents) }
        ensures ready { IsReady M.list M.pending self.new.agents }
    {
        match held_edit(&bytes[rest..]) {
            Some(edit) => self.hold_edit(alloc, line, agent, edit),
            None => tell(reply_no(alloc, line, &Refusal::Form), true),
        }
    }

    // Holds an edit.
    fn hold_edit(&mut self, alloc: Global, line: u64, agent: Name, edit: Edit) -> Turn
        requires ready { IsReady M.list M.pending self.old.agents }
        requires well_formed { IsWellFormedEdit edit }
        ensures answers { TurnIs (Holds (world_of M.list self.old.agents) line agent edit (hold_cause (world_of M.list self.old.agents).batches agent)) (world_of M.list self.old.agents) result (world_of M.list self.new.agents) }
        ensures ready { IsReady M.list M.pending self.new.agents }
    {
        let count = self.agents.held(agent) + 1;
        let Ok(done) = reply_held(alloc, line, count) else {
            return Turn::Memory;
        };
        match self.agents.hold(alloc, agent, line, edit) {
            Ok(()) => accept(done),
            Err(HoldStop::Batch) => refuse(alloc, line, ModeCause::LimitBatch),
            Err(HoldStop::Agents) => refuse(alloc, line, ModeCause::LimitAgents),
            Err(HoldStop::NoMemory) => Turn::Memory,
        }
    }

    // Makes what an agent holds.
    fn commit(&mut self, alloc: Global, line: u64, agent: Name) -> Turn
        requires ready { IsReady M.list M.pending self.old.agents }
        ensures answers { TurnIs (CommitAnswers (world_of M.list self.old.agents) line agent) (world_of M.list self.old.agents) result (world_of M.list self.new.agents) }
        ensures ready { IsReady M.list M.pending self.new.agents }
    {
        match self.agents.offer(alloc, agent, &mut self.counter) {
            Ok(all) => self.close(reply_batch(alloc, line, all.items()), false),
            Err(
                BatchStop::Refused {
                    line: held,
                    refusal,
                },
            ) => self.close(reply_batch_no(alloc, line, held, &refusal), true),
            Err(BatchStop::NoMemory) => Turn::Memory,
        }
    }

    // Accepts what is offered, where there is a reply, and else takes it back.
    fn close(&mut self, reply: Result<Seq<u8>, NoMemory>, refused: bool) -> Turn
        requires settled { IsSettled M.list M.pending self.old.agents }
        requires offers { (o : Offered) × (offered M.list self.old.agents ≡ Some o) }
        ensures answers { (o : Offered) → offered M.list self.old.agents ≡ Some o → TurnIs (Closes reply refused (taken_over o (world_of M.list self.old.agents))) (world_of M.list self.old.agents) result (world_of M.list self.new.agents) }
        ensures ready { IsReady M.list M.pending self.new.agents }
    {
        match reply {
            Ok(bytes) => {
                self.agents.accept();
                Turn::Reply { bytes, refused }
            }
            Err(NoMemory) => {
                self.agents.withdraw();
                Turn::Memory
            }
        }
    }

    // Forgets what an agent holds.
    fn discard(&mut self, alloc: Global, line: u64, agent: Name) -> Turn
        requires ready { IsReady M.list M.pending self.old.agents }
        ensures answers { TurnIs (DiscardAnswers (world_of M.list self.old.agents) line agent) (world_of M.list self.old.agents) result (world_of M.list self.new.agents) }
        ensures ready { IsReady M.list M.pending self.new.agents }
    {
        let Ok(done) = reply_mode_ok(alloc, line) else {
            return Turn::Memory;
        };
        self.agents.discard(agent);
        accept(done)
    }
}

// The reply that a line is done.
fn accept(done: Seq<u8>) -> Turn
    ensures { result ≡ Turn.Reply done false }
{
    Turn::Reply {
        bytes: done,
        refused: false,
    }
}

// Refuses a line for a cause of the mode's.
fn refuse(alloc: Global, line: u64, cause: ModeCause) -> Turn
    ensures { IsRefused line cause result }
{
    tell(reply_mode_no(alloc, line, cause), true)
}

// The turn of a reply, where there was memory for it.
fn tell(reply: Result<Seq<u8>, NoMemory>, refused: bool) -> Turn
    ensures { MatchResult reply (λ bytes. result ≡ Turn.Reply bytes refused) (λ _. result ≡ Turn.Memory) }
{
    match reply {
        Ok(bytes) => Turn::Reply { bytes, refused },
        Err(NoMemory) => Turn::Memory,
    }
}

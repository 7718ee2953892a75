// Agents that share a map.
ghost use Rattle.std.specs.Prelude.{◌≡◌, ◌≤◌, None, Some, length, OnOk, OnErr, IfOk, IfErr};
ghost use Rattle.tmm_model.specs.Edits.{upgraded};
ghost use Rattle.tmm_model.specs.Lines.{IsWellFormedEdit};
ghost use Rattle.tmm_model.specs.Standing.{empty_list};
ghost use Rattle.agents.specs.Batches.{held_by, hold_cause};
ghost use Rattle.agents.specs.Commits.{AcceptedInTurn, list_after};
ghost use Rattle.agents.specs.Holdings.{StopsBatch, StopsHold};
ghost use Rattle.agents.specs.Sharing.{discarded, holding};
ghost use Rattle.agents.specs.States.{IsLevel, IsSettled, IsTrial, Offered, OffersOnly, offered, taken_over, world_of};
ghost use Rattle.agents.specs.Worlds.{first_world};

use crate::batches::{Held, HoldStop, Holding, forget, hand_over, held_by, hold};
use crate::making::{BatchStop, Lagging, caught_up, copied, make_all};
use map_core::{Copies, Counter, MapCore, Opens};
use std::alloc::Global;
use std::mem;
use tmm_model::{Edit, Name, NoMemory, Seq, Stop, Taken};

/// A map that agents share, and the edits that each of them holds.
#[derive(Drop)]
pub struct Agents<M> {
    /// The map.
    pub core: M,
    /// What is held, of each agent that holds some edit.
    pub holdings: Vec<Holding>,
    /// The edits that are offered to be made, where some are.
    pub offer: Option<Offer<M>>,
    /// The map before the last batch that was made, and that batch.
    pub spare: Option<Lagging<M>>,
}

/// The edits of an agent that are offered to be made.
#[derive(Drop)]
pub struct Offer<M> {
    /// The agent.
    pub agent: Name,
    /// The map with all of them made, none where one of them is refused.
    pub trial: Option<Lagging<M>>,
}

impl<M: Opens + Drop> Agents<M> {
    /// The empty map of version 2, and no edit held. Without memory it answers that.
    pub fn make(alloc: Global) -> Result<Agents<M>, NoMemory>
        ensures world { IfOk result (λ made. world_of M.list made ≡ first_world) }
        ensures idle { IfOk result (λ made. offered M.list made ≡ None) }
        ensures settled { IfOk result (IsSettled M.list M.pending) }
    {
        let mut core = M::open(alloc)?;
        upgrade(alloc, &mut core)?;
        Ok(Agents {
            core,
            holdings: Vec::new(alloc),
            offer: None,
            spare: None,
        })
    }
}

// Opens version 2 of an empty map.
fn upgrade<M: MapCore>(alloc: Global, core: &mut M) -> Result<(), NoMemory>
    requires idle { M.pending core.old ≡ None }
    requires empty { M.list core.old ≡ empty_list }
    ensures list { OnOk result (M.list core.new ≡ upgraded empty_list) }
    ensures idle { M.pending core.new ≡ None }
{
    match core.apply(alloc, &Edit::Upgrade, &mut Counter::zero()) {
        Ok(_opened) => {
            core.commit();
            Ok(())
        }
        Err(Stop::Refused(_)) => unreachable!(),
        Err(Stop::NoMemory) => Err(NoMemory),
    }
}

impl<M: MapCore + Drop> Agents<M> {
    /// How many edits are held for an agent.
    pub fn held(&self, agent: Name) -> u32
        requires { IsSettled M.list M.pending self.now }
        ensures held { result ≡ length (held_by (world_of M.list self.now).batches agent) }
        ensures few { result ≤ 100 }
    {
        held_by(self.holdings.as_slice(), agent).len() as u32
    }

    /// Holds an edit for an agent, behind those that it holds. `Batch` is answered exactly where it
    /// holds 100, and `Agents` exactly where it holds none and 64 others hold some. Where the edit
    /// is not held nothing changes.
    pub fn hold(
        &mut self,
        alloc: Global,
        agent: Name,
        line: u64,
        edit: Edit,
    ) -> Result<(), HoldStop>
        requires settled { IsSettled M.list M.pending self.old }
        requires idle { offered M.list self.old ≡ None }
        requires well_formed { IsWellFormedEdit edit }
        ensures allowed { OnOk result (hold_cause (world_of M.list self.old).batches agent ≡ None) }
        ensures held { OnOk result (world_of M.list self.new ≡ holding (world_of M.list self.old) agent (record { line = line; edit = edit })) }
        ensures stops { IfErr result (StopsHold (hold_cause (world_of M.list self.old).batches agent)) }
        ensures same { OnErr result (world_of M.list self.new ≡ world_of M.list self.old) }
        ensures idle { offered M.list self.new ≡ None }
        ensures settled { IsSettled M.list M.pending self.new }
    {
        hold(alloc, &mut self.holdings, agent, Held { line, edit })
    }

    /// Makes what is offered, where all of it is accepted, and holds nothing for its agent then. It
    /// takes no memory.
    pub fn accept(&mut self)
        requires settled { IsSettled M.list M.pending self.old }
        requires offers { (o : Offered) × (offered M.list self.old ≡ Some o) }
        ensures world { (o : Offered) → offered M.list self.old ≡ Some o → world_of M.list self.new ≡ taken_over o (world_of M.list self.old) }
        ensures idle { offered M.list self.new ≡ None }
        ensures settled { IsSettled M.list M.pending self.new }
    {
        let Some(Offer { agent, trial }) = self.offer.take() else {
            unreachable!();
        };
        match trial {
            Some(trial) => self.take_over(agent, trial),
            None => forget(&mut self.holdings, agent),
        }
    }

    // Takes over a map with all edits of an agent made. The map before is kept with these edits, so
    // that the next trial has to make them alone.
    fn take_over(&mut self, agent: Name, mut trial: Lagging<M>)
        requires settled { IsSettled M.list M.pending self.old }
        requires idle { self.old.offer ≡ None }
        requires trial { IsTrial M.list M.pending (world_of M.list self.old) agent trial }
        ensures world { world_of M.list self.new ≡ taken_over (record { agent = agent; list = M.list trial.map }) (world_of M.list self.old) }
        ensures idle { self.new.offer ≡ None }
        ensures settled { IsSettled M.list M.pending self.new }
    {
        hand_over(&mut self.holdings, agent, &mut trial.lag);
        mem::swap(&mut self.core, &mut trial.map);
        self.spare = Some(trial);
    }

    /// Takes an offer back: all is as before it. It takes no memory.
    pub fn withdraw(&mut self)
        requires settled { IsSettled M.list M.pending self.old }
        requires offers { (o : Offered) × (offered M.list self.old ≡ Some o) }
        ensures world { world_of M.list self.new ≡ world_of M.list self.old }
        ensures idle { offered M.list self.new ≡ None }
        ensures settled { IsSettled M.list M.pending self.new }
    {
        self.offer = None;
    }

    /// Forgets what an agent holds. It takes no memory.
    pub fn discard(&mut self, agent: Name)
        requires settled { IsSettled M.list M.pending self.old }
        requires idle { offered M.list self.old ≡ None }
        ensures world { world_of M.list self.new ≡ discarded (world_of M.list self.old) agent }
        ensures idle { offered M.list self.new ≡ None }
        ensures settled { IsSettled M.list M.pending self.new }
    {
        forget(&mut self.holdings, agent);
    }

    /// The map, with the edits that were made and none that is held.
    pub fn map(&self) -> &M
        requires settled { IsSettled M.list M.pending self.now }
        requires idle { offered M.list self.now ≡ None }
        ensures list { M.list result.now ≡ (world_of M.list self.now).list }
        ensures idle { M.pending result.now ≡ None }
    {
        &self.core
    }
}

impl<M: Copies + Drop> Agents<M> {
    /// Offers the edits of an agent to be made: each in turn, with what it changes, or the first
    /// that is refused. Both leave an offer, which `accept` or `withdraw` ends. Without memory all
    /// is as before. The counter counts the decisions that are made.
    pub fn offer(
        &mut self,
        alloc: Global,
        agent: Name,
        counter: &mut Counter,
    ) -> Result<Seq<Taken>, BatchStop>
        requires settled { IsSettled M.list M.pending self.old }
        requires idle { offered M.list self.old ≡ None }
        ensures accepted { IfOk result (λ all. AcceptedInTurn (world_of M.list self.old).list (held_by (world_of M.list self.old).batches agent) all.items) }
        ensures offers { OnOk result (offered M.list self.new ≡ Some (record { agent = agent; list = list_after (world_of M.list self.old).list (held_by (world_of M.list self.old).batches agent) })) }
        ensures stops { IfErr result (StopsBatch (world_of M.list self.old).list (held_by (world_of M.list self.old).batches agent)) }
        ensures offers_none { IfErr result (OffersOnly agent (world_of M.list self.old).list (offered M.list self.new)) }
        ensures same { world_of M.list self.new ≡ world_of M.list self.old }
        ensures settled { IsSettled M.list M.pending self.new }
    {
        let mut trial = self.level(alloc, counter)?;
        let held = held_by(self.holdings.as_slice(), agent);
        match make_all(alloc, &mut trial.map, held, counter) {
            Ok(all) => {
                self.offer = Some(Offer {
                    agent,
                    trial: Some(trial),
                });
                Ok(all)
            }
            Err(BatchStop::Refused { line, refusal }) => {
                self.offer = Some(Offer { agent, trial: None });
                Err(BatchStop::Refused { line, refusal })
            }
            Err(BatchStop::NoMemory) => Err(BatchStop::NoMemory),
        }
    }

    // A map like the one that is shared, to try edits on: the one before the last batch, with this
    // made again, or where there is none, a copy.
    fn level(&mut self, alloc: Global, counter: &mut Counter) -> Result<Lagging<M>, NoMemory>
        requires settled { IsSettled M.list M.pending self.old }
        ensures level { IfOk result (IsLevel M.list M.pending (M.list self.old.core)) }
        ensures core { self.new.core ≡ self.old.core }
        ensures holdings { self.new.holdings ≡ self.old.holdings }
        ensures offer { self.new.offer ≡ self.old.offer }
        ensures spare { self.new.spare ≡ None }
    {
        let Some(spare) = self.spare.take() else {
            return copied(alloc, &self.core);
        };
        match caught_up(alloc, spare, counter) {
            Some(trial) => Ok(trial),
            None => copied(alloc, &self.core),
        }
    }
}

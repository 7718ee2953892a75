// The edits that agents hold.
ghost use Rattle.std.specs.Prelude.{◌≡◌, ◌<◌, ◌≤◌, ◌∷◌, ◌++◌, [], All, None, map, length, nat_le, position, OnOk, OnErr, IfOk, IfErr, IfSome};
ghost use Rattle.tmm_model.specs.declared.mode.ModeCause.TheVariants.{LimitBatch, LimitAgents};
ghost use Rattle.tmm_model.specs.Lines.{IsWellFormedEdit};
ghost use Rattle.tmm_model.specs.Modes.{where_true};
ghost use Rattle.tmm_model.specs.Points.{same_name};
ghost use Rattle.agents.specs.Batches.{held_by as held_by_of, hold_cause, with_held, without};
ghost use Rattle.agents.specs.Holdings.{IsHeld, StopsHold, batch_of};

use std::alloc::Global;
use std::mem;
use tmm_model::{Edit, Name, NoMemory};

/// The most edits that an agent may hold.
pub const MOST_HELD: usize = 100;

/// The most agents that may hold edits at once.
pub const MOST_AGENTS: usize = 64;

/// An edit that is held.
#[derive(Drop)]
pub struct Held {
    /// The number of the line that says it.
    pub line: u64,
    /// The edit.
    pub edit: Edit,
}

/// The edits that an agent holds.
#[derive(Drop)]
pub struct Holding {
    /// The agent.
    pub agent: Name,
    /// The edits, the first of them first.
    pub edits: Vec<Held>,
}

/// Why an edit is not held.
#[derive(Clone, Copy, PartialEq, Eq, Debug)]
pub enum HoldStop {
    /// The agent holds as many edits as it may.
    Batch,
    /// The agent holds none, and as many others hold some as may.
    Agents,
    /// There was no memory.
    NoMemory,
}

impl From<NoMemory> for HoldStop {
    ghost use Rattle.agents.specs.declared.batches.HoldStop.TheVariants.{NoMemory as Wanting};

    ghost from_gives = { λ _ stop. stop ≡ Wanting };

    fn from(_: NoMemory) -> HoldStop {
        HoldStop::NoMemory
    }
}

// The place of what an agent holds, none where it holds nothing.
fn place_of(holdings: &[Holding], agent: Name) -> Option<usize>
    ensures place { result ≡ position (λ h. same_name h.agent agent) holdings.now }
    ensures within { IfSome result (λ place. place < length holdings.now) }
{
    holdings.iter().position(|holding| holding.agent == agent)
}

/// The edits that an agent holds, the first of them first.
pub(crate) fn held_by(holdings: &[Holding], agent: Name) -> &[Held]
    ensures { result.now ≡ held_by_of (map batch_of holdings.now) agent }
{
    match place_of(holdings, agent) {
        Some(place) => holdings[place].edits.as_slice(),
        None => &[],
    }
}

/// Holds an edit for an agent, behind those that it holds. Where the agent may hold no further one,
/// or without memory, nothing changes.
pub(crate) fn hold(
    alloc: Global,
    holdings: &mut Vec<Holding>,
    agent: Name,
    held: Held,
) -> Result<(), HoldStop>
    requires settled { All IsHeld holdings.old.items }
    requires well_formed { IsWellFormedEdit held.edit }
    ensures allowed { OnOk result (hold_cause (map batch_of holdings.old.items) agent ≡ None) }
    ensures held { OnOk result (map batch_of holdings.new.items ≡ with_held (map batch_of holdings.old.items) agent held) }
    ensures stops { IfErr result (StopsHold (hold_cause (map batch_of holdings.old.items) agent)) }
    ensures same { OnErr result (map batch_of holdings.new.items ≡ map batch_of holdings.old.items) }
    ensures settled { All IsHeld holdings.new.items }
{
    match place_of(holdings, agent) {
        Some(place) => hold_more(&mut holdings[place], held),
        None => hold_first(alloc, holdings, agent, held),
    }
}

// Holds an edit behind others of the same agent.
fn hold_more(holding: &mut Holding, held: Held) -> Result<(), HoldStop>
    requires settled { IsHeld holding.old }
    requires well_formed { IsWellFormedEdit held.edit }
    ensures allowed { OnOk result (length holding.old.edits.items < MOST_HELD) }
    ensures held { OnOk result (holding.new.edits.items ≡ holding.old.edits.items ++ held ∷ []) }
    ensures stops { IfErr result (StopsHold (where_true (nat_le MOST_HELD (length holding.old.edits.items)) LimitBatch)) }
    ensures same { OnErr result (holding.new.edits.items ≡ holding.old.edits.items) }
    ensures agent { holding.new.agent ≡ holding.old.agent }
    ensures settled { IsHeld holding.new }
{
    if holding.edits.len() == MOST_HELD {
        return Err(HoldStop::Batch);
    }
    match holding.edits.push(held) {
        Ok(()) => Ok(()),
        Err(_) => Err(HoldStop::NoMemory),
    }
}

// Holds an edit for an agent that holds none.
fn hold_first(
    alloc: Global,
    holdings: &mut Vec<Holding>,
    agent: Name,
    held: Held,
) -> Result<(), HoldStop>
    requires settled { All IsHeld holdings.old.items }
    requires well_formed { IsWellFormedEdit held.edit }
    ensures allowed { OnOk result (length holdings.old.items < MOST_AGENTS) }
    ensures held { OnOk result (map batch_of holdings.new.items ≡ map batch_of holdings.old.items ++ record { agent = agent; edits = held ∷ [] } ∷ []) }
    ensures stops { IfErr result (StopsHold (where_true (nat_le MOST_AGENTS (length holdings.old.items)) LimitAgents)) }
    ensures same { OnErr result (holdings.new.items ≡ holdings.old.items) }
    ensures settled { All IsHeld holdings.new.items }
{
    if holdings.len() >= MOST_AGENTS {
        return Err(HoldStop::Agents);
    }
    let first = alone(alloc, agent, held)?;
    match holdings.push(first) {
        Ok(()) => Ok(()),
        Err(_) => Err(HoldStop::NoMemory),
    }
}

// An edit that is the only one of its agent.
fn alone(alloc: Global, agent: Name, held: Held) -> Result<Holding, NoMemory>
    ensures agent { IfOk result (λ holding. holding.agent ≡ agent) }
    ensures edits { IfOk result (λ holding. holding.edits.items ≡ held ∷ []) }
{
    let mut edits = Vec::new(alloc);
    edits.push(held)?;
    Ok(Holding { agent, edits })
}

/// Forgets what an agent holds. It takes no memory.
pub(crate) fn forget(holdings: &mut Vec<Holding>, agent: Name)
    requires { All IsHeld holdings.old.items }
    ensures forgotten { map batch_of holdings.new.items ≡ without (map batch_of holdings.old.items) agent }
    ensures settled { All IsHeld holdings.new.items }
{
    holdings.retain(|holding| holding.agent != agent);
}

/// Forgets what an agent holds, and hands it over. It takes no memory.
pub(crate) fn hand_over(holdings: &mut Vec<Holding>, agent: Name, edits: &mut Vec<Held>)
    requires settled { All IsHeld holdings.old.items }
    requires empty { edits.old.items ≡ [] }
    ensures handed { edits.new.items ≡ held_by_of (map batch_of holdings.old.items) agent }
    ensures forgotten { map batch_of holdings.new.items ≡ without (map batch_of holdings.old.items) agent }
    ensures settled { All IsHeld holdings.new.items }
{
    match place_of(holdings, agent) {
        Some(place) => {
            mem::swap(&mut holdings[place].edits, edits);
            holdings.retain(|holding| holding.agent != agent);
        }
        None => {}
    }
}

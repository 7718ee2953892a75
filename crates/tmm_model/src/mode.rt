// The modes of the program, and what the lines of a mode's own say.
use crate::name::Name;

/// A mode of the program: what it answers beside the lines of a script.
#[derive(Clone, Copy, PartialEq, Eq, Debug)]
pub enum Mode {
    /// Suppositions on top of the map, each kept or given up whole.
    Suppose,
    /// Agents that share a map, each with edits of its own that are made together or not at all.
    Agents,
    /// The small changes that mend a broken protection.
    Repairs,
    /// What happens where each point comes at its earliest date.
    Timeline,
}

/// What a line of a mode's own says.
#[derive(Clone, Copy, PartialEq, Eq, Debug)]
pub enum ModeLine {
    /// To begin a supposition.
    Suppose,
    /// To take a supposition over.
    Keep,
    /// To give a supposition up.
    Drop,
    /// To hold the edit of an agent that the line says from this byte on.
    Hold { agent: Name, rest: usize },
    /// To make the held edits of an agent.
    Commit(Name),
    /// To forget the held edits of an agent.
    Discard(Name),
    /// To tell what mends the protection of this name.
    Repairs(Name),
    /// To tell what happens where each point comes at its earliest date.
    Timeline,
}

/// Why a line of a mode's own is refused, beside the causes against the lines of a script.
#[derive(Clone, Copy, PartialEq, Eq, Debug)]
pub enum ModeCause {
    /// Eight suppositions stand, and one more is begun.
    LimitSuppose,
    /// No supposition stands that could be kept or given up.
    Suppose,
    /// The line is an edit without an agent.
    Agent,
    /// The agent holds 100 edits, and one more is to be held.
    LimitBatch,
    /// 64 agents hold edits, and one more is to hold its first.
    LimitAgents,
}

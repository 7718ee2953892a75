// Decisions that wait for their date.
ghost use Rattle.std.specs.Prelude.{◌≡◌, ◌≤◌, [], ◌∷◌, MatchOption, OnOk};
ghost use Rattle.std.specs.List.{All};
ghost use Rattle.std.specs.List.Sorted.{IsPermutation};

use std::alloc::Global;
use std::cmp::Reverse;
use std::collections::BinaryHeap;
use std::marker::Model;
use tmm_model::NoMemory;

/// A rule at the event of a node, to be decided at the date at which its effect would begin.
#[derive(Clone, Copy, PartialEq, Eq, PartialOrd, Ord)]
pub(crate) struct Pending {
    /// The earliest date of the effect, reversed so that the queue gives the earliest first.
    pub due: Reverse<u32>,
    /// The node of the event.
    pub trigger: u32,
    /// The place of the rule in the standing list.
    pub rule: u32,
}

/// Decisions, of which those come first that are due first.
#[derive(Drop)]
pub(crate) struct Queue {
    heap: BinaryHeap<Pending>,
}

impl Model for Queue {
    ghost use Rattle.std.specs.Prelude.{List};
    ghost use Rattle.std.specs.BinaryHeap.{heap_items, IsHeap};
    ghost use Rattle.projection.specs.declared.pending.Pending.{Pending};

    ghost Value = { List Pending };

    ghost view = { λ q. heap_items q.heap };

    ghost invariant = { λ q. IsHeap ⟦<Pending as Ord>⟧.cmp (heap_items q.heap) };
}

impl Queue {
    /// The empty queue. It takes no memory.
    pub fn make(alloc: Global) -> Queue
        ensures { result ≡ [] }
    {
        Queue {
            heap: BinaryHeap::new(alloc),
        }
    }

    /// Adds a decision.
    pub fn push(&mut self, pending: Pending) -> Result<(), NoMemory>
        ensures { OnOk result (IsPermutation (pending ∷ self.old) self.new) }
    {
        match self.heap.push(pending) {
            Ok(()) => Ok(()),
            Err(_) => Err(NoMemory),
        }
    }

    /// A decision of which no other is due earlier.
    pub fn pop(&mut self) -> Option<Pending>
        ensures { MatchOption result (self.old ≡ []) (λ p. IsPermutation self.old (p ∷ self.new) × All (λ q. p.due.0 ≤ q.due.0) self.new) }
    {
        self.heap.pop()
    }
}

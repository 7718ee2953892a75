// What is kept, from nothing on, and back to the last commit.
ghost use Rattle.std.specs.Prelude.{◌≡◌, ℕ, [], None};
ghost use Rattle.occ_tree.specs.Places.{forest};
ghost use Rattle.occ_tree.specs.Standing.{present, committed};
ghost use Rattle.undo_rows.specs.Changes.{present as rows_now, committed as rows_then};
ghost use Rattle.belief_net.specs.Updating.{CommitsKept, KeepsNothing, LeadsBack};

use crate::state::BeliefNet;
use belief_table::{Beliefs, Decisions, Numbers, Waiting};
use decision_rows::Rows;
use occ_tree::Tree;
use std::alloc::Global;

impl BeliefNet {
    /// No occurrences and no decisions: those of a list in which nothing is declared to occur. It
    /// takes no memory.
    pub fn make(alloc: Global) -> BeliefNet
        ensures nodes { (x : ℕ) → forest result.tree x ≡ None }
        ensures rows { (i : ℕ) → (rows_now result.decisions.rows).row i ≡ None }
        ensures waits { result.decisions.waiting ≡ [] }
        ensures kept { KeepsNothing result }
    {
        BeliefNet {
            beliefs: Beliefs {
                tree: Tree::make(alloc),
                decisions: Decisions {
                    rows: Rows::make(alloc),
                    rules: Numbers::make(alloc),
                    classes: Numbers::make(alloc),
                    waiting: Waiting::make(alloc),
                },
            },
        }
    }

    /// Makes nodes and rows those of the last commit. It takes no memory.
    pub fn commit(&mut self)
        ensures nodes { present self.new.tree ≡ present self.old.tree }
        ensures nodes_at_commit { committed self.new.tree ≡ present self.old.tree }
        ensures rows { rows_now self.new.decisions.rows ≡ rows_now self.old.decisions.rows }
        ensures rows_at_commit { rows_then self.new.decisions.rows ≡ rows_now self.old.decisions.rows }
        ensures rules { self.new.decisions.rules ≡ self.old.decisions.rules }
        ensures classes { self.new.decisions.classes ≡ self.old.decisions.classes }
        ensures waits { self.new.decisions.waiting ≡ self.old.decisions.waiting }
        ensures kept { CommitsKept self.old self.new }
    {
        self.beliefs.tree.commit();
        self.beliefs.decisions.rows.commit();
    }

    /// Makes nodes and rows those of the last commit again, of which none waits. Numbers of names
    /// stay. It takes no memory.
    pub fn rollback(&mut self)
        ensures nodes { present self.new.tree ≡ committed self.old.tree }
        ensures nodes_at_commit { committed self.new.tree ≡ committed self.old.tree }
        ensures rows { rows_now self.new.decisions.rows ≡ rows_then self.old.decisions.rows }
        ensures rows_at_commit { rows_then self.new.decisions.rows ≡ rows_then self.old.decisions.rows }
        ensures rules { self.new.decisions.rules ≡ self.old.decisions.rules }
        ensures classes { self.new.decisions.classes ≡ self.old.decisions.classes }
        ensures waits { self.new.decisions.waiting ≡ [] }
        ensures kept { LeadsBack self.old self.new }
    {
        self.beliefs.tree.rollback();
        self.beliefs.decisions.rows.rollback();
        self.beliefs.decisions.waiting.clear();
    }
}

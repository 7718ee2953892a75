// What is kept of decisions, once more, for changes of its own.
ghost use Rattle.std.specs.Prelude.{IfOk};
ghost use Rattle.belief_table.specs.Copies.{IsCopy};

use crate::state::Decisions;
use std::alloc::Global;
use tmm_model::NoMemory;

impl Decisions {
    /// The same rows and names, and the same last commit, for changes of their own. It takes memory.
    pub fn copy(&self, alloc: Global) -> Result<Decisions, NoMemory>
        ensures { IfOk result (IsCopy self.now) }
    {
        Ok(Decisions {
            rows: self.rows.copy(alloc)?,
            rules: self.rules.copy()?,
            classes: self.classes.copy()?,
            waiting: self.waiting.copy(alloc)?,
        })
    }
}

// Rows that go with an event.
ghost use Rattle.std.specs.Prelude.{Some, OnOk};
ghost use Rattle.undo_rows.specs.Tables.{AreListed};
ghost use Rattle.belief_table.specs.Decided.{table_of, AreOfSome, KeepsLast, DropsRows, AreNoLonger};

use crate::state::Decisions;
use std::alloc::Global;
use tmm_model::NoMemory;

/// Takes out all rows at the node of an event.
pub fn drop_rows(alloc: Global, decisions: &mut Decisions, event: u32) -> Result<(), NoMemory>
    requires { AreOfSome decisions.old }
    ensures drops { OnOk result (DropsRows event decisions.old decisions.new) }
    ensures listed { OnOk result (AreListed (table_of decisions.new)) }
    ensures fewer { OnOk result (AreNoLonger decisions.old decisions.new) }
    ensures last { KeepsLast decisions.old decisions.new }
{
    while let Some(row) = decisions.rows.first(0, event) {
        decisions.rows.remove(alloc, row)?;
        decisions.waiting.remove(row);
    }
    Ok(())
}

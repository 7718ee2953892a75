// What is stored beside the log.
ghost use Rattle.std.specs.Prelude.{◌≡◌, ◌≢◌, ℕ, false, List, [], ◌∷◌, ◌++◌, None, Some, IfOk};
ghost use Rattle.slab.specs.Slab.{get};
ghost use Rattle.undo_rows.specs.declared.row.Row.{Row};
ghost use Rattle.undo_rows.specs.declared.change.Change.{Change};
ghost use Rattle.undo_rows.specs.Tables.{live};
ghost use Rattle.undo_rows.specs.Changes.{before, table_in};
ghost use Rattle.undo_rows.specs.RowsInside.{AreLogged, CanUndo};
ghost use Rattle.undo_rows.specs.Steps.{AreAsMany};
ghost use Rattle.undo_rows.specs.Fits.{RowFits};

use crate::change::Change;
use crate::row::Row;
use row_links::Links;
use slab::Slab;
use std::alloc::Global;
use tmm_model::NoMemory;

/// Rows and the lists on which they are.
#[derive(Drop)]
pub(crate) struct Stored<T: Copy, const F: usize> {
    /// The rows by number, those removed since the last commit among them.
    pub rows: Slab<Row<T, F>>,
    /// The lists.
    pub links: Links<F>,
}

impl<T: Copy, const F: usize> Stored<T, F> {
    /// No rows. It takes no memory.
    pub fn make(alloc: Global) -> Stored<T, F>
        ensures rows { result.rows.slots ≡ [] }
        ensures links { result.links ≡ [] }
    {
        Stored {
            rows: Slab::new(alloc),
            links: Links::make(alloc),
        }
    }

    /// The same rows and lists, for changes of their own. It takes memory.
    pub fn copy(&self, alloc: Global) -> Result<Stored<T, F>, NoMemory>
        requires { RowFits T.row F.row }
        ensures rows { IfOk result (λ copy. copy.rows.slots ≡ self.now.rows.slots) }
        ensures links { IfOk result (λ copy. copy.links ≡ self.now.links) }
    {
        Ok(Stored {
            rows: self.rows.clone()?,
            links: self.links.copy(alloc)?,
        })
    }

    /// Undoes a change.
    pub fn undo(&mut self, change: &Change<T>)
        requires { CanUndo self.old.links change.now (table_in self.old.rows.slots self.old.links) }
        ensures before { table_in self.new.rows.slots self.new.links ≡ before change.now (table_in self.old.rows.slots self.old.links) }
        ensures as_many { AreAsMany self.old.links self.new.links }
    {
        match *change {
            Change::Entered { row } => {
                let _ = self.rows.try_remove(row as usize);
            }
            Change::Linked { family, head, row } => self.links.undo_link(family, head, row),
            Change::Unlinked { family, gap, row } => self.links.relink(family, gap, row),
            Change::Replaced { row, before } => {
                if let Some(row) = self.rows.get_mut(row as usize) {
                    row.value = before;
                }
            }
            Change::Removed { row } => {
                if let Some(row) = self.rows.get_mut(row as usize) {
                    row.gone = false;
                }
            }
        }
    }

    /// Does with a change what is left to do where it will not be undone.
    pub fn finish(&mut self, done: &Change<T>)
        ensures live { (x : ℕ) → live (get self.new.rows x) ≡ live (get self.old.rows x) }
        ensures none { (x : ℕ) → get self.old.rows x ≡ None → get self.new.rows x ≡ None }
        ensures gone { (log : List (Change T)) → AreLogged (get self.old.rows) (log ++ done.now ∷ []) → AreLogged (get self.new.rows) log }
        ensures links { self.new.links ≡ self.old.links }
    {
        match *done {
            Change::Entered { row: _ } => {}
            Change::Linked {
                family: _,
                head: _,
                row: _,
            } => {}
            Change::Unlinked {
                family: _,
                gap: _,
                row: _,
            } => {}
            Change::Replaced { row: _, before: _ } => {}
            Change::Removed { row } => self.free(row),
        }
    }

    // Takes a row out, if it was removed.
    fn free(&mut self, x: u32)
        ensures live { (y : ℕ) → live (get self.new.rows y) ≡ live (get self.old.rows y) }
        ensures none { (y : ℕ) → get self.old.rows y ≡ None → get self.new.rows y ≡ None }
        ensures own { (r : Row T F) → get self.new.rows x ≡ Some r → r.gone ≡ false }
        ensures others { (y : ℕ) → y ≢ x → get self.new.rows y ≡ get self.old.rows y }
        ensures links { self.new.links ≡ self.old.links }
    {
        if let Some(row) = self.rows.get(x as usize)
            && row.gone
        {
            let _ = self.rows.try_remove(x as usize);
        }
    }
}

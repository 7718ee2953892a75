// The row of one point, as it is repaired.
ghost use Rattle.std.specs.Prelude.{◌≡◌, ◌≢◌, ℕ, ◌<◌, length};
ghost use Rattle.dist_repair.specs.Rows.{row_of};

use arrayvec::ArrayVec;
use dist_net::{Cell, POINTS};
use std::marker::Model;

/// The bounds on the ways from one point, by the numbers of their ends. It takes no memory.
#[derive(Drop)]
pub(crate) struct Row {
    cells: ArrayVec<Cell, POINTS>,
}

impl Model for Row {
    ghost use Rattle.std.specs.Prelude.{◌≡◌, List, length};
    ghost use Rattle.tmm_model.specs.declared.bound.Bound.{Bound};

    ghost Value = { List Bound };

    ghost view = { λ r. r.cells.items };

    ghost invariant = { λ r. length r.cells.items ≡ 256 };
}

impl Row {
    // No ways.
    pub(crate) fn none() -> Row {
        let mut cells = ArrayVec::new();
        for _ in 0..POINTS {
            cells.push(Cell::FREE);
        }
        Row { cells }
    }

    // Takes over the bounds of the slice.
    pub(crate) fn copy_from(&mut self, bounds: &[Cell])
        requires { length bounds.now ≡ POINTS }
        ensures { self.new ≡ bounds.now }
    {
        self.cells.as_mut_slice().copy_from_slice(bounds);
    }

    // The bound on the way to a point.
    pub(crate) fn at(&self, q: u16) -> Cell
        requires { q < POINTS }
        ensures { result ≡ row_of self.now q }
    {
        self.cells[q as usize]
    }

    // Puts the bound on the way to a point.
    pub(crate) fn set(&mut self, q: u16, bound: Cell)
        requires { q < POINTS }
        ensures set { row_of self.new q ≡ bound }
        ensures others { (p : ℕ) → p ≢ q → row_of self.new p ≡ row_of self.old p }
    {
        self.cells[q as usize] = bound;
    }
}

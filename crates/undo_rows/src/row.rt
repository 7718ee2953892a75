// One row.
ghost use Rattle.std.specs.Prelude.{◌≡◌};
ghost use Rattle.undo_rows.specs.Tables.{head_of};

use std::alloc::AllocError;

/// A value under up to `F` heads.
#[derive(Copy)]
pub struct Row<T, const F: usize> {
    /// The head under which the row stands in each family, none where it stands on no list of it.
    pub heads: [Option<u32>; F],
    /// What the row keeps.
    pub value: T,
    /// Whether it was removed since the last commit.
    pub gone: bool,
}

impl<T: Copy, const F: usize> Clone for Row<T, F> {
    ghost is_clone = { λ row copy. copy ≡ row };

    fn clone(&self) -> Result<Self, AllocError> {
        Ok(*self)
    }
}

impl<T: Copy, const F: usize> Row<T, F> {
    /// The head under which the row stands in a family.
    pub fn head(&self, family: usize) -> Option<u32>
        ensures { result ≡ head_of self.now family }
    {
        *self.heads.get(family)?
    }
}

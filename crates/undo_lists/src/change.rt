// What a log of lists keeps.
ghost use Rattle.std.specs.Prelude.{◌≡◌};
ghost use Rattle.undo_lists.specs.Changes.{list_of};

/// A change that was made, with what it takes to undo it.
#[derive(Clone, Copy)]
pub enum Change<T> {
    /// An item came in at this place of a list.
    Inserted { list: u32, place: usize },
    /// This item went out of this place of a list.
    Removed { list: u32, place: usize, item: T },
}

impl<T: Copy> Change<T> {
    // The number of the list that it was made to.
    pub(crate) fn list(&self) -> u32
        ensures { result ≡ list_of self.now }
    {
        match *self {
            Change::Inserted { list, .. } => list,
            Change::Removed { list, .. } => list,
        }
    }
}

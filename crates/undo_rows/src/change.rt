// What a log of rows keeps.
use row_links::Gap;

/// A change that was made, with what it takes to undo it.
#[derive(Clone, Copy)]
pub enum Change<T> {
    /// The row is new.
    Entered { row: u32 },
    /// The row was put last on a list.
    Linked { family: usize, head: u32, row: u32 },
    /// The row was taken out of a list, where it left this place.
    Unlinked { family: usize, gap: Gap, row: u32 },
    /// The row had this value.
    Replaced { row: u32, before: T },
    /// The row was removed, and keeps its number until the commit.
    Removed { row: u32 },
}

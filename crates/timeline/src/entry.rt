// Occurrences in the order of a timeline.
ghost use Rattle.std.specs.Prelude.{◌≡◌, ◌++◌, refl, map, IfOk, OnOk};
ghost use Rattle.std.specs.Ordering.{as_partial_cmp, eq_by_cmp};
ghost use Rattle.std.specs.Cmp.{partial_equiv_from_equiv, partial_order_from_agreeing_total};
ghost use Rattle.tmm_model.specs.Points.{occ_word};
ghost use Rattle.timeline.specs.Entries.{entry_cmp, entry_total, entry_equiv, IsEntryOf, IsInOrder};

use crate::row::Row;
use std::alloc::Global;
use std::cmp::Ordering;
use tmm_model::{Bound, Dated, NoMemory, Occ, Seq};

/// An occurrence, and the word by which it is ordered on its date.
#[derive(Drop)]
pub(crate) struct Entry {
    /// The word for the occurrence.
    pub word: Seq<u8>,
    /// The occurrence.
    pub dated: Dated,
}

impl PartialEq for Entry {
    ghost eq = { eq_by_cmp entry_cmp };

    ghost laws = { partial_equiv_from_equiv entry_equiv };

    fn eq(&self, other: &Entry) -> bool {
        matches!(self.cmp(other), Ordering::Equal)
    }
}

impl Eq for Entry {
    ghost laws = { entry_equiv };
}

impl PartialOrd for Entry {
    ghost partial_cmp = { as_partial_cmp entry_cmp };

    ghost laws = { partial_order_from_agreeing_total entry_cmp entry_total (λ a b. refl) (λ a b. refl) };

    fn partial_cmp(&self, other: &Entry) -> Option<Ordering> {
        Some(self.cmp(other))
    }
}

impl Ord for Entry {
    ghost cmp = { entry_cmp };

    ghost total = { entry_total };

    ghost matches_partial_cmp = { λ a b. refl };

    ghost matches_eq = { λ a b. refl };

    fn cmp(&self, other: &Entry) -> Ordering {
        match self.dated.date.cmp(&other.dated.date) {
            Ordering::Equal => self.word.items().cmp(other.word.items()),
            unequal => unequal,
        }
    }
}

/// The entry of what comes, which holds until then.
pub(crate) fn entry_of(alloc: Global, row: &Row, until: Option<Bound>) -> Result<Entry, NoMemory>
    ensures { IfOk result (IsEntryOf row.now until) }
{
    let word = word_of(alloc, &row.occ)?;
    let occ = row.occ.copy(alloc)?;
    Ok(Entry {
        word,
        dated: Dated {
            date: row.date,
            occ,
            what: row.what,
            until,
        },
    })
}

// The word for an occurrence.
fn word_of(alloc: Global, occ: &Occ) -> Result<Seq<u8>, NoMemory>
    ensures { IfOk result (λ word. word.items ≡ occ_word occ.now) }
{
    let mut word = Seq::make(alloc);
    word.extend(occ.root.bytes())?;
    word.put_links(occ.rules.items())?;
    Ok(word)
}

/// The occurrences in order.
pub(crate) fn in_order(alloc: Global, entries: Vec<Entry>) -> Result<Seq<Dated>, NoMemory>
    ensures { IfOk result (λ rows. IsInOrder entries.items rows.items) }
{
    let mut entries = entries;
    entries.sort()?;
    let mut rows = Seq::make(alloc);
    for entry in entries {
        rows.append(entry.dated)?;
    }
    Ok(rows)
}

// Where the entries of a node go on with a token of another fact.
ghost use Rattle.std.specs.Prelude.{◌<◌, ◌+◌, ◌↔◌, length, IsTrue, IfOk};
ghost use Rattle.std.specs.List.{All};
ghost use Rattle.supports.specs.Entries.{AreAlike, IsSkip, AreSkipsFrom, HaveSkips};

use crate::entries::Entry;
use spots::Spot;
use std::alloc::Global;
use tmm_model::{NoMemory, TokenRow};

// The place behind each entry of the first that is of another node, or whose token is of another
// fact.
pub(crate) fn skips_of(
    alloc: Global,
    rows: &[TokenRow<Spot>],
    entries: &[Entry],
) -> Result<Vec<usize>, NoMemory>
    requires places { All (λ e. e.place < length rows.now) entries.now }
    ensures { IfOk result (λ skips. HaveSkips rows.now entries.now skips.items) }
{
    let mut skips = Vec::from_elem(alloc, 0, entries.len())?;
    for i in (0..entries.len()).rev() {
        let skip = skip_at(rows, entries, &skips, i);
        skips[i] = skip;
    }
    Ok(skips)
}

// The same of the entry at `i`, given those behind it.
fn skip_at(rows: &[TokenRow<Spot>], entries: &[Entry], skips: &[usize], i: usize) -> usize
    requires places { All (λ e. e.place < length rows.now) entries.now }
    requires within { i < length entries.now }
    requires behind { AreSkipsFrom rows.now entries.now skips.now (i + 1) }
    ensures { IsSkip rows.now entries.now i result }
{
    let next = i + 1;
    if next == entries.len() {
        return next;
    }
    if !are_alike(rows, &entries[i], &entries[next]) {
        return next;
    }
    skips[next]
}

// Whether two entries are of one node, and their tokens of one fact.
fn are_alike(rows: &[TokenRow<Spot>], a: &Entry, b: &Entry) -> bool
    requires a_place { a.now.place < length rows.now }
    requires b_place { b.now.place < length rows.now }
    ensures { IsTrue result ↔ AreAlike rows.now a.now b.now }
{
    a.node == b.node && rows[a.place].fact == rows[b.place].fact
}

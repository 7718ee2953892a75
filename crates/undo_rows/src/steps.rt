// Changes of rows and lists, each logged as it is made, and undone.
ghost use Rattle.std.specs.Prelude.{◌≡◌, ◌≢◌, ℕ, false, cond, eqb, ◌+◌, ◌<◌, ◌≤◌, [], ◌∷◌, ◌++◌, length, Some, IfSome, IsOk, IfOk, ◌⊎◌};
ghost use Rattle.std.specs.List.{list_any};
ghost use Rattle.row_links.specs.Lists.{IsOn, IsOnNone, without};
ghost use Rattle.row_links.specs.Families.{family_of, list_in, with_list_in};
ghost use Rattle.undo_rows.specs.Tables.{head_in, is_head};
ghost use Rattle.undo_rows.specs.Steps.{LeadsBack, HasRoom};

use crate::change::Change;
use row_links::Links;
use tmm_model::NoMemory;
use undo_log::Undo;

// Puts a row last on a list.
fn link<T: Copy, const F: usize>(
    links: &mut Links<F>,
    log: &mut Undo<Change<T>>,
    family: usize,
    head: u32,
    row: u32,
)
    requires head { head < length (family_of links.old family).lists }
    requires row { row < (family_of links.old family).rows }
    requires apart { IsOnNone (family_of links.old family) row }
    requires spare { 0 < log.old.spare }
    ensures list { links.new ≡ with_list_in links.old family head (list_in links.old family head ++ row ∷ []) }
    ensures back { LeadsBack F links.old links.new log.old.items log.new.items }
    ensures spare { log.new.spare + 1 ≡ log.old.spare }
{
    links.link_last(family, head, row);
    log.push(Change::Linked { family, head, row });
}

// Takes a row out of its list.
fn unlink<T: Copy, const F: usize>(
    links: &mut Links<F>,
    log: &mut Undo<Change<T>>,
    family: usize,
    row: u32,
)
    requires on { (h : ℕ) × IsOn (list_in links.old family h) row }
    requires spare { 0 < log.old.spare }
    ensures list { (h : ℕ) → IsOn (list_in links.old family h) row → links.new ≡ with_list_in links.old family h (without row (list_in links.old family h)) }
    ensures back { LeadsBack F links.old links.new log.old.items log.new.items }
    ensures spare { log.new.spare + 1 ≡ log.old.spare }
{
    let gap = links.unlink(family, row);
    log.push(Change::Unlinked { family, gap, row });
}

// Puts a row last on the list of a head of the family, if it has one there.
fn link_under<T: Copy, const F: usize>(
    links: &mut Links<F>,
    log: &mut Undo<Change<T>>,
    family: usize,
    head: Option<u32>,
    x: u32,
)
    requires room { IfSome head (λ h. (h < length (family_of links.old family).lists) × (x < (family_of links.old family).rows)) }
    requires apart { IsOnNone (family_of links.old family) x }
    requires spare { 0 < log.old.spare }
    ensures own { (h : ℕ) → list_in links.new family h ≡ cond (is_head head h) (list_in links.old family h ++ x ∷ []) (list_in links.old family h) }
    ensures others { (f h : ℕ) → f ≢ family → list_in links.new f h ≡ list_in links.old f h }
    ensures back { LeadsBack F links.old links.new log.old.items log.new.items }
    ensures spare { log.old.spare ≤ log.new.spare + 1 }
{
    match head {
        Some(head) => link(links, log, family, head, x),
        None => {}
    }
}

// Takes a row out of the list of a head of the family, if it has one there.
fn unlink_under<T: Copy, const F: usize>(
    links: &mut Links<F>,
    log: &mut Undo<Change<T>>,
    family: usize,
    head: Option<u32>,
    x: u32,
)
    requires on { IfSome head (λ h. IsOn (list_in links.old family h) x) }
    requires spare { 0 < log.old.spare }
    ensures own { (h : ℕ) → list_in links.new family h ≡ cond (is_head head h) (without x (list_in links.old family h)) (list_in links.old family h) }
    ensures others { (f h : ℕ) → f ≢ family → list_in links.new f h ≡ list_in links.old f h }
    ensures back { LeadsBack F links.old links.new log.old.items log.new.items }
    ensures spare { log.old.spare ≤ log.new.spare + 1 }
{
    match head {
        Some(_) => unlink(links, log, family, x),
        None => {}
    }
}

// Puts a row last on the lists of its heads.
pub(crate) fn link_all<T: Copy, const F: usize>(
    links: &mut Links<F>,
    log: &mut Undo<Change<T>>,
    x: u32,
    heads: &[Option<u32>],
)
    requires room { HasRoom links.old x heads.now }
    requires apart { (f h : ℕ) → list_any (eqb x) (list_in links.old f h) ≡ false }
    requires spare { length heads.now ≤ log.old.spare }
    ensures lists { (f h : ℕ) → list_in links.new f h ≡ cond (is_head (head_in heads.now f) h) (list_in links.old f h ++ x ∷ []) (list_in links.old f h) }
    ensures back { LeadsBack F links.old links.new log.old.items log.new.items }
    ensures spare { log.old.spare ≤ log.new.spare + length heads.now }
{
    for family in 0..heads.len() {
        link_under(links, log, family, heads[family], x);
    }
}

// Takes a row out of the lists of its heads.
pub(crate) fn unlink_all<T: Copy, const F: usize>(
    links: &mut Links<F>,
    log: &mut Undo<Change<T>>,
    x: u32,
    heads: &[Option<u32>],
)
    requires on { (f h : ℕ) → head_in heads.now f ≡ Some h → IsOn (list_in links.old f h) x }
    requires spare { length heads.now ≤ log.old.spare }
    ensures lists { (f h : ℕ) → list_in links.new f h ≡ cond (is_head (head_in heads.now f) h) (without x (list_in links.old f h)) (list_in links.old f h) }
    ensures back { LeadsBack F links.old links.new log.old.items log.new.items }
    ensures spare { log.old.spare ≤ log.new.spare + length heads.now }
{
    for family in 0..heads.len() {
        unlink_under(links, log, family, heads[family], x);
    }
}

// The number of the next row, as long as it fits, where `slab` would take this key next and holds
// so many rows: that of a place, or of the next one where each place holds a row. It is always one
// of these, which `slab` does not promise, so it is asked. Of these alone the one that is 2^32 - 1
// has no number, and counts as want of memory.
pub(crate) fn next_number(key: usize, held: usize, places: u32) -> Result<u32, NoMemory>
    ensures number { IfOk result (λ x. x ≡ key) }
    ensures few { IfOk result (λ x. x < 4294967295) }
    ensures next { IfOk result (λ x. (x < places) ⊎ ((x ≡ places) × (places ≡ held))) }
    ensures free { key < places → IsOk result }
    ensures room { key ≡ places → held ≡ places → places < 4294967295 → IsOk result }
{
    let next = places as usize;
    if key < next {
        Ok(key as u32)
    } else if key == next && held == next && places < u32::MAX {
        Ok(places)
    } else {
        Err(NoMemory)
    }
}

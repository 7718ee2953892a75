// Families of lists.
ghost use Rattle.std.specs.Prelude.{◌≡◌, ℕ, ◌<◌, ◌≤◌, [], ◌∷◌, ◌++◌, length, slice_index_or, None, Some, IfSome, IfOk, OnOk};
ghost use Rattle.row_links.specs.Lists.{IsOn, IsOnNone, AreOnce, without, row_before, row_after, first_or, last_or, put_after};
ghost use Rattle.row_links.specs.Families.{family_of, list_in, with_list_in, GrowEach};

use crate::family::Family;
use crate::place::Gap;
use std::alloc::Global;
use std::marker::Model;
use tmm_model::NoMemory;

/// `F` families of lists of rows.
#[derive(Drop)]
pub struct Links<const F: usize> {
    // none as long as no rows and heads were reserved
    families: Vec<Family>,
}

impl<const F: usize> Model for Links<F> {
    ghost use Rattle.std.specs.Prelude.{List};
    ghost use Rattle.row_links.specs.Lists.{Lists};

    ghost Value = { List Lists };

    ghost view = { λ l. l.families.items };
}

impl<const F: usize> Links<F> {
    /// No rows and no heads. It takes no memory.
    pub fn make(alloc: Global) -> Links<F>
        ensures { result ≡ [] }
    {
        Links {
            families: Vec::new(alloc),
        }
    }

    /// Lets there be rows of all numbers below this one, and heads up to these, each in the family
    /// of its place. A family of which no head is given takes no memory for them. The lists stay,
    /// also where there is no memory; it counts as want of memory that a head is 2^32 - 1.
    pub fn reserve_rows(&mut self, rows: u32, heads: &[Option<u32>]) -> Result<(), NoMemory>
        ensures ok { OnOk result ((f h : ℕ) → slice_index_or heads.now f None ≡ Some h → (rows ≤ (family_of self.new f).rows) × (h < length (family_of self.new f).lists)) }
        ensures kept { GrowEach self.old self.new }
    {
        for f in 0..heads.len() {
            reach(&mut self.families, f)?;
            self.families[f].reserve_head(rows, heads[f])?;
        }
        Ok(())
    }

    /// Puts a row that is on no list of the family behind all others of a list.
    pub fn link_last(&mut self, family: usize, head: u32, row: u32)
        requires head { head < length (family_of self.old family).lists }
        requires row { row < (family_of self.old family).rows }
        requires apart { IsOnNone (family_of self.old family) row }
        ensures list { self.new ≡ with_list_in self.old family head (list_in self.old family head ++ row ∷ []) }
        ensures back { with_list_in self.new family head (without row (list_in self.new family head)) ≡ self.old }
    {
        self.families[family].link_last(head, row);
    }

    /// Takes a row off the end of a list, as it was before `link_last` put it there.
    pub fn undo_link(&mut self, family: usize, head: u32, row: u32)
        requires { last_or None (list_in self.old family head) ≡ Some row }
        ensures { self.new ≡ with_list_in self.old family head (without row (list_in self.old family head)) }
    {
        let _ = self.families[family].unlink(row);
    }

    /// Takes a row out of its list of the family, and answers its place there.
    pub fn unlink(&mut self, family: usize, row: u32) -> Gap
        requires { (h : ℕ) × IsOn (list_in self.old family h) row }
        ensures on { IsOn (list_in self.old family result.head) row }
        ensures once { AreOnce (list_in self.old family result.head) }
        ensures only { (h : ℕ) → IsOn (list_in self.old family h) row → h ≡ result.head }
        ensures exist { (result.head < length (family_of self.new family).lists) × (row < (family_of self.new family).rows) }
        ensures before { result.before ≡ row_before row (list_in self.old family result.head) }
        ensures list { self.new ≡ with_list_in self.old family result.head (without row (list_in self.old family result.head)) }
        ensures apart { IsOnNone (family_of self.new family) row }
        ensures gap { IfSome result.before (IsOn (list_in self.new family result.head)) }
        ensures back { with_list_in self.new family result.head (put_after result.before row (list_in self.new family result.head)) ≡ self.old }
    {
        self.families[family].unlink(row)
    }

    /// Puts a row that is on no list of the family into a place of a list: directly behind the row
    /// that the place names, or first where it names none. It takes no memory.
    pub fn relink(&mut self, family: usize, gap: Gap, row: u32)
        requires head { gap.head < length (family_of self.old family).lists }
        requires row { row < (family_of self.old family).rows }
        requires apart { IsOnNone (family_of self.old family) row }
        requires before { IfSome gap.before (IsOn (list_in self.old family gap.head)) }
        ensures { self.new ≡ with_list_in self.old family gap.head (put_after gap.before row (list_in self.old family gap.head)) }
    {
        self.families[family].relink(gap, row);
    }

    /// The same lists, for changes of their own. It takes memory.
    pub fn copy(&self, alloc: Global) -> Result<Links<F>, NoMemory>
        ensures { IfOk result (λ copy. copy ≡ self.now) }
    {
        let mut families = Vec::new(alloc);
        for family in &self.families {
            families.reserve(1)?;
            families.push_reserved(family.copy(alloc)?);
        }
        Ok(Links { families })
    }

    /// The first row of a list, none exactly where it is empty or there is no such head.
    pub fn first(&self, family: usize, head: u32) -> Option<u32>
        ensures first { result ≡ first_or None (list_in self.now family head) }
        ensures once { AreOnce (list_in self.now family head) }
    {
        self.families.get(family)?.first(head)
    }

    /// The row directly behind one of a list, none exactly for the last.
    pub fn next(&self, family: usize, row: u32) -> Option<u32>
        requires { (h : ℕ) × IsOn (list_in self.now family h) row }
        ensures { (h : ℕ) → IsOn (list_in self.now family h) row → result ≡ row_after row (list_in self.now family h) }
    {
        self.families[family].next(row)
    }
}

// Lets there be a family at this place, one more than there were if need be. Without memory nothing
// has changed.
fn reach(families: &mut Vec<Family>, f: usize) -> Result<(), NoMemory>
    requires { f ≤ length families.old.items }
    ensures ok { OnOk result (f < length families.new.items) }
    ensures kept { GrowEach families.old.items families.new.items }
{
    if families.len() == f {
        let alloc = *families.allocator();
        families.reserve(1)?;
        families.push_reserved(Family::make(alloc));
    }
    Ok(())
}

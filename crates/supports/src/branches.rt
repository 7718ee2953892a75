// The first clip of a token, by the nodes under which tokens are.
ghost use Rattle.std.specs.Prelude.{◌≡◌, ◌<◌, ◌≤◌, ◌↔◌, ℕ, List, length, IsTrue, IfOk, MatchOption, Option};
ghost use Rattle.std.specs.List.{All};
ghost use Rattle.spots.specs.Forest.{IsLive, IsOnce};
ghost use Rattle.spots.specs.Spots.{AreTokens, spot_early, spot_cmp};
ghost use Rattle.clipping.specs.ByDate.{IsByDate};
ghost use Rattle.occ_tree.specs.OfLists.{IsTreeIn};
ghost use Rattle.occ_tree.specs.Places.{forest};
ghost use Rattle.supports.specs.Entries.{AreBranches, AreEntries, AreSorted, HaveSkips, entry_at};
ghost use Rattle.supports.specs.Firsts.{IsFirstOf, IsBy, IsCandidate, IsOtherBehind, IsOtherBehindAny, IsClipper, IsBefore, AreBefore, IsPast, IsSooner};

use crate::entries::{Entry, entries_of, node_of};
use crate::roots::roots_of;
use crate::skips::skips_of;
use crate::way::way_to;
use occ_tree::{Order, Tree};
use spots::Spot;
use std::alloc::Global;
use tmm_model::{Bound, Name, NoMemory, TokenRow};

/// The tokens of a class under each node above them, in which the first that clips one is soon
/// found.
#[derive(Drop)]
pub struct Branches {
    // by their nodes, and under one node in the order of the tokens
    entries: Vec<Entry>,
    // where the first entry comes behind each that is of another node or fact
    skips: Vec<usize>,
    roots: Vec<u32>,
}

impl Branches {
    /// Those of the tokens of a class. Without memory it answers that.
    pub fn of(alloc: Global, tree: &Tree, rows: &[TokenRow<Spot>]) -> Result<Branches, NoMemory>
        requires tokens { (class : List ℕ) × AreTokens (forest tree.now) class rows.now }
        requires once { IsOnce (forest tree.now) }
        ensures { IfOk result (AreBranches (forest tree.now) rows.now) }
    {
        let entries = entries_of(alloc, tree, rows)?;
        let skips = skips_of(alloc, rows, &entries)?;
        let roots = roots_of(alloc, tree, rows)?;
        Ok(Branches {
            entries,
            skips,
            roots,
        })
    }

    /// The place of the first token that clips the one at `i`, none exactly where none does, were
    /// it no span. Without memory it answers that.
    pub fn first_clipper(
        &self,
        alloc: Global,
        order: &Order<'_>,
        rows: &[TokenRow<Spot>],
        i: usize,
    ) -> Result<Option<usize>, NoMemory>
        requires dates { IsTreeIn order.now.net.now.present order.now.tree.now }
        requires tokens { (class : List ℕ) × AreTokens (forest order.now.tree.now) class rows.now }
        requires by_date { IsByDate (spot_early order.now.net.now.present (forest order.now.tree.now)) (spot_cmp order.now.net.now.present (forest order.now.tree.now)) rows.now }
        requires branches { AreBranches (forest order.now.tree.now) rows.now self.now }
        requires within { i < length rows.now }
        ensures { IfOk result (IsFirstOf (IsClipper order.now.net.now.present (forest order.now.tree.now) rows.now i)) }
    {
        let way = way_to(alloc, order.tree, node_of(&rows[i]))?;
        let own = self.first_by_any(order, rows, i, &way);
        let other = self.first_by_any(order, rows, i, &self.roots);
        Ok(sooner(own, other))
    }

    // The first token that surely begins behind the one at `i` as far as one of some nodes tells,
    // and is of another fact.
    fn first_by_any(
        &self,
        order: &Order<'_>,
        rows: &[TokenRow<Spot>],
        i: usize,
        nodes: &[u32],
    ) -> Option<usize>
        requires dates { IsTreeIn order.now.net.now.present order.now.tree.now }
        requires tokens { (class : List ℕ) × AreTokens (forest order.now.tree.now) class rows.now }
        requires by_date { IsByDate (spot_early order.now.net.now.present (forest order.now.tree.now)) (spot_cmp order.now.net.now.present (forest order.now.tree.now)) rows.now }
        requires branches { AreBranches (forest order.now.tree.now) rows.now self.now }
        requires within { i < length rows.now }
        requires live { All (IsLive (forest order.now.tree.now)) nodes.now }
        ensures { IsFirstOf (IsOtherBehindAny order.now.net.now.present (forest order.now.tree.now) rows.now nodes.now i) result }
    {
        let mut first = None;
        for n in 0..nodes.len() {
            first = sooner(first, self.first_by(order, rows, i, nodes[n]));
        }
        first
    }

    // The same of one node.
    fn first_by(
        &self,
        order: &Order<'_>,
        rows: &[TokenRow<Spot>],
        i: usize,
        node: u32,
    ) -> Option<usize>
        requires dates { IsTreeIn order.now.net.now.present order.now.tree.now }
        requires tokens { (class : List ℕ) × AreTokens (forest order.now.tree.now) class rows.now }
        requires by_date { IsByDate (spot_early order.now.net.now.present (forest order.now.tree.now)) (spot_cmp order.now.net.now.present (forest order.now.tree.now)) rows.now }
        requires branches { AreBranches (forest order.now.tree.now) rows.now self.now }
        requires within { i < length rows.now }
        requires live { IsLive (forest order.now.tree.now) node }
        ensures { IsFirstOf (IsOtherBehind order.now.net.now.present (forest order.now.tree.now) rows.now node i) result }
    {
        let k = &rows[i];
        match order.far(Spot::Node(node), k.spot) {
            Bound::Finite(far) => {
                let least = i128::from(order.early(node)) + i128::from(far) + 1;
                self.first_other(order, rows, node, least, &k.fact)
            }
            Bound::Free => None,
        }
    }

    // The first token under a node that has at least a date and is of another fact.
    fn first_other(
        &self,
        order: &Order<'_>,
        rows: &[TokenRow<Spot>],
        node: u32,
        least: i128,
        fact: &Name,
    ) -> Option<usize>
        requires dates { IsTreeIn order.now.net.now.present order.now.tree.now }
        requires tokens { (class : List ℕ) × AreTokens (forest order.now.tree.now) class rows.now }
        requires by_date { IsByDate (spot_early order.now.net.now.present (forest order.now.tree.now)) (spot_cmp order.now.net.now.present (forest order.now.tree.now)) rows.now }
        requires branches { AreBranches (forest order.now.tree.now) rows.now self.now }
        ensures { IsFirstOf (IsCandidate order.now.net.now.present (forest order.now.tree.now) rows.now node least fact.now) result }
    {
        let start = self.count_before(order, rows, node, least);
        let at = self.past_fact(rows, start, node, fact);
        match self.entries.get(at) {
            Some(entry) if entry.node == node => Some(entry.place),
            _ => None,
        }
    }

    // How many entries come before those of the tokens under a node that have at least a date.
    fn count_before(
        &self,
        order: &Order<'_>,
        rows: &[TokenRow<Spot>],
        node: u32,
        least: i128,
    ) -> usize
        requires dates { IsTreeIn order.now.net.now.present order.now.tree.now }
        requires tokens { (class : List ℕ) × AreTokens (forest order.now.tree.now) class rows.now }
        requires by_date { IsByDate (spot_early order.now.net.now.present (forest order.now.tree.now)) (spot_cmp order.now.net.now.present (forest order.now.tree.now)) rows.now }
        requires branches { AreBranches (forest order.now.tree.now) rows.now self.now }
        ensures { AreBefore order.now.net.now.present (forest order.now.tree.now) rows.now node least self.now.entries.items result }
    {
        let mut low = 0;
        let mut high = self.entries.len();
        while low < high {
            let middle = low + (high - low) / 2;
            if is_before(order, rows, &self.entries[middle], node, least) {
                low = middle + 1;
            } else {
                high = middle;
            }
        }
        low
    }

    // The place from `at` on behind the entries of a node whose tokens are of a fact, where one
    // stands there.
    fn past_fact(&self, rows: &[TokenRow<Spot>], at: usize, node: u32, fact: &Name) -> usize
        requires places { All (λ e. e.place < length rows.now) self.now.entries.items }
        requires skips { HaveSkips rows.now self.now.entries.items self.now.skips.items }
        ensures { IsPast rows.now self.now.entries.items at node fact.now result }
    {
        match self.entries.get(at) {
            Some(entry) if entry.node == node && rows[entry.place].fact == *fact => self.skips[at],
            _ => at,
        }
    }
}

// Whether an entry comes before those of the tokens under a node that have at least a date.
fn is_before(
    order: &Order<'_>,
    rows: &[TokenRow<Spot>],
    entry: &Entry,
    node: u32,
    least: i128,
) -> bool
    requires dates { IsTreeIn order.now.net.now.present order.now.tree.now }
    requires tokens { (class : List ℕ) × AreTokens (forest order.now.tree.now) class rows.now }
    requires place { entry.now.place < length rows.now }
    ensures { IsTrue result ↔ IsBefore order.now.net.now.present (forest order.now.tree.now) rows.now node least entry.now }
{
    entry.node < node
        || entry.node == node && i128::from(order.early(node_of(&rows[entry.place]))) < least
}

// The sooner of two places, each none where there is none.
fn sooner(a: Option<usize>, b: Option<usize>) -> Option<usize>
    ensures { IsSooner a b result }
{
    match (a, b) {
        (Some(x), Some(y)) => Some(x.min(y)),
        (Some(x), None) => Some(x),
        (None, b) => b,
    }
}

// Nodes with the lists of their children.
ghost use Rattle.std.specs.Prelude.{◌≡◌, ◌≢◌, ℕ, Option, ◌+◌, ◌<◌, ◌≤◌, [], ◌∷◌, length, None, Some, IsSome, IfSome, IfOk, OnOk, OnErr, IsTrue, ◌↔◌};
ghost use Rattle.row_links.specs.Lists.{IsOn, first_or, row_after};
ghost use Rattle.undo_rows.specs.Tables.{AreListed};
ghost use Rattle.tmm_model.specs.Bounds.{IsWithin};
ghost use Rattle.tmm_model.specs.Names.{is_name};
ghost use Rattle.spots.specs.Forest.{Member, IsNoRoot, IsTrigger, HasClass};
ghost use Rattle.spots.specs.Light.{IsLight};
ghost use Rattle.occ_tree.specs.Nodes.{forest_in, way_to, ArePlaced, WillBePlaced, IsRoot, IsEffect, parent_of};
ghost use Rattle.std.specs.Ordering.{nat_cmp};
ghost use Rattle.std.specs.Cmp.Lexicographic.{slice_cmp};
ghost use Rattle.ancestors.specs.Ways.{shared_front};
ghost use Rattle.occ_tree.specs.Words.{word_in, node_cmp, rank_in, piece_at};
ghost use Rattle.occ_tree.specs.Standing.{nodes_in, siblings_in, head_for, present_rows, committed_rows, IsStanding};
ghost use Rattle.occ_tree.specs.Edits.{Adds, Keeps, Takes, Dates};
ghost use Rattle.occ_tree.specs.Below.{IsRightBelow};

use crate::node::{Above, Node};
use crate::words::{Piece, piece};
use ancestors::{Ancestry, ancestor_at, jump_below, lowest_common};
use spots::{Link, Sums};
use std::alloc::Global;
use std::cmp::Ordering;
use std::marker::Model;
use tmm_model::{Bound, Name, NoMemory, Shape};
use undo_rows::Rows;

/// Nodes, each below its parent.
#[derive(Drop)]
pub(crate) struct Nodes {
    rows: Rows<Node, 1>,
}

impl Model for Nodes {
    ghost use Rattle.occ_tree.specs.Standing.{Grove, IsGrove};

    ghost Value = { Grove };

    ghost view = { λ n. record { rows = n.rows } };

    ghost invariant = { λ n. IsGrove n.rows };
}

impl Nodes {
    // No nodes. It takes no memory.
    pub(crate) fn make(alloc: Global) -> Nodes
        ensures row { (x : ℕ) → (present_rows result).row x ≡ None }
        ensures list { (f h : ℕ) → (present_rows result).list f h ≡ [] }
        ensures committed { committed_rows result ≡ present_rows result }
        ensures places { result.rows.places ≡ 0 }
    {
        Nodes {
            rows: Rows::make(alloc),
        }
    }

    // Adds a node, behind all others of its parent, and answers its number. Without memory nothing
    // has changed.
    pub(crate) fn add(&mut self, alloc: Global, node: Node) -> Result<u32, NoMemory>
        requires { WillBePlaced (nodes_in (present_rows self.old)) node }
        ensures ok { IfOk result (λ x. Adds self.old self.new x node) }
        ensures err { OnErr result (Keeps self.old self.new) }
        ensures placed { ArePlaced (nodes_in (present_rows self.old)) }
    {
        let head = self.head_below(node.parent());
        let x = self.rows.add(alloc, [Some(head)], node)?;
        Ok(x)
    }

    // Makes room for so many changes, of which taking a node out is two. The nodes stay, also where
    // there is no memory.
    pub(crate) fn reserve(&mut self, alloc: Global, changes: usize) -> Result<(), NoMemory>
        ensures ok { OnOk result (changes ≤ self.new.rows.spare) }
        ensures keeps { Keeps self.old self.new }
    {
        let _ = &self.rows;
        self.rows.reserve(alloc, changes)
    }

    // Takes a node out that has nothing below it. It takes no memory.
    pub(crate) fn take(&mut self, x: u32)
        requires live { IsSome (nodes_in (present_rows self.old) x) }
        requires leaf { (y : ℕ) → IsRightBelow (nodes_in (present_rows self.old)) x y → ⊥ }
        requires spare { 2 ≤ self.old.rows.spare }
        ensures taken { Takes self.old self.new x }
        ensures spare { self.old.rows.spare ≤ self.new.rows.spare + 2 }
    {
        let _ = &self.rows;
        self.rows.remove_reserved(x);
    }

    // Gives a node the date that follows from this one of its root. It takes no memory.
    pub(crate) fn date(&mut self, x: u32, root_date: i64)
        requires live { IsSome (nodes_in (present_rows self.old) x) }
        requires date { IsWithin 1000000000000 root_date }
        requires spare { 0 < self.old.rows.spare }
        ensures dated { Dates self.old self.new x root_date }
        ensures spare { self.old.rows.spare ≤ self.new.rows.spare + 1 }
    {
        let _ = &self.rows;
        let mut node = *self.rows.get(x);
        node.early = root_date + node.sums.low;
        self.rows.set_reserved(x, node);
    }

    // A declared event, token or span, as a node that is to come.
    pub(crate) fn root(
        &self,
        name: Name,
        begin: u16,
        end: Option<u16>,
        what: Name,
        class: Option<Name>,
        list: Option<u32>,
        shape: Shape,
        early: i64,
    ) -> Node
        requires new { IsNoRoot (forest_in (nodes_in (present_rows self.now))) name }
        requires word { IsTrue (is_name name) }
        requires class { HasClass class shape }
        requires date { IsWithin 1000000000000 early }
        ensures placed { WillBePlaced (nodes_in (present_rows self.now)) result }
        ensures root { IsRoot name begin end what class list shape early result }
    {
        let _ = &self.rows;
        Node {
            name,
            lo: 0,
            hi: Bound::Finite(0),
            above: None,
            depth: 0,
            sums: Sums::of_none(),
            begin,
            end,
            what,
            class,
            list,
            shape,
            early,
        }
    }

    // What a rule leads to from an event, as a node that is to come.
    pub(crate) fn effect(
        &self,
        parent: u32,
        link: &Link,
        what: Name,
        class: Option<Name>,
        list: Option<u32>,
        shape: Shape,
    ) -> Node
        requires trigger { (m : Member) × (forest_in (nodes_in (present_rows self.now)) parent ≡ Some m) × IsTrigger (forest_in (nodes_in (present_rows self.now))) m link.now.rule }
        requires word { IsTrue (is_name link.now.rule) }
        requires light { IsLight link.now }
        requires class { HasClass class shape }
        ensures placed { WillBePlaced (nodes_in (present_rows self.now)) result }
        ensures effect { IsEffect (nodes_in (present_rows self.now)) parent link.now what class list shape result }
    {
        let event = self.get(parent);
        let above = Above {
            parent,
            root: event.root(parent),
            jump: jump_below(self, parent),
        };
        Node {
            name: link.rule,
            lo: link.lo,
            hi: link.hi,
            above: Some(above),
            depth: event.depth + 1,
            sums: event.sums.with(link),
            begin: event.begin,
            end: None,
            what,
            class,
            list,
            shape,
            early: event.early + link.lo,
        }
    }

    // The head of the list of those whose parent this is.
    fn head_below(&self, parent: Option<u32>) -> u32
        requires { IfSome parent (λ p. IsSome (nodes_in (present_rows self.now) p)) }
        ensures { result ≡ head_for parent }
    {
        // each number is below that of places
        let _ = self.rows.places();
        match parent {
            Some(x) => x + 1,
            None => 0,
        }
    }

    // The node of a number.
    pub(crate) fn get(&self, x: u32) -> &Node
        requires { IsSome (nodes_in (present_rows self.now) x) }
        ensures node { nodes_in (present_rows self.now) x ≡ Some result.now }
        ensures stands { IsStanding self.now.rows.places (present_rows self.now) }
    {
        let _ = &self.rows;
        self.rows.get(x)
    }

    // The order of two nodes: by their earliest dates, and then by the bytes of their words.
    pub(crate) fn cmp_order(&self, x: u32, y: u32) -> Ordering
        requires x_live { IsSome (nodes_in (present_rows self.now) x) }
        requires y_live { IsSome (nodes_in (present_rows self.now) y) }
        ensures { result ≡ node_cmp (nodes_in (present_rows self.now)) x y }
    {
        match self.get(x).early.cmp(&self.get(y).early) {
            Ordering::Equal => self.cmp_words(x, y),
            other => other,
        }
    }

    // The order of two numbers: those of nodes in the order of nodes, behind all others.
    pub(crate) fn rank(&self, x: u32, y: u32) -> Ordering
        ensures { result ≡ rank_in (nodes_in (present_rows self.now)) x y }
    {
        match (self.is_live(x), self.is_live(y)) {
            (true, true) => self.cmp_order(x, y),
            (first, second) => first.cmp(&second),
        }
    }

    // The order of the words of two nodes, by their bytes.
    pub(crate) fn cmp_words(&self, x: u32, y: u32) -> Ordering
        requires x_live { IsSome (nodes_in (present_rows self.now) x) }
        requires y_live { IsSome (nodes_in (present_rows self.now) y) }
        ensures { result ≡ slice_cmp nat_cmp (word_in (nodes_in (present_rows self.now)) x) (word_in (nodes_in (present_rows self.now)) y) }
    {
        let _ = &self.rows;
        let shared = self.shared(x, y);
        self.piece(x, shared)
            .as_slice()
            .cmp(self.piece(y, shared).as_slice())
    }

    // How many nodes the ways to two nodes both begin with.
    pub(crate) fn shared(&self, x: u32, y: u32) -> u32
        requires x_live { IsSome (nodes_in (present_rows self.now) x) }
        requires y_live { IsSome (nodes_in (present_rows self.now) y) }
        ensures { result ≡ length (shared_front (way_to (nodes_in (present_rows self.now)) x).numbers (way_to (nodes_in (present_rows self.now)) y).numbers) }
    {
        match lowest_common(self, x, y) {
            Some(last) => self.get(last).depth + 1,
            None => 0,
        }
    }

    // What stands in the word of a node behind so many names: the next name, and `/` where there
    // are more.
    pub(crate) fn piece(&self, x: u32, depth: u32) -> Piece
        requires { IsSome (nodes_in (present_rows self.now) x) }
        ensures { result.items ≡ piece_at (nodes_in (present_rows self.now)) x depth }
    {
        let last = self.get(x).depth;
        if depth > last {
            return Piece::new();
        }
        let at = self.get(ancestor_at(self, x, depth));
        piece(&at.name, depth < last)
    }

    // Whether there is a node of this number.
    pub(crate) fn is_live(&self, x: u32) -> bool
        ensures { IsTrue result ↔ IsSome (nodes_in (present_rows self.now) x) }
    {
        self.rows.is_live(x)
    }

    // How many places there are for nodes, each of which has a number below it.
    pub(crate) fn limit(&self) -> u32
        ensures places { result ≡ self.now.rows.places }
        ensures above { (x : ℕ) → IsSome (nodes_in (present_rows self.now) x) → x < result }
        ensures stands { IsStanding self.now.rows.places (present_rows self.now) }
    {
        self.rows.places()
    }

    // The first of those whose parent this is, or of the roots.
    pub(crate) fn first(&self, parent: Option<u32>) -> Option<u32>
        requires { IfSome parent (λ p. IsSome (nodes_in (present_rows self.now) p)) }
        ensures first { result ≡ first_or None (siblings_in (present_rows self.now) parent) }
        ensures listed { AreListed (present_rows self.now) }
        ensures stands { IsStanding self.now.rows.places (present_rows self.now) }
    {
        self.rows.first(0, self.head_below(parent))
    }

    // The one directly behind a node that has the same parent; none exactly for the last.
    pub(crate) fn next(&self, x: u32) -> Option<u32>
        requires { IsSome (nodes_in (present_rows self.now) x) }
        ensures { (parent : Option ℕ) → IsOn (siblings_in (present_rows self.now) parent) x → result ≡ row_after x (siblings_in (present_rows self.now) parent) }
    {
        // each node is on the list of its parent
        let _ = self.rows.first(0, 0);
        self.rows.next(0, x)
    }

    // The same nodes, and the same last commit, for changes of their own. It takes memory.
    pub(crate) fn copy(&self, alloc: Global) -> Result<Nodes, NoMemory>
        ensures { IfOk result (Keeps self.now) }
    {
        Ok(Nodes {
            rows: self.rows.copy(alloc)?,
        })
    }

    // Makes the nodes those of the last commit. It takes no memory.
    pub(crate) fn commit(&mut self)
        ensures present { present_rows self.new ≡ present_rows self.old }
        ensures committed { committed_rows self.new ≡ present_rows self.old }
        ensures places { self.new.rows.places ≡ self.old.rows.places }
    {
        self.rows.commit();
    }

    // Makes the nodes and the orders of their lists those of the last commit again. It takes no
    // memory.
    pub(crate) fn rollback(&mut self)
        ensures present { present_rows self.new ≡ committed_rows self.old }
        ensures committed { committed_rows self.new ≡ committed_rows self.old }
        ensures places { self.new.rows.places ≡ self.old.rows.places }
    {
        self.rows.rollback();
    }
}

impl Ancestry for Nodes {
    ghost use Rattle.occ_tree.specs.Nodes.{way_to};
    ghost use Rattle.occ_tree.specs.Standing.{nodes_in, present_rows};
    ghost use Rattle.occ_tree.specs.Ends.{way_ends};

    ghost way = { λ g x. (way_to (nodes_in (present_rows g)) x).numbers };

    fn depth(&self, x: u32) -> u32 {
        self.get(x).depth
    }

    fn parent(&self, x: u32) -> u32 {
        self.get(x).parent().unwrap_or(x)
    }

    fn jump(&self, x: u32) -> u32 {
        self.get(x).jump(x)
    }

    ghost ends = { λ g x some. way_ends (nodes_in (present_rows g)) x some };
}

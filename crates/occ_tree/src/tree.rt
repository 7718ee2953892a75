// The tree of occurrences.
ghost use Rattle.std.specs.Prelude.{◌≡◌, ◌≢◌, ℕ, List, [], ◌<◌, Option, pos, ◌+ℤ◌, ◌≤ℤ◌, None, Some, IsSome, IfOk, OnOk, OnErr, IfSome, IsTrue, ◌↔◌, ◌≤◌};
ghost use Rattle.row_links.specs.Lists.{first_or, row_after};
ghost use Rattle.tmm_model.specs.Bounds.{IsWithin};
ghost use Rattle.tmm_model.specs.Lines.{IsNumber, IsBound, IsRange};
ghost use Rattle.tmm_model.specs.Names.{is_name};
ghost use Rattle.tmm_model.specs.declared.bound.Bound.TheVariants.{Finite};
ghost use Rattle.spots.specs.Forest.{Member, IsLive, root_member, child_member, IsNoRoot, HasClass, HasEnd, IsTrigger, IsOnce};
ghost use Rattle.std.specs.List.{Contains};
ghost use Rattle.undo_lists.specs.Changes.{present as tokens_now, committed as tokens_then};
ghost use Rattle.occ_tree.specs.Standing.{present, committed, forest, early, below, IsChildOf, order, IsTree};
ghost use Rattle.spots.specs.OfLists.{HasList};
ghost use Rattle.spots.specs.Spots.{AreTokens};
ghost use Rattle.occ_tree.specs.Tokens.{IsInOrder, numbers_in};
ghost use Rattle.occ_tree.specs.Dated.{DatesAll, DatesFollow, HaveRoots};
ghost use Rattle.occ_tree.specs.Edits.{Enters, Withdraws, Stays};
ghost use Rattle.occ_tree.specs.Places.{places, PlacesGrow};

use crate::classes::Classes;
use crate::leaving::{leave_all, room_below};
use crate::nodes::Nodes;
use crate::re_dating::{date_late, room_for_late};
use crate::tokens::{Tokens, enter, number_for};
use dist_net::DistNet;
use spots::{Link, Spot};
use std::alloc::Global;
use std::marker::Model;
use tmm_model::{Bound, Name, NoMemory, Shape, TokenRow};
use undo_lists::Lists;

/// Occurrences under numbers, now and at the last commit.
#[derive(Drop)]
pub struct Tree {
    nodes: Nodes,
    classes: Classes,
    // those of a class stand under its number
    tokens: Tokens,
}

impl Model for Tree {
    ghost use Rattle.occ_tree.specs.Standing.{Kept, IsTree};

    ghost Value = { Kept };

    ghost view = { λ t. record { nodes = t.nodes; classes = t.classes; tokens = t.tokens } };

    ghost invariant = { λ t. IsTree t.nodes t.classes t.tokens };
}

impl Tree {
    /// The tree without nodes. It takes no memory.
    pub fn make(alloc: Global) -> Tree
        ensures none { (x : ℕ) → forest (present result) x ≡ None }
        ensures lists { (parent : Option ℕ) → below (present result) parent ≡ [] }
        ensures tokens { (class : List ℕ) → (present result).tokens class ≡ [] }
        ensures committed { committed result ≡ present result }
        ensures places { places result ≡ 0 }
    {
        Tree {
            nodes: Nodes::make(alloc),
            classes: Classes::make(alloc),
            tokens: Lists::make(alloc),
        }
    }

    /// Adds a declared event, token or span behind all other roots, and answers its number: `begin`
    /// and `end` are the numbers of its points, `what` is its kind or fact, `class` the class of a
    /// fact, and `early` its earliest date in whole time units. Without memory nothing has changed;
    /// it counts as want of memory that a number would be 2^32 - 1 or more.
    pub fn insert_root(
        &mut self,
        alloc: Global,
        name: Name,
        begin: u16,
        end: Option<u16>,
        what: Name,
        class: Option<Name>,
        shape: Shape,
        early: i64,
    ) -> Result<u32, NoMemory>
        requires new { IsNoRoot (forest (present self.old)) name }
        requires word { IsTrue (is_name name) }
        requires class { HasClass class shape }
        requires span { HasEnd end shape }
        requires date { IsWithin 1000000000000 early }
        ensures ok { IfOk result (λ x. Enters self.old self.new x (root_member name begin end what class shape) None early) }
        ensures grows { OnOk result (PlacesGrow self.old self.new) }
        ensures err { OnErr result (Stays self.old self.new) }
        ensures places { OnErr result (places self.new ≡ places self.old) }
    {
        let list = number_for(alloc, &mut self.classes, &mut self.tokens, &class)?;
        let node = self
            .nodes
            .root(name, begin, end, what, class, list, shape, early);
        let x = enter(alloc, &mut self.nodes, &mut self.tokens, node)?;
        Ok(x)
    }

    /// Adds what a rule leads to from an event behind all else that rules lead to from it, and
    /// answers its number. The delays are in whole time units; its earliest date is that of the
    /// event and the least delay. Without memory nothing has changed; it counts as want of memory
    /// that a number would be 2^32 - 1 or more.
    pub fn insert_child(
        &mut self,
        alloc: Global,
        parent: u32,
        rule: Name,
        lo: i64,
        hi: Bound,
        what: Name,
        class: Option<Name>,
        shape: Shape,
    ) -> Result<u32, NoMemory>
        requires trigger { (m : Member) × (forest (present self.old) parent ≡ Some m) × IsTrigger (forest (present self.old)) m rule }
        requires word { IsTrue (is_name rule) }
        requires delay { IsNumber lo × IsBound hi × (pos 1 ≤ℤ lo) × IsRange (Finite lo) hi }
        requires class { HasClass class shape }
        requires no_span { shape ≢ Shape.Span }
        ensures ok { IfOk result (λ x. (m : Member) → forest (present self.old) parent ≡ Some m → Enters self.old self.new x (child_member m (record { rule = rule; lo = lo; hi = hi }) what class shape) (Some parent) (early (present self.old) parent +ℤ lo)) }
        ensures grows { OnOk result (PlacesGrow self.old self.new) }
        ensures err { OnErr result (Stays self.old self.new) }
        ensures places { OnErr result (places self.new ≡ places self.old) }
    {
        let list = number_for(alloc, &mut self.classes, &mut self.tokens, &class)?;
        let link = Link { rule, lo, hi };
        let node = self.nodes.effect(parent, &link, what, class, list, shape);
        let x = enter(alloc, &mut self.nodes, &mut self.tokens, node)?;
        Ok(x)
    }

    /// Takes a node out with all below it. Their numbers are free again after the next commit.
    /// Without memory nothing has changed.
    pub fn withdraw(&mut self, alloc: Global, x: u32) -> Result<(), NoMemory>
        requires { IsLive (forest (present self.old)) x }
        ensures ok { OnOk result (Withdraws self.old self.new x) }
        ensures err { OnErr result (Stays self.old self.new) }
        ensures places { places self.new ≡ places self.old }
    {
        let numbers = room_below(alloc, &mut self.nodes, &mut self.tokens, x)?;
        leave_all(&mut self.nodes, &mut self.tokens, numbers);
        Ok(())
    }

    /// Gives each node its earliest date in a network. The tokens of each class are in the order of
    /// nodes again, and all else stays. Without memory nothing has changed.
    pub fn re_date_all(&mut self, alloc: Global, net: &DistNet) -> Result<(), NoMemory>
        requires { HasList net.now.present (forest (present self.old)) }
        ensures ok { OnOk result (DatesAll net.now.present self.old self.new) }
        ensures err { OnErr result (Stays self.old self.new) }
        ensures places { places self.new ≡ places self.old }
    {
        let late = room_for_late(alloc, net, &mut self.nodes, &mut self.tokens)?;
        date_late(net, &mut self.nodes, &mut self.tokens, late);
        Ok(())
    }

    /// Whether the number is of a node.
    pub fn is_live(&self, x: u32) -> bool
        ensures { IsTrue result ↔ IsLive (forest (present self.now)) x }
    {
        self.nodes.is_live(x)
    }

    /// How many places there are for nodes: every number of a node is below it.
    pub fn limit(&self) -> u32
        ensures places { result ≡ places self.now }
        ensures above { (x : ℕ) → IsLive (forest (present self.now)) x → x < result }
        ensures few { result ≤ 4294967295 }
    {
        self.nodes.limit()
    }

    /// The earliest date of a node, in whole time units: that of its root and the least delays on
    /// the way.
    pub fn early(&self, x: u32) -> i64
        requires { IsLive (forest (present self.now)) x }
        ensures date { result ≡ early (present self.now) x }
        ensures follow { DatesFollow (present self.now) }
    {
        self.nodes.get(x).early
    }

    /// The first root, none exactly where there is none. No rule leads to a root, and each node is
    /// one of the roots or below it.
    pub fn first_root(&self) -> Option<u32>
        ensures first { result ≡ first_or None (below (present self.now) None) }
        ensures roots { HaveRoots (present self.now) }
    {
        self.nodes.first(None)
    }

    /// The first of what rules lead to from a node by one more, none exactly where there is
    /// nothing.
    pub fn first_child(&self, x: u32) -> Option<u32>
        requires { IsLive (forest (present self.now)) x }
        ensures { result ≡ first_or None (below (present self.now) (Some x)) }
    {
        self.nodes.first(Some(x))
    }

    /// The node directly behind one below the same event, or the root behind a root; none exactly
    /// for the last.
    pub fn next_child(&self, x: u32) -> Option<u32>
        requires { IsLive (forest (present self.now)) x }
        ensures { (parent : Option ℕ) → IsChildOf (present self.now) parent x → result ≡ row_after x (below (present self.now) parent) }
    {
        self.nodes.next(x)
    }

    /// The tokens of a class, in the order of their earliest dates, and of the bytes of their words
    /// where these are one.
    pub fn tokens(&self, class: &Name) -> &[TokenRow<Spot>]
        ensures list { result.now ≡ (present self.now).tokens class.now }
        ensures rows { AreTokens (forest (present self.now)) class.now result.now }
        ensures in_order { IsInOrder (order (present self.now)) (numbers_in result.now) }
        ensures once { IsOnce (forest (present self.now)) }
    {
        // each node stands where it says
        let _ = self.nodes.limit();
        match self.classes.find(class) {
            Some(number) => self.tokens.list(number),
            None => &[],
        }
    }

    /// Tells the proof that the tokens of each class are those of its nodes, and stand in the order
    /// of the tree. It does nothing.
    pub fn have_tokens(&self)
        ensures rows { (class : List ℕ) → AreTokens (forest (present self.now)) class ((present self.now).tokens class) }
        ensures in_order { (class : List ℕ) → IsInOrder (order (present self.now)) (numbers_in ((present self.now).tokens class)) }
    {
        // so the proof sees the fields, and what holds of them
        let _ = self.nodes.limit();
    }

    /// The same tree, and the same last commit, for changes of its own. It takes memory.
    pub fn copy(&self, alloc: Global) -> Result<Tree, NoMemory>
        ensures stays { IfOk result (Stays self.now) }
        ensures places { IfOk result (λ copy. places copy ≡ places self.now) }
    {
        Ok(Tree {
            nodes: self.nodes.copy(alloc)?,
            classes: self.classes.copy()?,
            tokens: self.tokens.copy(alloc)?,
        })
    }

    /// Makes the tree that of the last commit. It takes no memory.
    pub fn commit(&mut self)
        ensures present { present self.new ≡ present self.old }
        ensures committed { committed self.new ≡ present self.old }
        ensures places { places self.new ≡ places self.old }
    {
        self.nodes.commit();
        self.tokens.commit();
    }

    /// Makes the tree, with the orders of what is below each node and of the tokens of each class,
    /// that of the last commit again. It takes no memory.
    pub fn rollback(&mut self)
        ensures present { present self.new ≡ committed self.old }
        ensures committed { committed self.new ≡ committed self.old }
        ensures places { places self.new ≡ places self.old }
    {
        self.nodes.rollback();
        self.tokens.rollback();
    }

    // The nodes.
    pub(crate) fn nodes(&self) -> &Nodes
        ensures { result.now ≡ self.now.nodes }
    {
        &self.nodes
    }
    // The classes under their numbers.
    pub(crate) fn classes(&self) -> &Classes
        ensures classes { result.now ≡ self.now.classes }
        ensures stands { IsTree self.now.nodes self.now.classes self.now.tokens }
    {
        &self.classes
    }

    // The numbers of the classes of which a token entered or left since the last commit. It takes
    // memory.
    pub(crate) fn changed_lists(&self, alloc: Global) -> Result<Vec<u32>, NoMemory>
        ensures { IfOk result (λ numbers. (k : ℕ) → (Contains numbers.items k → ⊥) → tokens_now self.now.tokens k ≡ tokens_then self.now.tokens k) }
    {
        self.tokens.changed(alloc)
    }
}

// What an edit may have touched since the last commit.
ghost use Rattle.std.specs.Prelude.{◌≡◌, ◌<◌, ℕ, List, [], ◌∷◌, Some, IsSome, IfOk, length};
ghost use Rattle.std.specs.List.{All, Contains, IsDistinct};
ghost use Rattle.tmm_model.specs.declared.point.PointName.TheVariants.{Begin};
ghost use Rattle.tmm_model.specs.Moments.{At};
ghost use Rattle.tmm_model.specs.Points.{same_name};
ghost use Rattle.spots.specs.Forest.{Member, member, IsLive, IsFound};
ghost use Rattle.spots.specs.OfLists.{HasList};
ghost use Rattle.spots.specs.Spots.{AreTokens};
ghost use Rattle.occ_tree.specs.AtPoints.{owner_of, IsRootAt, HaveNodesAt};
ghost use Rattle.occ_tree.specs.Dated.{HaveRoots};
ghost use Rattle.occ_tree.specs.Marks.{IsMarked, KeepsMarks, AreMarked, AreListsMarked};
ghost use Rattle.occ_tree.specs.Standing.{nodes_in, present_rows, present, committed, forest};
ghost use Rattle.occ_tree.specs.Tokens.{HasList as HasListOf};
ghost use Rattle.occ_tree.specs.Touched.{IsAtMoved, IsUntouched};

use crate::nodes::Nodes;
use crate::tree::Tree;
use dist_net::DistNet;
use std::alloc::Global;
use tmm_model::{Name, NoMemory, Occ, PointName, Seq};

/// What an edit may have touched since the last commit.
#[derive(Drop)]
pub struct Touched {
    /// The nodes that begin or end at a point that moved; all nodes, where `start` moved.
    pub nodes: Vec<u32>,
    /// The classes of which a token entered, left, or is one of those nodes, each once.
    pub classes: Vec<Name>,
}

impl Tree {
    /// What an edit may have touched since the last commit, where it moved points of the network.
    /// It costs what was entered, withdrawn and moved. Without memory it answers that.
    pub fn touched(&self, alloc: Global, net: &DistNet) -> Result<Touched, NoMemory>
        requires list { HasList net.now.present (forest (present self.now)) }
        ensures nodes { IfOk result (λ found. (x : ℕ) (m : Member) → member (forest (present self.now)) x ≡ Some m → IsAtMoved net.now.moved m → Contains found.nodes.items x) }
        ensures live { IfOk result (λ found. All (IsLive (forest (present self.now))) found.nodes.items) }
        ensures classes { IfOk result (λ found. (class : List ℕ) → (Contains found.classes.items class → ⊥) → IsUntouched net.now self.now class) }
        ensures once { IfOk result (λ found. IsDistinct same_name found.classes.items) }
        ensures before { (class : List ℕ) → AreTokens (forest (committed self.now)) class ((committed self.now).tokens class) }
    {
        // the tokens of each class are those of its nodes, at the last commit too
        let _ = self.classes();
        let nodes = self.moved_nodes(alloc, net)?;
        let classes = self.touched_classes(alloc, nodes.as_slice())?;
        Ok(Touched { nodes, classes })
    }

    // The nodes that begin or end at a point that moved; all nodes, where `start` moved.
    fn moved_nodes(&self, alloc: Global, net: &DistNet) -> Result<Vec<u32>, NoMemory>
        requires list { HasList net.now.present (forest (present self.now)) }
        ensures nodes { IfOk result (λ nodes. (x : ℕ) (m : Member) → member (forest (present self.now)) x ≡ Some m → IsAtMoved net.now.moved m → Contains nodes.items x) }
        ensures live { IfOk result (λ nodes. All (IsLive (forest (present self.now))) nodes.items) }
    {
        let moved = net.moved();
        if moved.contains(&0) {
            return self.numbers(alloc);
        }
        let mut nodes = Vec::new(alloc);
        for p in moved {
            let at = self.nodes_at(alloc, net, *p)?;
            nodes.extend_from_slice(at.as_slice())?;
        }
        Ok(nodes)
    }

    // The nodes that begin or end at a point, and others of the same root.
    fn nodes_at(&self, alloc: Global, net: &DistNet, p: u16) -> Result<Vec<u32>, NoMemory>
        requires list { HasList net.now.present (forest (present self.now)) }
        ensures { IfOk result (λ nodes. HaveNodesAt (forest (present self.now)) (p ∷ []) nodes.items) }
    {
        match self.root_at(alloc, net, p) {
            Some(root) => self.numbers_below(alloc, root),
            None => Ok(Vec::new(alloc)),
        }
    }

    // The root that begins or ends at a point, if there is one.
    fn root_at(&self, alloc: Global, net: &DistNet, p: u16) -> Option<u32>
        requires list { HasList net.now.present (forest (present self.now)) }
        ensures { IsRootAt (forest (present self.now)) p result }
    {
        let point = net.name_of(p)?;
        let name = owner(point)?;
        self.root_named(alloc, name)
    }

    // The root of this name, none exactly where there is none.
    fn root_named(&self, alloc: Global, name: Name) -> Option<u32>
        ensures found { IsFound (forest (present self.now)) (At (Begin name)) result }
        ensures roots { HaveRoots (present self.now) }
    {
        // each node is one of the roots or below it
        let _ = self.first_root();
        let root = Occ {
            root: name,
            rules: Seq::make(alloc),
        };
        self.find(&root)
    }

    // The classes of which a token entered or left since the last commit, and those of these nodes,
    // each once.
    fn touched_classes(&self, alloc: Global, nodes: &[u32]) -> Result<Vec<Name>, NoMemory>
        requires { All (IsLive (forest (present self.now))) nodes.now }
        ensures others { IfOk result (λ classes. (class : List ℕ) → (Contains classes.items class → ⊥) → (present self.now).tokens class ≡ (committed self.now).tokens class) }
        ensures nodes { IfOk result (λ classes. (class : List ℕ) (x : ℕ) (m : Member) → Contains nodes.now x → member (forest (present self.now)) x ≡ Some m → m.class ≡ Some class → Contains classes.items class) }
        ensures once { IfOk result (λ classes. IsDistinct same_name classes.items) }
    {
        let classes = self.classes();
        let mut marks = Vec::from_elem(alloc, false, classes.len())?;
        let changed = self.changed_lists(alloc)?;
        mark_all(&mut marks, changed.as_slice());
        mark_lists(&mut marks, self.nodes(), nodes);
        classes.marked(alloc, marks.as_slice())
    }
}

// The name of the premise whose point it is, none for `start`.
fn owner(point: PointName) -> Option<Name>
    ensures { result ≡ owner_of point }
{
    match point {
        PointName::Start => None,
        PointName::Begin(name) => Some(name),
        PointName::End(name) => Some(name),
    }
}

// Marks those of the numbers for which there is a mark.
fn mark_all(marks: &mut Vec<bool>, numbers: &[u32])
    ensures keeps { KeepsMarks marks.old.items marks.new.items }
    ensures marked { AreMarked marks.new.items numbers.now }
{
    for number in numbers {
        mark(marks, *number);
    }
}

// Marks those of the classes of these nodes for which there is a mark.
fn mark_lists(marks: &mut Vec<bool>, nodes: &Nodes, numbers: &[u32])
    requires { All (λ x. IsSome (nodes_in (present_rows nodes.now) x)) numbers.now }
    ensures keeps { KeepsMarks marks.old.items marks.new.items }
    ensures marked { AreListsMarked (nodes_in (present_rows nodes.now)) marks.new.items numbers.now }
{
    for x in numbers {
        mark_list(marks, nodes, *x);
    }
}

// Marks the class of a node, if it is a token and there is a mark for it.
fn mark_list(marks: &mut Vec<bool>, nodes: &Nodes, x: u32)
    requires { IsSome (nodes_in (present_rows nodes.now) x) }
    ensures keeps { KeepsMarks marks.old.items marks.new.items }
    ensures marked { (k : ℕ) → HasListOf (nodes_in (present_rows nodes.now)) x k → k < length marks.new.items → IsMarked marks.new.items k }
{
    if let Some(list) = nodes.get(x).list {
        mark(marks, list);
    }
}

// Marks a number, if there is a mark for it.
fn mark(marks: &mut Vec<bool>, number: u32)
    ensures keeps { KeepsMarks marks.old.items marks.new.items }
    ensures marked { number < length marks.new.items → IsMarked marks.new.items number }
{
    if (number as usize) < marks.len() {
        marks[number as usize] = true;
    }
}

// What is told of a node.
ghost use Rattle.std.specs.Prelude.{◌≡◌, ◌+◌, ◌≤◌, ◌++◌, ◌∷◌, [], map, take, length, IsSome, IfSome, IfOk, OnOk, OnErr};
ghost use Rattle.ancestors.specs.Ways.{shared_front};
ghost use Rattle.tmm_model.specs.Moments.{moment_of, printed};
ghost use Rattle.spots.specs.Forest.{IsLive, moment_at};
ghost use Rattle.spots.specs.Rows.{IsRowOf};
ghost use Rattle.occ_tree.specs.Nodes.{name_at, way_to};
ghost use Rattle.occ_tree.specs.Standing.{nodes_in, present_rows, present, forest};
ghost use Rattle.occ_tree.specs.Words.{joined, word_in};

use crate::nodes::Nodes;
use crate::tree::Tree;
use ancestors::{Ancestry, ancestor_at};
use spots::NodeRow;
use std::alloc::Global;
use tmm_model::{Name, NoMemory, Occ, Seq};

impl Tree {
    /// What there is to tell of a node.
    pub fn row(&self, x: u32) -> NodeRow
        requires { IsLive (forest (present self.now)) x }
        ensures { IsRowOf (forest (present self.now)) x result }
    {
        let node = self.nodes().get(x);
        NodeRow {
            parent: node.parent(),
            name: node.name,
            root: node.root(x),
            rules: node.depth,
            low: node.sums.low,
            high: node.sums.high(),
            begin: node.begin,
            end: node.end,
            what: node.what,
            class: node.class,
            shape: node.shape,
        }
    }

    /// The occurrence of a node. Without memory it answers that.
    pub fn occ_of(&self, alloc: Global, x: u32) -> Result<Occ, NoMemory>
        requires { IsLive (forest (present self.now)) x }
        ensures { IfOk result (λ occ. moment_of occ ≡ moment_at (forest (present self.now)) x) }
    {
        let nodes = self.nodes();
        let root = nodes.get(nodes.get(x).root(x)).name;
        let rules = rules_to(alloc, nodes, x)?;
        Ok(Occ { root, rules })
    }

    /// The occurrence of a node, where that of another is given. What both have in common is copied
    /// from it, so that for neighbours no way is walked. Without memory it answers that.
    pub fn occ_beside(&self, alloc: Global, x: u32, y: u32, occ: &Occ) -> Result<Occ, NoMemory>
        requires x_live { IsLive (forest (present self.now)) x }
        requires y_live { IsLive (forest (present self.now)) y }
        requires occ { moment_of occ.now ≡ moment_at (forest (present self.now)) y }
        ensures { IfOk result (λ told. moment_of told ≡ moment_at (forest (present self.now)) x) }
    {
        let nodes = self.nodes();
        // each node stands where it says
        let _ = nodes.get(x);
        let _ = nodes.get(y);
        let Some(shared) = nearby(nodes, x, y) else {
            return self.occ_of(alloc, x);
        };
        let rules = rules_on(alloc, nodes, x, occ.rules.items(), shared)?;
        Ok(Occ {
            root: occ.root,
            rules,
        })
    }

    /// Appends the word of a node. Without memory nothing has changed.
    pub fn name_into(&self, alloc: Global, x: u32, out: &mut Seq<u8>) -> Result<(), NoMemory>
        requires { IsLive (forest (present self.now)) x }
        ensures appended { OnOk result (out.new.items ≡ out.old.items ++ printed (moment_at (forest (present self.now)) x)) }
        ensures kept { OnErr result (out.new.items ≡ out.old.items) }
    {
        let word = word_of(alloc, self.nodes(), x)?;
        out.extend(word.items())
    }
}

// How many rules are looked up one by one, where a way would have to be walked else.
const FEW: u32 = 8;

// How many rules lead to both nodes, where the first has many, and all but a few are shared.
fn nearby(nodes: &Nodes, x: u32, y: u32) -> Option<u32>
    requires x_live { IsSome (nodes_in (present_rows nodes.now) x) }
    requires y_live { IsSome (nodes_in (present_rows nodes.now) y) }
    ensures { IfSome result (λ k. k + 1 ≤ length (shared_front (way_to (nodes_in (present_rows nodes.now)) x).numbers (way_to (nodes_in (present_rows nodes.now)) y).numbers)) }
{
    let depth = nodes.get(x).depth;
    if depth <= FEW {
        return None;
    }
    let shared = nodes.shared(x, y);
    if shared == 0 || shared <= depth - FEW {
        return None;
    }
    Some(shared - 1)
}

// The names of the rules that lead to a node, where so many of the first are those given. The
// others are looked up one by one.
fn rules_on(
    alloc: Global,
    nodes: &Nodes,
    x: u32,
    names: &[Name],
    first: u32,
) -> Result<Seq<Name>, NoMemory>
    requires live { IsSome (nodes_in (present_rows nodes.now) x) }
    requires within { first ≤ length names.now }
    requires fits { first ≤ length (way_to (nodes_in (present_rows nodes.now)) x).links }
    requires first { take first names.now ≡ take first (map (λ l. l.rule) (way_to (nodes_in (present_rows nodes.now)) x).links) }
    ensures { IfOk result (λ rules. rules.items ≡ map (λ l. l.rule) (way_to (nodes_in (present_rows nodes.now)) x).links) }
{
    let depth = nodes.get(x).depth;
    let mut rules = Seq::make(alloc);
    rules.reserve(depth as usize)?;
    rules.extend(&names[..first as usize])?;
    for above in first..depth {
        let rule = nodes.get(ancestor_at(nodes, x, above + 1)).name;
        push_rule(&mut rules, rule)?;
    }
    Ok(rules)
}

fn push_rule(rules: &mut Seq<Name>, rule: Name) -> Result<(), NoMemory>
    ensures { OnOk result (rules.new.items ≡ rules.old.items ++ rule ∷ []) }
{
    match rules.push(rule) {
        Ok(()) => Ok(()),
        Err(_) => Err(NoMemory),
    }
}

// The names of the rules that lead to a node, the first one first.
fn rules_to(alloc: Global, nodes: &Nodes, x: u32) -> Result<Seq<Name>, NoMemory>
    requires { IsSome (nodes_in (present_rows nodes.now) x) }
    ensures { IfOk result (λ rules. rules.items ≡ map (λ l. l.rule) (way_to (nodes_in (present_rows nodes.now)) x).links) }
{
    // each node stands where it says
    if nodes.get(x).depth <= FEW {
        return rules_on(alloc, nodes, x, &[], 0);
    }
    let names = names_to(alloc, nodes, x)?;
    let mut rules = Seq::make(alloc);
    rules.extend(&names.as_slice()[1..])?;
    Ok(rules)
}

// The word of a node.
fn word_of(alloc: Global, nodes: &Nodes, x: u32) -> Result<Seq<u8>, NoMemory>
    requires { IsSome (nodes_in (present_rows nodes.now) x) }
    ensures { IfOk result (λ word. word.items ≡ word_in (nodes_in (present_rows nodes.now)) x) }
{
    // each node stands where it says
    let _ = nodes.get(x);
    let names = names_to(alloc, nodes, x)?;
    joined(alloc, names.as_slice())
}

// The names with `/` between them.
fn joined(alloc: Global, names: &[Name]) -> Result<Seq<u8>, NoMemory>
    ensures { IfOk result (λ word. word.items ≡ joined names.now) }
{
    let mut word = Seq::make(alloc);
    if let [first, rest @ ..] = names {
        word.extend(first.bytes())?;
        word.put_links(rest)?;
    }
    Ok(word)
}

// The names of the nodes on the way to a node, that of the root first.
fn names_to(alloc: Global, nodes: &Nodes, x: u32) -> Result<Vec<Name>, NoMemory>
    requires { IsSome (nodes_in (present_rows nodes.now) x) }
    ensures { IfOk result (λ names. names.items ≡ map (name_at (nodes_in (present_rows nodes.now))) (way_to (nodes_in (present_rows nodes.now)) x).numbers) }
{
    let depth = nodes.get(x).depth as usize;
    let mut names = Vec::with_capacity(alloc, depth + 1)?;
    let mut at = x;
    for _above in 0..depth {
        names.push_reserved(nodes.get(at).name);
        at = nodes.parent(at);
    }
    names.push_reserved(nodes.get(at).name);
    names.reverse();
    Ok(names)
}

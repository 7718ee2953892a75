// What an occurrence counts of the size of a map.
ghost use Rattle.std.specs.Prelude.{◌≡◌, ◌≤◌, [], ◌∷◌, length, Some, IfSome};
ghost use Rattle.std.specs.List.{filter_map};
ghost use Rattle.tmm_model.specs.Beliefs.{on_kind, rules_at, rules_on};
ghost use Rattle.dist_net.specs.Net.{Net};
ghost use Rattle.spots.specs.Forest.{IsLive, moment_at};
ghost use Rattle.spots.specs.OfLists.{IsForestOf};
ghost use Rattle.occ_tree.specs.Places.{forest};
ghost use Rattle.projection.specs.Kinds.{IsCountIn};
ghost use Rattle.projection.specs.Queues.{weight_at};

use occ_tree::Tree;
use premise_list::Standing;
use tmm_model::{Name, Premise, Shape};

/// How many standing rules are on the kind of which it was asked last.
#[derive(Clone, Copy)]
pub struct KindCount {
    /// The kind.
    pub kind: Name,
    /// How many rules are on it.
    pub count: u64,
}

/// What the occurrence at a node counts of the size of a map: itself, its rules, and the rules on
/// it.
pub fn weight_of(standing: &Standing, tree: &Tree, x: u32) -> u64
    requires seen { (net : Net) × IsForestOf standing.now.present net (forest tree.now) }
    requires live { IsLive (forest tree.now) x }
    ensures value { result ≡ weight_at standing.now.present (forest tree.now) x }
    ensures few { result ≤ 4294969296 }
{
    let mut last = None;
    weight_after(standing, tree, x, &mut last)
}

/// The same for one node after the other, where what was counted last is kept: of events of one
/// kind only the first takes a walk over the premises.
pub fn weight_after(standing: &Standing, tree: &Tree, x: u32, last: &mut Option<KindCount>) -> u64
    requires seen { (net : Net) × IsForestOf standing.now.present net (forest tree.now) }
    requires live { IsLive (forest tree.now) x }
    requires last { IfSome last.old (IsCountIn standing.now.present) }
    ensures value { result ≡ weight_at standing.now.present (forest tree.now) x }
    ensures few { result ≤ 4294969296 }
    ensures last { IfSome last.new (IsCountIn standing.now.present) }
{
    1 + u64::from(tree.row(x).rules) + count_at(standing, tree, x, last)
}

// How many standing rules are on the occurrence at a node.
fn count_at(standing: &Standing, tree: &Tree, x: u32, last: &mut Option<KindCount>) -> u64
    requires seen { (net : Net) × IsForestOf standing.now.present net (forest tree.now) }
    requires live { IsLive (forest tree.now) x }
    requires last { IfSome last.old (IsCountIn standing.now.present) }
    ensures value { result ≡ length (rules_at standing.now.present (moment_at (forest tree.now) x)) }
    ensures few { result ≤ 2000 }
    ensures last { IfSome last.new (IsCountIn standing.now.present) }
{
    let row = tree.row(x);
    match row.shape {
        Shape::Event => rules_on_kind(standing, row.what, last),
        _ => 0,
    }
}

// How many standing rules are on a kind. It is kept as what was counted last.
pub(crate) fn rules_on_kind(standing: &Standing, kind: Name, last: &mut Option<KindCount>) -> u64
    requires { IfSome last.old (IsCountIn standing.now.present) }
    ensures value { result ≡ length (rules_on standing.now.present kind) }
    ensures few { result ≤ 2000 }
    ensures kept { last.new ≡ Some (record { kind = kind; count = result }) }
    ensures last { IfSome last.new (IsCountIn standing.now.present) }
{
    if let Some(known) = *last {
        if known.kind == kind {
            return known.count;
        }
    }
    let count = count_on(standing, kind);
    *last = Some(KindCount { kind, count });
    count
}

// How many standing rules are on a kind.
fn count_on(standing: &Standing, kind: Name) -> u64
    ensures value { result ≡ length (rules_on standing.now.present kind) }
    ensures few { result ≤ 2000 }
{
    let mut count = 0;
    for place in 0..standing.len() {
        let Some(premise) = standing.at(place) else {
            unreachable!()
        };
        count += count_one(premise, kind);
    }
    count
}

// One for a rule on a kind, and nothing for any other premise.
fn count_one(premise: &Premise, kind: Name) -> u64
    ensures value { result ≡ length (filter_map (on_kind kind) (premise.now ∷ [])) }
    ensures few { result ≤ 1 }
{
    match premise {
        Premise::Rule { trigger, .. } if *trigger == kind => 1,
        _ => 0,
    }
}

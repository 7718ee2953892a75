// The declared events, tokens and spans.
ghost use Rattle.std.specs.Prelude.{◌≡◌, ℤ, None, MatchOption, IfOk, OnOk};
ghost use Rattle.tmm_model.specs.Moments.{negated};
ghost use Rattle.tmm_model.specs.Bounds.{IsWithin};
ghost use Rattle.tmm_model.specs.Standing.{name_of};
ghost use Rattle.list_theory.proofs.Elements.{In};
ghost use Rattle.dist_net.specs.Net.{IsInUse};
ghost use Rattle.spots.specs.Forest.{Member, IsNoRoot};
ghost use Rattle.spots.specs.OfLists.{HasList};
ghost use Rattle.spots.specs.Spots.{net_far};
ghost use Rattle.occ_tree.specs.Dated.{IsDatedBy};
ghost use Rattle.occ_tree.specs.Edits.{Enters};
ghost use Rattle.occ_tree.specs.Places.{forest};
ghost use Rattle.occ_tree.specs.Standing.{present, committed};
ghost use Rattle.net_theory.specs.Fits.{IsNetOf};
ghost use Rattle.spots.specs.Growing.{AddsRoot};

use dist_net::DistNet;
use list_net::number_of;
use occ_tree::Tree;
use premise_list::Standing;
use std::alloc::Global;
use tmm_model::{Bound, Name, NoMemory, PointName, Premise, Shape};

/// Adds what a standing premise declares to occur, and answers its number, none where it declares
/// nothing, where the tree stays. Without memory nothing is answered, and the last commit stays.
pub fn add_root(
    alloc: Global,
    standing: &Standing,
    net: &DistNet,
    tree: &mut Tree,
    premise: &Premise,
) -> Result<Option<u32>, NoMemory>
    requires network { IsNetOf standing.now.present net.now.present }
    requires stands { In premise.now standing.now.present.premises }
    requires new { IsNoRoot (forest tree.old) (name_of premise.now) }
    ensures adds { IfOk result (AddsRoot standing.now.present net.now.present.names premise.now (forest tree.old) (forest tree.new)) }
    ensures enters { IfOk result (λ o. MatchOption o (tree.new ≡ tree.old) (λ x. (m : Member) × (date : ℤ) × Enters tree.old tree.new x m None date)) }
    ensures last { committed tree.new ≡ committed tree.old }
    ensures dated { OnOk result (HasList net.now.present (forest tree.new) → IsDatedBy net.now.present (present tree.old) → IsDatedBy net.now.present (present tree.new)) }
{
    match premise {
        Premise::Event { name, kind } => {
            let begin = number_of(net, PointName::Begin(*name));
            let early = early_at(net, begin);
            let x = tree.insert_root(alloc, *name, begin, None, *kind, None, Shape::Event, early)?;
            Ok(Some(x))
        }
        Premise::Token { name, fact } => {
            let begin = number_of(net, PointName::Begin(*name));
            let class = standing.class_of(*fact);
            let early = early_at(net, begin);
            let x = tree.insert_root(
                alloc,
                *name,
                begin,
                None,
                *fact,
                class,
                Shape::Persistence,
                early,
            )?;
            Ok(Some(x))
        }
        Premise::Span { name, fact } => {
            let begin = number_of(net, PointName::Begin(*name));
            let end = number_of(net, PointName::End(*name));
            let class = standing.class_of(*fact);
            let early = early_at(net, begin);
            let x = tree.insert_root(
                alloc,
                *name,
                begin,
                Some(end),
                *fact,
                class,
                Shape::Span,
                early,
            )?;
            Ok(Some(x))
        }
        _ => Ok(None),
    }
}

// The earliest date of a point, in whole time units.
fn early_at(net: &DistNet, point: u16) -> i64
    requires point { IsInUse net.now.present.names point }
    requires start { IsInUse net.now.present.names 0 }
    ensures early { result ≡ negated (net_far net.now.present point 0) }
    ensures small { IsWithin 255000000000 result }
{
    match net.far(point, 0) {
        Bound::Finite(far) => -far,
        Bound::Free => 0,
    }
}

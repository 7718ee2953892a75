// Whether a fact holds.
ghost use Rattle.std.specs.Prelude.{◌≡◌, ℕ, pos, ◌++◌, ◌∷◌, [], None, List, map as mapped, IfOk, IfSome, OnOk, IsSome};
ghost use Rattle.std.specs.List.{All};
ghost use Rattle.std.specs.Option.{option_map};
ghost use Rattle.tmm_model.specs.Answers.{ask, finding_of, blame_of, fault_of};
ghost use Rattle.tmm_model.specs.Beliefs.{holder};
ghost use Rattle.tmm_model.specs.Bounds.{bound_at_most};
ghost use Rattle.tmm_model.specs.Maps.{built};
ghost use Rattle.tmm_model.specs.Moments.{Moment};
ghost use Rattle.tmm_model.specs.Sorts.{class_in};
ghost use Rattle.tmm_model.specs.Standing.{far_in};
ghost use Rattle.spots.specs.Forest.{IsLive, moment_at};
ghost use Rattle.spots.specs.OfLists.{IsForestOf, HasList, HasOccurrences};
ghost use Rattle.spots.specs.Spots.{IsSpot, AreTokens, spot_moment, spot_distance};
ghost use Rattle.occ_tree.specs.OfLists.{IsTreeIn, IsTreeOf};
ghost use Rattle.occ_tree.specs.Places.{forest};
ghost use Rattle.occ_tree.specs.Standing.{present};
ghost use Rattle.supports.specs.Faults.{fault_at};
ghost use Rattle.supports.specs.TimeMaps.{IsTimeMap};
ghost use Rattle.tt_query.specs.Firsts.{blame_at, failing_of, placed_nodes, HasNoSupporter, IsPlaced};

use crate::firsts::{BLAMES, Placed, first_tokens};
use dist_net::DistNet;
use occ_tree::Tree;
use premise_list::Standing;
use spots::Spot;
use std::alloc::Global;
use supports::{Guesses, NodeFault, TimeMap, blame};
use tmm_model::{Answer, Blame, Bound, Cause, Name, NoMemory, Seq, TokenRow};

/// Whether a fact holds throughout two spots: it does by its first supporter, and where none is
/// there, its first 8 tokens in the order of occurrences are blamed. Spots of which the first is
/// not surely at or before the second are answered `Unordered`. Without memory it answers that.
pub fn ask(
    alloc: Global,
    standing: &Standing,
    tree: &Tree,
    net: &DistNet,
    fact: Name,
    p: Spot,
    q: Spot,
) -> Result<Answer, NoMemory>
    requires seen { IsTreeOf standing.now.present net.now.present tree.now }
    requires holds { HasOccurrences (built standing.now.present).believed (forest tree.now) }
    requires fact { IsSome (class_in standing.now.present.premises fact) }
    requires p { IsSpot net.now.present.names (forest tree.now) p }
    requires q { IsSpot net.now.present.names (forest tree.now) q }
    ensures { IfOk result (λ answer. finding_of answer ≡ ask (built standing.now.present) fact (spot_moment net.now.present.names (forest tree.now) p) (spot_moment net.now.present.names (forest tree.now) q)) }
{
    if !is_by(tree, net, p, q) {
        return Ok(Answer::Unordered);
    }
    let map = TimeMap {
        standing,
        tree,
        net,
    };
    match supporter(alloc, &map, fact, p, q) {
        Some(x) => match tree.occ_of(alloc, x) {
            Ok(token) => Ok(Answer::Yes(token)),
            Err(_) => Err(NoMemory),
        },
        None => blamed(alloc, &map, fact, p, q),
    }
}

// The first supporter of a fact throughout two spots.
fn supporter(alloc: Global, map: &TimeMap<'_>, fact: Name, p: Spot, q: Spot) -> Option<u32>
    requires seen { IsTimeMap map.now }
    requires fact { IsSome (class_in map.now.standing.now.present.premises fact) }
    requires p { IsSpot map.now.net.now.present.names (forest map.now.tree.now) p }
    requires q { IsSpot map.now.net.now.present.names (forest map.now.tree.now) q }
    ensures live { IfSome result (IsLive (forest map.now.tree.now)) }
    ensures first { (b : List Moment) → HasOccurrences b (forest map.now.tree.now) → option_map (moment_at (forest map.now.tree.now)) result ≡ holder map.now.standing.now.present (far_in map.now.standing.now.present.premises) b fact (spot_moment map.now.net.now.present.names (forest map.now.tree.now) p) (spot_moment map.now.net.now.present.names (forest map.now.tree.now) q) }
{
    let mut guesses = Guesses::make(alloc);
    supports::supporter(map, fact, p, q, &mut guesses)
}

// Whether the first spot is surely at or before the second.
fn is_by(tree: &Tree, net: &DistNet, p: Spot, q: Spot) -> bool
    requires dates { IsTreeIn net.now.present tree.now }
    requires p { IsSpot net.now.present.names (forest tree.now) p }
    requires q { IsSpot net.now.present.names (forest tree.now) q }
    ensures { result ≡ bound_at_most (spot_distance net.now.present (forest tree.now) q p) (pos 0) }
{
    match tree.far(net, q, p) {
        Bound::Finite(far) => far <= 0,
        Bound::Free => false,
    }
}

// The answer where the fact has no supporter.
fn blamed(
    alloc: Global,
    map: &TimeMap<'_>,
    fact: Name,
    p: Spot,
    q: Spot,
) -> Result<Answer, NoMemory>
    requires seen { IsTimeMap map.now }
    requires holds { HasOccurrences (built map.now.standing.now.present).believed (forest map.now.tree.now) }
    requires fact { IsSome (class_in map.now.standing.now.present.premises fact) }
    requires p { IsSpot map.now.net.now.present.names (forest map.now.tree.now) p }
    requires q { IsSpot map.now.net.now.present.names (forest map.now.tree.now) q }
    requires none { holder map.now.standing.now.present (far_in map.now.standing.now.present.premises) (built map.now.standing.now.present).believed fact (spot_moment map.now.net.now.present.names (forest map.now.tree.now) p) (spot_moment map.now.net.now.present.names (forest map.now.tree.now) q) ≡ None }
    ensures { IfOk result (λ answer. finding_of answer ≡ failing_of (built map.now.standing.now.present) fact (spot_moment map.now.net.now.present.names (forest map.now.tree.now) p) (spot_moment map.now.net.now.present.names (forest map.now.tree.now) q)) }
{
    let class = match map.standing.class_of(fact) {
        Some(class) => class,
        None => unreachable!(),
    };
    let rows = map.tree.tokens(&class);
    let first = first_tokens(rows, fact);
    let blames = blames(alloc, map, rows, first.tokens.as_slice(), p, q)?;
    Ok(Answer::No {
        blames,
        more: first.count.saturating_sub(BLAMES) as u64,
    })
}

// Tokens of a fact that has no supporter, each with its fault.
fn blames(
    alloc: Global,
    map: &TimeMap<'_>,
    rows: &[TokenRow<Spot>],
    tokens: &[Placed],
    p: Spot,
    q: Spot,
) -> Result<Seq<Blame>, NoMemory>
    requires seen { IsTimeMap map.now }
    requires holds { HasOccurrences (built map.now.standing.now.present).believed (forest map.now.tree.now) }
    requires rows { (class : List ℕ) × (rows.now ≡ (present map.now.tree.now).tokens class) }
    requires tokens { (class : List ℕ) × AreTokens (forest map.now.tree.now) class rows.now }
    requires places { All (IsPlaced rows.now) tokens.now }
    requires p { IsSpot map.now.net.now.present.names (forest map.now.tree.now) p }
    requires q { IsSpot map.now.net.now.present.names (forest map.now.tree.now) q }
    requires none { All (λ token. HasNoSupporter map.now.standing.now.present (forest map.now.tree.now) (spot_moment map.now.net.now.present.names (forest map.now.tree.now) p) (spot_moment map.now.net.now.present.names (forest map.now.tree.now) q) token.node) tokens.now }
    ensures { IfOk result (λ blames. mapped blame_of blames.items ≡ mapped (blame_at (built map.now.standing.now.present) (forest map.now.tree.now) (spot_moment map.now.net.now.present.names (forest map.now.tree.now) p) (spot_moment map.now.net.now.present.names (forest map.now.tree.now) q)) (placed_nodes tokens.now)) }
{
    let mut blames = Seq::make(alloc);
    for token in tokens {
        push(&mut blames, blame_token(alloc, map, rows, *token, p, q)?)?;
    }
    Ok(blames)
}

fn push(blames: &mut Seq<Blame>, blame: Blame) -> Result<(), NoMemory>
    ensures { OnOk result (blames.new.items ≡ blames.old.items ++ blame ∷ []) }
{
    match blames.push(blame) {
        Ok(()) => Ok(()),
        Err(_) => Err(NoMemory),
    }
}

// A token of a fact that has no supporter, with its fault.
fn blame_token(
    alloc: Global,
    map: &TimeMap<'_>,
    rows: &[TokenRow<Spot>],
    token: Placed,
    p: Spot,
    q: Spot,
) -> Result<Blame, NoMemory>
    requires seen { IsTimeMap map.now }
    requires holds { HasOccurrences (built map.now.standing.now.present).believed (forest map.now.tree.now) }
    requires rows { (class : List ℕ) × (rows.now ≡ (present map.now.tree.now).tokens class) }
    requires tokens { (class : List ℕ) × AreTokens (forest map.now.tree.now) class rows.now }
    requires place { IsPlaced rows.now token }
    requires p { IsSpot map.now.net.now.present.names (forest map.now.tree.now) p }
    requires q { IsSpot map.now.net.now.present.names (forest map.now.tree.now) q }
    requires none { HasNoSupporter map.now.standing.now.present (forest map.now.tree.now) (spot_moment map.now.net.now.present.names (forest map.now.tree.now) p) (spot_moment map.now.net.now.present.names (forest map.now.tree.now) q) token.node }
    ensures { IfOk result (λ blame. blame_of blame ≡ blame_at (built map.now.standing.now.present) (forest map.now.tree.now) (spot_moment map.now.net.now.present.names (forest map.now.tree.now) p) (spot_moment map.now.net.now.present.names (forest map.now.tree.now) q) token.node) }
{
    let cause = cause_of(alloc, map.tree, blame(map, rows, token.place, p, q))?;
    Ok(Blame {
        token: map.tree.occ_of(alloc, token.node)?,
        cause,
    })
}

// A fault, told of occurrences.
fn cause_of(alloc: Global, tree: &Tree, fault: NodeFault) -> Result<Cause, NoMemory>
    requires { (c : ℕ) → fault ≡ NodeFault.Clipped c → IsLive (forest tree.now) c }
    ensures { IfOk result (λ cause. fault_of cause ≡ fault_at (forest tree.now) fault) }
{
    Ok(match fault {
        NodeFault::Late => Cause::Late,
        NodeFault::Clipped(by) => Cause::Clipped(tree.occ_of(alloc, by)?),
        NodeFault::Ends => Cause::Ends,
    })
}

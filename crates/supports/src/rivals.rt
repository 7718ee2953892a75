// What supports and clips where premises set the fact against others: the tokens of its class and
// those of the classes of these facts are asked.
ghost use Rattle.std.specs.Prelude.{◌≡◌, ◌<◌, ℕ, List, [], ◌∷◌, ◌++◌, None, Some, IsSome, IfSome};
ghost use Rattle.std.specs.Option.{option_map};
ghost use Rattle.tmm_model.specs.Beliefs.{has_support, holder};
ghost use Rattle.tmm_model.specs.Moments.{Moment};
ghost use Rattle.tmm_model.specs.Sorts.{class_in};
ghost use Rattle.tmm_model.specs.Standing.{far_in};
ghost use Rattle.tmm_model.specs.Tokens.{of_one_class};
ghost use Rattle.list_theory.proofs.Elements.{In};
ghost use Rattle.premise_list.specs.Rivalries.{rivalries};
ghost use Rattle.spots.specs.Forest.{IsLive, moment_at};
ghost use Rattle.spots.specs.OfLists.{HasOccurrences};
ghost use Rattle.spots.specs.declared.spot.Spot.{Spot};
ghost use Rattle.spots.specs.Spots.{IsSpot, spot_moment};
ghost use Rattle.occ_tree.specs.Places.{forest};
ghost use Rattle.occ_tree.specs.Standing.{present};
ghost use Rattle.occ_tree.specs.OfLists.{IsTreeIn};
ghost use Rattle.occ_tree.specs.Tokens.{number_of};
ghost use Rattle.supports.specs.Behind.{token_at, IsClip};
ghost use Rattle.supports.specs.Clips.{rival_in, of_pairs, IsClipBy};
ghost use Rattle.supports.specs.TimeMaps.{IsTimeMap};

use crate::class_tokens::{ClassTokens, other_in};
use crate::{TimeMap, node_at};
use clipping::{Tokens, across, by_date};
use dist_net::DistNet;
use occ_tree::{Order, Tree};
use premise_list::Standing;
use spots::Spot;
use tmm_model::{Name, TokenRow};

// The node of the first token that supports the fact throughout `p` to `q`.
pub(crate) fn supporter(map: &TimeMap<'_>, fact: Name, p: Spot, q: Spot) -> Option<u32>
    requires seen { IsTimeMap map.now }
    requires fact { IsSome (class_in map.now.standing.now.present.premises fact) }
    requires p { IsSpot map.now.net.now.present.names (forest map.now.tree.now) p }
    requires q { IsSpot map.now.net.now.present.names (forest map.now.tree.now) q }
    ensures live { IfSome result (IsLive (forest map.now.tree.now)) }
    ensures first { (b : List Moment) → HasOccurrences b (forest map.now.tree.now) → option_map (moment_at (forest map.now.tree.now)) result ≡ holder map.now.standing.now.present (far_in map.now.standing.now.present.premises) b fact (spot_moment map.now.net.now.present.names (forest map.now.tree.now) p) (spot_moment map.now.net.now.present.names (forest map.now.tree.now) q) }
{
    let Some(class) = map.standing.class_of(fact) else {
        unreachable!()
    };
    let tokens = ClassTokens {
        standing: map.standing,
        tree: map.tree,
        fact,
        class,
        own: map.tree.tokens(&class),
    };
    map.tree.have_tokens();
    let order = Order {
        tree: map.tree,
        net: map.net,
    };
    let place = across::holder(&order, &tokens, map.standing, 0, &[], fact, p, q)?;
    Some(node_at(tokens.list(0), place))
}

// Whether a token supports the fact throughout `p` to `q`.
pub(crate) fn is_supported(map: &TimeMap<'_>, fact: Name, p: Spot, q: Spot) -> bool
    requires seen { IsTimeMap map.now }
    requires fact { IsSome (class_in map.now.standing.now.present.premises fact) }
    requires p { IsSpot map.now.net.now.present.names (forest map.now.tree.now) p }
    requires q { IsSpot map.now.net.now.present.names (forest map.now.tree.now) q }
    ensures { (b : List Moment) → HasOccurrences b (forest map.now.tree.now) → result ≡ has_support map.now.standing.now.present (far_in map.now.standing.now.present.premises) b fact (spot_moment map.now.net.now.present.names (forest map.now.tree.now) p) (spot_moment map.now.net.now.present.names (forest map.now.tree.now) q) }
{
    let Some(class) = map.standing.class_of(fact) else {
        unreachable!()
    };
    let tokens = ClassTokens {
        standing: map.standing,
        tree: map.tree,
        fact,
        class,
        own: map.tree.tokens(&class),
    };
    map.tree.have_tokens();
    let order = Order {
        tree: map.tree,
        net: map.net,
    };
    across::is_held(&order, &tokens, map.standing, 0, &[], fact, p, q)
}

// The node of the first token that clips `k`, given that of its own class that does. A span has
// none. Of each other fact that a premise sets against its own those tokens alone are asked that
// come before the clip that is known.
pub(crate) fn clip(
    standing: &Standing,
    tree: &Tree,
    net: &DistNet,
    k: &TokenRow<Spot>,
    own: Option<u32>,
) -> Option<u32>
    requires dates { IsTreeIn net.now.present tree.now }
    requires token { token_at (forest tree.now) (number_of k.now.spot) ≡ Some k.now }
    requires live { IfSome own (IsLive (forest tree.now)) }
    requires own { IsClipBy of_one_class standing.now.present net.now.present (forest tree.now) (number_of k.now.spot) own }
    ensures live { IfSome result (IsLive (forest tree.now)) }
    ensures clip { IsClip standing.now.present net.now.present (forest tree.now) (number_of k.now.spot) result }
{
    if k.end.is_some() {
        return own;
    }
    let mut clip = own;
    for i in 0..standing.rivalries() {
        clip = clip_with(standing, tree, net, k, standing.rivalry(i), clip);
    }
    clip
}

// The sooner of a clip and of the first token of the other fact of a pair that clips `k`, where the
// pair has the fact of `k`, which is no span.
fn clip_with(
    standing: &Standing,
    tree: &Tree,
    net: &DistNet,
    k: &TokenRow<Spot>,
    pair: (Name, Name),
    clip: Option<u32>,
) -> Option<u32>
    requires dates { IsTreeIn net.now.present tree.now }
    requires token { token_at (forest tree.now) (number_of k.now.spot) ≡ Some k.now }
    requires no_span { k.now.end ≡ None }
    requires pair { In pair (rivalries standing.now.present.premises) }
    requires live { IfSome clip (IsLive (forest tree.now)) }
    ensures live { IfSome result (IsLive (forest tree.now)) }
    ensures clip { (pairs : List (List ℕ × List ℕ)) → IsClipBy (of_pairs pairs) standing.now.present net.now.present (forest tree.now) (number_of k.now.spot) clip
        → IsClipBy (of_pairs (pairs ++ pair ∷ [])) standing.now.present net.now.present (forest tree.now) (number_of k.now.spot) result }
{
    let Some(fact) = rival_in(&k.fact, &pair) else {
        return clip;
    };
    let Some(class) = standing.class_of(fact) else {
        return clip;
    };
    let rows = tree.tokens(&class);
    let before = spot_of(clip);
    match by_date::first_of_fact(&Order { tree, net }, rows, &fact, k.spot, before) {
        Some(place) => Some(node_at(rows, place)),
        None => clip,
    }
}

// The spot of a node, where there is one.
fn spot_of(node: Option<u32>) -> Option<Spot>
    ensures { result ≡ option_map Spot.Node node }
{
    match node {
        Some(x) => Some(Spot::Node(x)),
        None => None,
    }
}

// The fact that a pair sets against this one.
fn rival_in(fact: &Name, pair: &(Name, Name)) -> Option<Name>
    ensures { result ≡ rival_in fact.now pair.now }
{
    let other = other_in(*fact, *pair)?;
    if other == *fact { None } else { Some(other) }
}

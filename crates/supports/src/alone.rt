// What supports a fact that no premise sets against another one: its tokens contradict those of
// their class alone.
ghost use Rattle.std.specs.Prelude.{◌≡◌, false, ◌<◌, ℕ, List, Some, IsSome, IfSome};
ghost use Rattle.std.specs.Option.{option_map};
ghost use Rattle.tmm_model.specs.Beliefs.{has_support, holder};
ghost use Rattle.tmm_model.specs.Moments.{Moment};
ghost use Rattle.tmm_model.specs.Sorts.{class_in};
ghost use Rattle.tmm_model.specs.Standing.{far_in};
ghost use Rattle.spots.specs.Forest.{IsLive, moment_at};
ghost use Rattle.spots.specs.OfLists.{HasOccurrences};
ghost use Rattle.spots.specs.declared.spot.Spot.{Spot};
ghost use Rattle.spots.specs.Spots.{IsSpot, spot_moment};
ghost use Rattle.occ_tree.specs.Places.{forest};
ghost use Rattle.occ_tree.specs.Standing.{present};
ghost use Rattle.premise_list.specs.Rivalries.{has_rivals};
ghost use Rattle.supports.specs.TimeMaps.{IsTimeMap};

use crate::guesses::{Guesses, first_holder, is_held};
use crate::{TimeMap, node_at};
use occ_tree::Order;
use spots::Spot;
use tmm_model::Name;

// The node of the first token that supports the fact throughout `p` to `q`.
pub(crate) fn supporter(
    map: &TimeMap<'_>,
    fact: Name,
    p: Spot,
    q: Spot,
    guesses: &mut Guesses,
) -> Option<u32>
    requires seen { IsTimeMap map.now }
    requires fact { IsSome (class_in map.now.standing.now.present.premises fact) }
    requires p { IsSpot map.now.net.now.present.names (forest map.now.tree.now) p }
    requires q { IsSpot map.now.net.now.present.names (forest map.now.tree.now) q }
    requires alone { has_rivals map.now.standing.now.present fact ≡ false }
    ensures live { IfSome result (IsLive (forest map.now.tree.now)) }
    ensures first { (b : List Moment) → HasOccurrences b (forest map.now.tree.now) → option_map (moment_at (forest map.now.tree.now)) result ≡ holder map.now.standing.now.present (far_in map.now.standing.now.present.premises) b fact (spot_moment map.now.net.now.present.names (forest map.now.tree.now) p) (spot_moment map.now.net.now.present.names (forest map.now.tree.now) q) }
{
    let Some(class) = map.standing.class_of(fact) else {
        unreachable!()
    };
    let rows = map.tree.tokens(&class);
    let order = Order {
        tree: map.tree,
        net: map.net,
    };
    let place = first_holder(&order, rows, fact, p, q, guesses)?;
    Some(node_at(rows, place))
}

// Whether a token supports the fact throughout `p` to `q`.
pub(crate) fn is_supported(
    map: &TimeMap<'_>,
    fact: Name,
    p: Spot,
    q: Spot,
    guesses: &mut Guesses,
) -> bool
    requires seen { IsTimeMap map.now }
    requires fact { IsSome (class_in map.now.standing.now.present.premises fact) }
    requires p { IsSpot map.now.net.now.present.names (forest map.now.tree.now) p }
    requires q { IsSpot map.now.net.now.present.names (forest map.now.tree.now) q }
    requires alone { has_rivals map.now.standing.now.present fact ≡ false }
    ensures { (b : List Moment) → HasOccurrences b (forest map.now.tree.now) → result ≡ has_support map.now.standing.now.present (far_in map.now.standing.now.present.premises) b fact (spot_moment map.now.net.now.present.names (forest map.now.tree.now) p) (spot_moment map.now.net.now.present.names (forest map.now.tree.now) q) }
{
    let Some(class) = map.standing.class_of(fact) else {
        unreachable!()
    };
    let rows = map.tree.tokens(&class);
    let order = Order {
        tree: map.tree,
        net: map.net,
    };
    is_held(&order, rows, fact, p, q, guesses)
}

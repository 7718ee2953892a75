//! Which believed token supports a fact, what clips tokens, and why a token is no supporter: what
//! `clipping` answers over the tokens of a tree, told of the occurrences of the standing list; what
//! a standing rule says, whose antecedents want supporters and whose exceptions want none; and what
//! a premise declares to occur, as a node of a tree. It stands on `occ_tree`, `clipping` and
//! `name_lists`.
//!
//! Two facts of one class contradict each other, and two that a premise sets against each other. A
//! fact of which no premise speaks asks the tokens of its class alone, any other one the tokens of
//! the classes of its rivals too (`clipping::across`). What clips a token is looked for in its own
//! class, and then among the tokens of each of its rivals that come before what was found.
//!
//! Each call answers the definition for the list, over the occurrences that the nodes are. `clips`,
//! `class_clips` and `add_root` alone take memory, and `supporter` and `is_supported` for guesses:
//! they look for what cuts a token near what cut the one before, and where that takes long they
//! find out first what may cut each (`Guesses`). So they take little more than the tokens of the
//! class, in whatever order those that cut stand. Without memory they answer the same.
//!
//! Where little is sure of the order of the tokens of a class, asking one token after the other takes
//! as long as there are pairs of tokens. `branches` takes little more than there are nodes on the ways
//! to the tokens, and a halving for each of these and for each root. What surely begins behind a token
//! does so as far as one node tells: the last that the ways to both share, or the root of what begins
//! behind. Under one node the tokens stand by their dates, so those that surely begin behind a token as
//! far as this node tells are all from one on (`Branches`).
#![tactic(auto)]

ghost use Rattle.std.specs.Prelude.{◌≡◌, ◌<◌, ℕ, List, map as mapped, length, None, Some, IsSome, IfSome, slice_index_or};
ghost use Rattle.std.specs.List.{All};
ghost use Rattle.std.specs.Option.{option_map};
ghost use Rattle.tmm_model.specs.declared.token.TokenRow.{TokenRow};
ghost use Rattle.tmm_model.specs.Answers.{fault};
ghost use Rattle.tmm_model.specs.Beliefs.{has_support, holder, token_of};
ghost use Rattle.tmm_model.specs.Moments.{Moment};
ghost use Rattle.tmm_model.specs.Sorts.{class_in};
ghost use Rattle.tmm_model.specs.Standing.{far_in};
ghost use Rattle.belief_theory.specs.Outcomes.{first_with};
ghost use Rattle.spots.specs.Forest.{IsLive, moment_at};
ghost use Rattle.spots.specs.OfLists.{HasOccurrences, map_of};
ghost use Rattle.spots.specs.declared.spot.Spot.{Spot};
ghost use Rattle.spots.specs.Spots.{IsSpot, spot_moment};
ghost use Rattle.supports.specs.Entries.{fact_at, node_at as number_at};
ghost use Rattle.occ_tree.specs.Places.{forest};
ghost use Rattle.occ_tree.specs.Standing.{present};
ghost use Rattle.supports.specs.Faults.{fault_at};
ghost use Rattle.supports.specs.Nodes.{IsOfNode};
ghost use Rattle.supports.specs.TimeMaps.{IsTimeMap};

mod all_clips;
mod alone;
mod branches;
mod class_tokens;
mod entries;
mod guesses;
mod near;
mod rivals;
mod root;
mod roots;
mod rule;
mod skips;
mod time_map;
mod way;

pub use all_clips::{class_clips, clips};
use class_tokens::ClassTokens;
use clipping::Tokens;
use clipping::across::{self, Fault, Place};
pub use guesses::Guesses;
use occ_tree::Order;
pub use root::add_root;
pub use rule::{RuleText, rule_text};
use spots::Spot;
pub use time_map::TimeMap;
use tmm_model::{Name, TokenRow};

// The node of a token.
fn node_of(row: &TokenRow<Spot>) -> u32
    requires { IsOfNode row.now }
    ensures { row.now.spot ≡ Spot.Node result }
{
    match row.spot {
        Spot::Node(x) => x,
        Spot::Declared(_) => unreachable!(),
    }
}

// The node of the token at a place.
fn node_at(rows: &[TokenRow<Spot>], place: usize) -> u32
    requires within { place < length rows.now }
    requires nodes { All IsOfNode rows.now }
    ensures { (d : TokenRow Spot) → (slice_index_or rows.now place d).spot ≡ Spot.Node result }
{
    node_of(&rows[place])
}

/// The node of the first token that supports the fact throughout `p` to `q`, none exactly where no
/// token does.
pub fn supporter(
    map: &TimeMap<'_>,
    fact: Name,
    p: Spot,
    q: Spot,
    guesses: &mut Guesses,
) -> Option<u32>
    requires seen { IsTimeMap map.now }
    requires fact { IsSome (class_in map.now.standing.now.present.premises fact) }
    requires p { IsSpot map.now.net.now.present.names (forest map.now.tree.now) p }
    requires q { IsSpot map.now.net.now.present.names (forest map.now.tree.now) q }
    ensures live { IfSome result (IsLive (forest map.now.tree.now)) }
    ensures first { (b : List Moment) → HasOccurrences b (forest map.now.tree.now) → option_map (moment_at (forest map.now.tree.now)) result ≡ holder map.now.standing.now.present (far_in map.now.standing.now.present.premises) b fact (spot_moment map.now.net.now.present.names (forest map.now.tree.now) p) (spot_moment map.now.net.now.present.names (forest map.now.tree.now) q) }
{
    if map.standing.has_rivals(fact) {
        rivals::supporter(map, fact, p, q)
    } else {
        alone::supporter(map, fact, p, q, guesses)
    }
}

/// Whether a token supports the fact throughout `p` to `q`. That is found sooner than which is the
/// first.
pub fn is_supported(map: &TimeMap<'_>, fact: Name, p: Spot, q: Spot, guesses: &mut Guesses) -> bool
    requires seen { IsTimeMap map.now }
    requires fact { IsSome (class_in map.now.standing.now.present.premises fact) }
    requires p { IsSpot map.now.net.now.present.names (forest map.now.tree.now) p }
    requires q { IsSpot map.now.net.now.present.names (forest map.now.tree.now) q }
    ensures { (b : List Moment) → HasOccurrences b (forest map.now.tree.now) → result ≡ has_support map.now.standing.now.present (far_in map.now.standing.now.present.premises) b fact (spot_moment map.now.net.now.present.names (forest map.now.tree.now) p) (spot_moment map.now.net.now.present.names (forest map.now.tree.now) q) }
{
    if map.standing.has_rivals(fact) {
        rivals::is_supported(map, fact, p, q)
    } else {
        alone::is_supported(map, fact, p, q, guesses)
    }
}

/// The place of the first of these facts that a token supports at a point, none exactly where no
/// token supports any.
pub fn first_supported(
    map: &TimeMap<'_>,
    facts: &[Name],
    at: Spot,
    guesses: &mut Guesses,
) -> Option<usize>
    requires seen { IsTimeMap map.now }
    requires facts { All (λ fact. IsSome (class_in map.now.standing.now.present.premises fact)) facts.now }
    requires at { IsSpot map.now.net.now.present.names (forest map.now.tree.now) at }
    ensures { (b : List Moment) → HasOccurrences b (forest map.now.tree.now) → result ≡ first_with (mapped (λ fact. holder map.now.standing.now.present (far_in map.now.standing.now.present.premises) b fact (spot_moment map.now.net.now.present.names (forest map.now.tree.now) at) (spot_moment map.now.net.now.present.names (forest map.now.tree.now) at)) facts.now) }
{
    for place in 0..facts.len() {
        if is_supported(map, facts[place], at, at, guesses) {
            return Some(place);
        }
    }
    None
}

/// Why a token does not support its fact.
#[derive(Clone, Copy, PartialEq, Eq, Debug)]
pub enum NodeFault {
    /// It does not surely begin at or before the first point.
    Late,
    /// The token of this node is the first that clips it surely at or before the last point.
    Clipped(u32),
    /// It is a span that does not surely end after the last point.
    Ends,
}

/// Why the token at a place among those of its class does not support its fact throughout `p` to
/// `q`, where no token does.
pub fn blame(map: &TimeMap<'_>, rows: &[TokenRow<Spot>], at: usize, p: Spot, q: Spot) -> NodeFault
    requires seen { IsTimeMap map.now }
    requires rows { (class : List ℕ) × (rows.now ≡ (present map.now.tree.now).tokens class) }
    requires within { at < length rows.now }
    requires p { IsSpot map.now.net.now.present.names (forest map.now.tree.now) p }
    requires q { IsSpot map.now.net.now.present.names (forest map.now.tree.now) q }
    requires no_supporter { (b : List Moment) × HasOccurrences b (forest map.now.tree.now)
        × (holder map.now.standing.now.present (far_in map.now.standing.now.present.premises) b (fact_at rows.now at) (spot_moment map.now.net.now.present.names (forest map.now.tree.now) p) (spot_moment map.now.net.now.present.names (forest map.now.tree.now) q) ≡ None) }
    ensures live { (c : ℕ) → result ≡ NodeFault.Clipped c → IsLive (forest map.now.tree.now) c }
    ensures fault { (b : List Moment) (k : TokenRow Moment) → HasOccurrences b (forest map.now.tree.now) → token_of map.now.standing.now.present (moment_at (forest map.now.tree.now) (number_at rows.now at)) ≡ Some k
        → fault (map_of map.now.standing.now.present b) (spot_moment map.now.net.now.present.names (forest map.now.tree.now) p) (spot_moment map.now.net.now.present.names (forest map.now.tree.now) q) k ≡ fault_at (forest map.now.tree.now) result }
{
    map.tree.have_tokens();
    let row = &rows[at];
    let tokens = ClassTokens {
        standing: map.standing,
        tree: map.tree,
        fact: row.fact,
        class: row.class,
        own: rows,
    };
    let order = Order {
        tree: map.tree,
        net: map.net,
    };
    match across::blame(&order, &tokens, map.standing, Place { list: 0, at }, p, q) {
        Fault::Late => NodeFault::Late,
        Fault::Clipped(c) => NodeFault::Clipped(node_at(tokens.list(c.list), c.at)),
        Fault::Ends => NodeFault::Ends,
    }
}

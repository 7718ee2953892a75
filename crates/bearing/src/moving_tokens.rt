// Tokens that enter or leave, and the events at which they bear on no decision.
ghost use Rattle.std.specs.Prelude.{◌≡◌, ◌↔◌, ℕ, true, None, Some, IfOk, IfSome, IsTrue, OnOk};
ghost use Rattle.std.specs.List.{All};
ghost use Rattle.tmm_model.specs.declared.token.TokenRow.{TokenRow};
ghost use Rattle.tmm_model.specs.Tokens.{is_before};
ghost use Rattle.row_links.specs.Lists.{IsOn};
ghost use Rattle.spots.specs.Forest.{Member, member, IsLive};
ghost use Rattle.spots.specs.Spots.{spot_distance, token_row};
ghost use Rattle.occ_tree.specs.OfLists.{IsTreeIn};
ghost use Rattle.occ_tree.specs.Places.{forest};
ghost use Rattle.revisions.specs.Walls.{begins_by};
ghost use Rattle.bearing.specs.Windows.{AreTwoFrom, HasBegunFrom, IsOfNode, IsOfOther, IsWall, IsWindow, IsWindowOf, are_two, is_spared, net_in, tree_in};

use crate::lists::push;
use clipping::by_date::place_of;
use dist_net::DistNet;
use occ_tree::{Order, Tree};
use spots::Spot;
use std::alloc::Global;
use tmm_model::{Bound, Name, NoMemory, Sure, TokenRow};

// For a token no more tokens than this are looked at behind it, and none where more nodes than this
// leave with it: marks are to cost less than the decisions that they save.
const FEW: usize = 32;

/// A token that enters or leaves, with tokens of its class behind it that stay.
///
/// It bears on a decision at an event only where it has surely begun and no two of the others have,
/// of two facts: one of the two clips it then, and what it would clip, one of the two clips as
/// well.
#[derive(Drop)]
pub struct Window<'a> {
    /// The occurrences and their distances.
    pub order: Order<'a>,
    /// The token.
    pub token: TokenRow<Spot>,
    /// Two of the others at most, of two facts, each surely after the token.
    pub walls: Vec<TokenRow<Spot>>,
    /// The date from which on both have surely begun at each event, where it is known: most events
    /// that the token spares come later.
    pub until: Option<i64>,
}

/// The window of the token of a class at a node, which enters or leaves with these nodes.
pub fn window_of<'a>(
    alloc: Global,
    tree: &'a Tree,
    net: &'a DistNet,
    class: Name,
    x: u32,
    moving: &[u32],
) -> Result<Window<'a>, NoMemory>
    requires tree { IsTreeIn net.now.present tree.now }
    requires token { (m : Member) × (member (forest tree.now) x ≡ Some m) × (m.class ≡ Some class) }
    ensures window { IfOk result (IsWindowOf moving.now x) }
    ensures tree { IfOk result (λ w. tree_in w ≡ tree.now) }
    ensures net { IfOk result (λ w. net_in w ≡ net.now.present) }
{
    let order = Order { tree, net };
    let token = token_at(tree, x, class);
    let walls = walls_behind(alloc, &order, &token, moving)?;
    let until = date_of_walls(&order, &walls);
    Ok(Window {
        order,
        token,
        walls,
        until,
    })
}

// The token of a class at a node.
fn token_at(tree: &Tree, x: u32, class: Name) -> TokenRow<Spot>
    requires { IsLive (forest tree.now) x }
    ensures { (m : Member) → member (forest tree.now) x ≡ Some m → m.class ≡ Some class → token_row x m ≡ Some result }
{
    let node = tree.row(x);
    TokenRow {
        spot: Spot::Node(x),
        end: node.end.map(Spot::Declared),
        fact: node.what,
        class,
    }
}

// The first token of the class of a token, of nodes other than these, that is surely after it, and
// the first of another fact, among the nearest behind it. A span has none: nothing clips it.
fn walls_behind(
    alloc: Global,
    order: &Order<'_>,
    token: &TokenRow<Spot>,
    moving: &[u32],
) -> Result<Vec<TokenRow<Spot>>, NoMemory>
    requires tree { IsTreeIn order.now.net.now.present order.now.tree.now }
    requires token { (x : ℕ) × (m : Member) × (member (forest order.now.tree.now) x ≡ Some m) × (token_row x m ≡ Some token.now) }
    ensures { IfOk result (λ walls. All (IsWall order.now.net.now.present (forest order.now.tree.now) moving.now token.now) walls.items) }
{
    let mut walls = Vec::new(alloc);
    if token.end.is_some() || moving.len() > FEW {
        return Ok(walls);
    }
    let rows = order.tree.tokens(&token.class);
    let Some(place) = place_of(order, rows, token.spot) else {
        return Ok(walls);
    };
    for i in place + 1..rows.len().min(place + FEW) {
        if walls.len() >= 2 {
            return Ok(walls);
        }
        add_wall(order, token, &rows[i], moving, &mut walls)?;
    }
    Ok(walls)
}

// Adds a token if it is a wall, of another fact than the one that there is, if there is one.
fn add_wall(
    order: &Order<'_>,
    token: &TokenRow<Spot>,
    other: &TokenRow<Spot>,
    moving: &[u32],
    walls: &mut Vec<TokenRow<Spot>>,
) -> Result<(), NoMemory>
    requires tree { IsTreeIn order.now.net.now.present order.now.tree.now }
    requires token { IsOfNode (forest order.now.tree.now) token.now }
    requires other { IsOfNode (forest order.now.tree.now) other.now }
    requires class { other.now.class ≡ token.now.class }
    requires endless { token.now.end ≡ None }
    ensures { OnOk result (All (IsWall order.now.net.now.present (forest order.now.tree.now) moving.now token.now) walls.old.items → All (IsWall order.now.net.now.present (forest order.now.tree.now) moving.now token.now) walls.new.items) }
{
    if is_fact_of_first(walls, other) {
        return Ok(());
    }
    if !is_wall(order, token, other, moving) {
        return Ok(());
    }
    push(walls, *other)?;
    Ok(())
}

// Whether a token is of the fact of the first of these.
fn is_fact_of_first(walls: &[TokenRow<Spot>], token: &TokenRow<Spot>) -> bool {
    match walls.first() {
        Some(wall) => wall.fact == token.fact,
        None => false,
    }
}

// Whether a token is surely after another, and its node is none of these.
fn is_wall(
    order: &Order<'_>,
    token: &TokenRow<Spot>,
    other: &TokenRow<Spot>,
    moving: &[u32],
) -> bool
    requires tree { IsTreeIn order.now.net.now.present order.now.tree.now }
    requires token { (x : ℕ) × (m : Member) × (member (forest order.now.tree.now) x ≡ Some m) × (token_row x m ≡ Some token.now) }
    requires other { (y : ℕ) × (n : Member) × (member (forest order.now.tree.now) y ≡ Some n) × (token_row y n ≡ Some other.now) }
    ensures { IsTrue result ↔ (IsOfOther (forest order.now.tree.now) moving.now other.now × (is_before (spot_distance order.now.net.now.present (forest order.now.tree.now)) token.now.spot other.now.spot ≡ true)) }
{
    let Spot::Node(y) = other.spot else {
        unreachable!()
    };
    !moving.contains(&y) && order.at_most(other.spot, token.spot, -1)
}

// The date from which on two walls have surely begun at each event, where there are two of two
// facts and it is known.
fn date_of_walls(order: &Order<'_>, walls: &[TokenRow<Spot>]) -> Option<i64>
    requires tree { IsTreeIn order.now.net.now.present order.now.tree.now }
    requires walls { All (IsOfNode (forest order.now.tree.now)) walls.now }
    ensures { IfSome result (AreTwoFrom order.now.net.now.present order.now.tree.now walls.now) }
{
    if walls.len() < 2 {
        return None;
    }
    let first = &walls[0];
    let second = &walls[1];
    if first.fact == second.fact {
        return None;
    }
    let Some(one) = latest(order, first) else {
        return None;
    };
    let Some(other) = latest(order, second) else {
        return None;
    };
    Some(one.max(other))
}

// The latest date of a token, none where nothing bounds it: from then on it has surely begun.
fn latest(order: &Order<'_>, token: &TokenRow<Spot>) -> Option<i64>
    requires tree { IsTreeIn order.now.net.now.present order.now.tree.now }
    requires token { IsOfNode (forest order.now.tree.now) token.now }
    ensures { IfSome result (HasBegunFrom order.now.net.now.present order.now.tree.now token.now) }
{
    // it tells the proof that `start` is a point
    order.net.invariants();
    match order.far(Spot::Declared(0), token.spot) {
        Bound::Finite(date) => Some(date),
        Bound::Free => None,
    }
}

impl Window<'_> {
    /// Whether the token bears on no decision at an event. Most that it spares are late.
    pub fn spares(&self, event: u32) -> bool
        requires window { IsWindow self.now }
        requires live { IsLive (forest (tree_in self.now)) event }
        ensures { result ≡ is_spared (spot_distance (net_in self.now) (forest (tree_in self.now))) self.now.token self.now.walls.items event }
    {
        self.is_past(event) || !self.has_begun(&self.token, event) || self.is_walled(event)
    }

    // Whether an event is so late that two walls have surely begun.
    fn is_past(&self, event: u32) -> bool
        requires window { IsWindow self.now }
        requires live { IsLive (forest (tree_in self.now)) event }
        ensures { result ≡ true → are_two (spot_distance (net_in self.now) (forest (tree_in self.now))) event self.now.walls.items ≡ true }
    {
        match self.until {
            Some(date) => date <= self.order.early(event),
            None => false,
        }
    }

    // Whether two of the tokens behind it have surely begun by an event, of two facts.
    fn is_walled(&self, event: u32) -> bool
        requires window { IsWindow self.now }
        requires live { IsLive (forest (tree_in self.now)) event }
        ensures { result ≡ are_two (spot_distance (net_in self.now) (forest (tree_in self.now))) event self.now.walls.items }
    {
        let mut first: Option<Name> = None;
        for wall in &self.walls {
            if self.has_begun(wall, event) {
                match first {
                    Some(fact) => {
                        if fact != wall.fact {
                            return true;
                        }
                    }
                    None => first = Some(wall.fact),
                }
            }
        }
        false
    }

    // Whether a token has surely begun by an event.
    fn has_begun(&self, token: &TokenRow<Spot>, event: u32) -> bool
        requires tree { IsTreeIn (net_in self.now) (tree_in self.now) }
        requires token { (x : ℕ) × (m : Member) × (member (forest (tree_in self.now)) x ≡ Some m) × (token_row x m ≡ Some token.now) }
        requires live { IsLive (forest (tree_in self.now)) event }
        ensures { result ≡ begins_by (spot_distance (net_in self.now) (forest (tree_in self.now))) (Spot.Node event) token.now }
    {
        self.order.at_most(Spot::Node(event), token.spot, 0)
    }
}

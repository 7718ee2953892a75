// Tokens that left, and the events at which they bore on no decision.
ghost use Rattle.std.specs.Prelude.{◌≡◌, ℕ, true, false, IfOk, OnOk};
ghost use Rattle.std.specs.List.{All};
ghost use Rattle.dist_net.specs.Net.{IsInUse};
ghost use Rattle.spots.specs.Forest.{Member, IsLive};
ghost use Rattle.spots.proofs.Rows.{IsRowOf};
ghost use Rattle.occ_tree.specs.Places.{forest};
ghost use Rattle.bearing.specs.Gone.{BeginIn, IsBehindGone, BoreNot};

use crate::lists::push;
use crate::loose_tokens::place_at;
use crate::places::{Place, is_not_within, is_surely_within, place_of};
use crate::walls::{FastToken, LIMIT, are_walls};
use dist_net::DistNet;
use occ_tree::Tree;
use spots::Spot;
use std::alloc::Global;
use tmm_model::{Name, NoMemory, TokenRow};

/// A token that left.
#[derive(Clone, Copy)]
pub struct Gone {
    /// Its class.
    pub class: Name,
    /// Where it began.
    pub place: Place,
    /// Whether it was a span.
    pub is_span: bool,
}

/// The first of the tokens of its class that stay and surely began after a token that left, by the
/// distances of the last commit, no more than `LIMIT`. None of a span: walls did not end it.
pub fn walls_of(
    alloc: Global,
    net: &DistNet,
    tree: &Tree,
    gone: &Gone,
) -> Result<Vec<FastToken>, NoMemory>
    requires nodes { BeginIn net.now.committed (forest tree.now) }
    requires gone { IsInUse net.now.committed.names gone.now.place.base }
    ensures { IfOk result (λ walls. All (IsBehindGone net.now.committed (forest tree.now) gone.now) walls.items) }
{
    let mut walls = Vec::new(alloc);
    if gone.is_span {
        return Ok(walls);
    }
    let rows = tree.tokens(&gone.class);
    for i in 0..rows.len() {
        if walls.len() >= LIMIT {
            return Ok(walls);
        }
        note_wall(net, tree, gone, &rows[i], &mut walls)?;
    }
    Ok(walls)
}

// Adds a token if it surely began after the one that left.
fn note_wall(
    net: &DistNet,
    tree: &Tree,
    gone: &Gone,
    row: &TokenRow<Spot>,
    walls: &mut Vec<FastToken>,
) -> Result<(), NoMemory>
    requires nodes { BeginIn net.now.committed (forest tree.now) }
    requires gone { IsInUse net.now.committed.names gone.now.place.base }
    requires no_span { gone.now.is_span ≡ false }
    requires row { (x : ℕ) × (m : Member) × IsRowOf (forest tree.now) row.now x m }
    requires class { row.now.class ≡ gone.now.class }
    ensures { OnOk result (All (IsBehindGone net.now.committed (forest tree.now) gone.now) walls.old.items → All (IsBehindGone net.now.committed (forest tree.now) gone.now) walls.new.items) }
{
    let place = place_at(tree, row.spot);
    if !is_surely_within(net, true, &place, &gone.place, true) {
        return Ok(());
    }
    let wall = FastToken {
        place,
        fact: row.fact,
    };
    push(walls, wall)?;
    Ok(())
}

/// Whether a token that left, with walls behind it, bore on no decision at the event of a node.
pub fn spares(net: &DistNet, tree: &Tree, gone: &Gone, walls: &[FastToken], x: u32) -> bool
    requires nodes { BeginIn net.now.committed (forest tree.now) }
    requires gone { IsInUse net.now.committed.names gone.now.place.base }
    requires walls { All (IsBehindGone net.now.committed (forest tree.now) gone.now) walls.now }
    requires live { IsLive (forest tree.now) x }
    ensures { result ≡ true → BoreNot net.now.committed (forest tree.now) gone.now x }
{
    let event = place_of(tree, x);
    is_not_within(net, true, &event, &gone.place, false) || are_walls(net, true, walls, &event)
}

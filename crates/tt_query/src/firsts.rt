// The first tokens of a fact in the order of occurrences.
ghost use Rattle.std.specs.Prelude.{◌≡◌, take, length};
ghost use Rattle.std.specs.List.{All};
ghost use Rattle.tt_query.specs.Firsts.{node_for, nodes_of, placed_nodes, IsPlaced};

use arrayvec::ArrayVec;
use spots::Spot;
use tmm_model::{MOST_BLAMES, Name, TokenRow};

/// The most tokens that are blamed.
pub(crate) const BLAMES: usize = MOST_BLAMES;

/// A token by its node and its place among those of its class.
#[derive(Clone, Copy, Default)]
pub(crate) struct Placed {
    pub node: u32,
    pub place: usize,
}

/// The first of a fact's tokens in the order of occurrences, and the number of all of them.
#[derive(Drop)]
pub(crate) struct Firsts {
    // The first ones, in order.
    pub tokens: ArrayVec<Placed, BLAMES>,
    // How many there are of the fact, also those beyond.
    pub count: usize,
}

// The first tokens of a fact among the rows of its class, which stand in order.
pub(crate) fn first_tokens(rows: &[TokenRow<Spot>], fact: Name) -> Firsts
    ensures nodes { placed_nodes result.tokens.items ≡ take BLAMES (nodes_of fact rows.now) }
    ensures places { All (IsPlaced rows.now) result.tokens.items }
    ensures count { result.count ≡ length (nodes_of fact rows.now) }
{
    let mut tokens = ArrayVec::new();
    let mut count = 0;
    for place in 0..rows.len() {
        if let Some(node) = node_for(&rows[place], fact) {
            if count < BLAMES {
                tokens.push(Placed { node, place });
            }
            count += 1;
        }
    }
    Firsts { tokens, count }
}

// The node of a token of the fact.
fn node_for(row: &TokenRow<Spot>, fact: Name) -> Option<u32>
    ensures { result ≡ node_for fact row.now }
{
    if row.fact != fact {
        return None;
    }
    match row.spot {
        Spot::Node(x) => Some(x),
        Spot::Declared(_) => None,
    }
}

// Tokens that enter and leave the order of their class.
ghost use Rattle.std.specs.Prelude.{◌≡◌, ◌≢◌, ℕ, ◌+◌, ◌<◌, ◌≤◌, List, [], Option, ◌∷◌, length, Some, IsSome, IsTrue, IfSome, IfOk, OnOk, OnErr};
ghost use Rattle.std.specs.Ordering.{is_lt};
ghost use Rattle.row_links.specs.Lists.{IsOn, AreOnce};
ghost use Rattle.undo_lists.specs.Changes.{present, committed, rooms};
ghost use Rattle.occ_tree.specs.Classes.{place_in, HaveMore, IsNumberOf};
ghost use Rattle.occ_tree.specs.Edits.{Adds, Keeps};
ghost use Rattle.occ_tree.specs.Nodes.{ArePlaced, WillBePlaced};
ghost use Rattle.occ_tree.specs.declared.node.Node.{Node as ANode};
ghost use Rattle.spots.specs.declared.spot.Spot.TheVariants.{Node as OfNode};
ghost use Rattle.occ_tree.specs.Standing.{nodes_in, present_rows};
ghost use Rattle.occ_tree.specs.Tokens.{row_in, number_of, numbers_in, IsPlaceFor, HasList, HasRoom, HaveRoomFor, AreRowsOf, AreTokensBut};
ghost use Rattle.occ_tree.specs.Words.{node_cmp};

use crate::classes::Classes;
use crate::node::Node;
use crate::nodes::Nodes;
use spots::Spot;
use std::alloc::Global;
use tmm_model::{Name, NoMemory, TokenRow};
use undo_lists::Lists;

/// The tokens of each class, under its small number.
pub(crate) type Tokens = Lists<TokenRow<Spot>>;

// Whether a node is before another.
fn is_before(nodes: &Nodes, spot: Spot, x: u32) -> bool
    requires spot { (y : ℕ) × (spot ≡ OfNode y) × IsSome (nodes_in (present_rows nodes.now) y) }
    requires live { IsSome (nodes_in (present_rows nodes.now) x) }
    ensures { result ≡ is_lt (node_cmp (nodes_in (present_rows nodes.now)) (number_of spot) x) }
{
    match spot {
        Spot::Node(y) => nodes.cmp_order(y, x).is_lt(),
        Spot::Declared(_) => false,
    }
}

// Whether a spot is this node.
fn is_node(spot: Spot, x: u32) -> bool
    ensures { IsTrue result → number_of spot ≡ x }
{
    match spot {
        Spot::Node(y) => y == x,
        Spot::Declared(_) => false,
    }
}

// The place of a node that is among the tokens. Nodes that go one after another, the last one first,
// are found without a search.
fn place_of(nodes: &Nodes, rows: &[TokenRow<Spot>], x: u32) -> usize
    requires live { IsSome (nodes_in (present_rows nodes.now) x) }
    requires rows { AreRowsOf (nodes_in (present_rows nodes.now)) rows.now }
    requires some { 0 < length rows.now }
    ensures { IsPlaceFor (node_cmp (nodes_in (present_rows nodes.now))) (numbers_in rows.now) x result }
{
    let last = rows.len() - 1;
    if is_node(rows[last].spot, x) {
        return last;
    }
    place_for(nodes, rows, x)
}

// The place of the first token that is not before a node. Nodes that come in their order find theirs
// without a search.
fn place_for(nodes: &Nodes, rows: &[TokenRow<Spot>], x: u32) -> usize
    requires live { IsSome (nodes_in (present_rows nodes.now) x) }
    requires rows { AreRowsOf (nodes_in (present_rows nodes.now)) rows.now }
    ensures { IsPlaceFor (node_cmp (nodes_in (present_rows nodes.now))) (numbers_in rows.now) x result }
{
    if are_before(nodes, rows, x) {
        return rows.len();
    }
    place_among(nodes, rows, x)
}

// Whether all tokens are before a node.
fn are_before(nodes: &Nodes, rows: &[TokenRow<Spot>], x: u32) -> bool
    requires live { IsSome (nodes_in (present_rows nodes.now) x) }
    requires rows { AreRowsOf (nodes_in (present_rows nodes.now)) rows.now }
    ensures { IsTrue result → IsPlaceFor (node_cmp (nodes_in (present_rows nodes.now))) (numbers_in rows.now) x (length rows.now) }
{
    if rows.is_empty() {
        return false;
    }
    let last = rows.len() - 1;
    is_before(nodes, rows[last].spot, x)
}

// The place of the first token that is not before a node, by halving.
fn place_among(nodes: &Nodes, rows: &[TokenRow<Spot>], x: u32) -> usize
    requires live { IsSome (nodes_in (present_rows nodes.now) x) }
    requires rows { AreRowsOf (nodes_in (present_rows nodes.now)) rows.now }
    ensures { IsPlaceFor (node_cmp (nodes_in (present_rows nodes.now))) (numbers_in rows.now) x result }
{
    let mut low = 0;
    let mut high = rows.len();
    while low < high {
        let middle = low + (high - low) / 2;
        if is_before(nodes, rows[middle].spot, x) {
            low = middle + 1;
        } else {
            high = middle;
        }
    }
    low
}

// Puts a node among the tokens of its class, if it is one. It takes no memory.
pub(crate) fn put_in(nodes: &Nodes, tokens: &mut Tokens, x: u32)
    requires live { IsSome (nodes_in (present_rows nodes.now) x) }
    requires rows { (k : ℕ) → AreRowsOf (nodes_in (present_rows nodes.now)) (present tokens.old k) }
    requires room { (k : ℕ) → HasList (nodes_in (present_rows nodes.now)) x k → HasRoom tokens.old k }
    ensures tokens { (out : List ℕ) → (IsOn out x → ⊥) → AreTokensBut (nodes_in (present_rows nodes.now)) (present tokens.old) (x ∷ out) → AreTokensBut (nodes_in (present_rows nodes.now)) (present tokens.new) out }
    ensures room { (out : List ℕ) → HaveRoomFor (nodes_in (present_rows nodes.now)) tokens.old (x ∷ out) → HaveRoomFor (nodes_in (present_rows nodes.now)) tokens.new out }
    ensures committed { committed tokens.new ≡ committed tokens.old }
    ensures spare { tokens.old.spare ≤ tokens.new.spare + 1 }
{
    let node = nodes.get(x);
    if let Some(list) = node.list {
        let place = place_for(nodes, tokens.list(list), x);
        tokens.insert(list, place, token_of(node, x));
    }
}

// Takes a node that is in out of the tokens of its class, if it is one. It takes no memory, and
// leaves room for it.
pub(crate) fn take_out(nodes: &Nodes, tokens: &mut Tokens, x: u32)
    requires live { IsSome (nodes_in (present_rows nodes.now) x) }
    requires tokens { (out : List ℕ) × (IsOn out x → ⊥) × AreTokensBut (nodes_in (present_rows nodes.now)) (present tokens.old) out }
    requires spare { 0 < tokens.old.spare }
    ensures tokens { (out : List ℕ) → (IsOn out x → ⊥) → AreTokensBut (nodes_in (present_rows nodes.now)) (present tokens.old) out → AreTokensBut (nodes_in (present_rows nodes.now)) (present tokens.new) (x ∷ out) }
    ensures room { (out : List ℕ) → HaveRoomFor (nodes_in (present_rows nodes.now)) tokens.old out → HaveRoomFor (nodes_in (present_rows nodes.now)) tokens.new (x ∷ out) }
    ensures committed { committed tokens.new ≡ committed tokens.old }
    ensures spare { tokens.old.spare ≤ tokens.new.spare + 1 }
{
    let node = nodes.get(x);
    if let Some(list) = node.list {
        let place = place_of(nodes, tokens.list(list), x);
        let _ = tokens.remove(list, place);
    }
}

// Puts nodes that are out among the tokens of their classes, the first one first. It takes no
// memory.
pub(crate) fn put_all_in(nodes: &Nodes, tokens: &mut Tokens, numbers: &[u32])
    requires live { (y : ℕ) → IsOn numbers.now y → IsSome (nodes_in (present_rows nodes.now) y) }
    requires once { AreOnce numbers.now }
    requires tokens { AreTokensBut (nodes_in (present_rows nodes.now)) (present tokens.old) numbers.now }
    requires room { HaveRoomFor (nodes_in (present_rows nodes.now)) tokens.old numbers.now }
    requires spare { length numbers.now ≤ tokens.old.spare }
    ensures tokens { AreTokensBut (nodes_in (present_rows nodes.now)) (present tokens.new) [] }
    ensures committed { committed tokens.new ≡ committed tokens.old }
{
    for x in numbers {
        put_in(nodes, tokens, *x);
    }
}

// Takes nodes out of the tokens of their classes, the last one first. It takes no memory, and
// leaves room for them.
pub(crate) fn take_all_out(nodes: &Nodes, tokens: &mut Tokens, numbers: &[u32])
    requires live { (y : ℕ) → IsOn numbers.now y → IsSome (nodes_in (present_rows nodes.now) y) }
    requires once { AreOnce numbers.now }
    requires tokens { AreTokensBut (nodes_in (present_rows nodes.now)) (present tokens.old) [] }
    requires spare { length numbers.now ≤ tokens.old.spare }
    ensures tokens { AreTokensBut (nodes_in (present_rows nodes.now)) (present tokens.new) numbers.now }
    ensures room { HaveRoomFor (nodes_in (present_rows nodes.now)) tokens.new numbers.now }
    ensures committed { committed tokens.new ≡ committed tokens.old }
    ensures spare { tokens.old.spare ≤ tokens.new.spare + length numbers.now }
{
    for i in (0..numbers.len()).rev() {
        take_out(nodes, tokens, numbers[i]);
    }
}

// Adds a node, and puts it among the tokens of its class, if it is one. Without memory nothing has
// changed.
pub(crate) fn enter(
    alloc: Global,
    nodes: &mut Nodes,
    tokens: &mut Tokens,
    node: Node,
) -> Result<u32, NoMemory>
    requires placed { WillBePlaced (nodes_in (present_rows nodes.old)) node }
    requires tokens { AreTokensBut (nodes_in (present_rows nodes.old)) (present tokens.old) [] }
    requires room { IfSome node.list (HasRoom tokens.old) }
    ensures ok { IfOk result (λ x. Adds nodes.old nodes.new x node) }
    ensures placed { ArePlaced (nodes_in (present_rows nodes.old)) }
    ensures tokens { OnOk result (AreTokensBut (nodes_in (present_rows nodes.new)) (present tokens.new) []) }
    ensures committed { committed tokens.new ≡ committed tokens.old }
    ensures err { OnErr result (Keeps nodes.old nodes.new × (present tokens.new ≡ present tokens.old)) }
{
    let x = nodes.add(alloc, node)?;
    put_in(nodes, tokens, x);
    Ok(x)
}

// The number of a class, if there is one, with room for a token more. Without memory all tokens
// stay, and there may be more classes.
pub(crate) fn number_for(
    alloc: Global,
    classes: &mut Classes,
    tokens: &mut Tokens,
    class: &Option<Name>,
) -> Result<Option<u32>, NoMemory>
    ensures number { IfOk result (λ list. IsNumberOf classes.new class.now list × IfSome list (HasRoom tokens.new)) }
    ensures more { HaveMore classes.old classes.new }
    ensures present { present tokens.new ≡ present tokens.old }
    ensures committed { committed tokens.new ≡ committed tokens.old }
{
    match class {
        Some(class) => Ok(Some(number_of(alloc, classes, tokens, *class)?)),
        None => Ok(None),
    }
}

// The number of a class, with room for a token more.
fn number_of(
    alloc: Global,
    classes: &mut Classes,
    tokens: &mut Tokens,
    class: Name,
) -> Result<u32, NoMemory>
    ensures number { IfOk result (λ k. (place_in classes.new class ≡ Some k) × HasRoom tokens.new k) }
    ensures more { HaveMore classes.old classes.new }
    ensures present { present tokens.new ≡ present tokens.old }
    ensures committed { committed tokens.new ≡ committed tokens.old }
{
    let number = classes.enter(class)?;
    tokens.reserve(alloc, number, 1, 1)?;
    Ok(number)
}

// The token that a node is, if it has a class.
fn token_of(node: &Node, x: u32) -> TokenRow<Spot>
    ensures { (nodes : ℕ → Option ANode) → nodes x ≡ Some node.now → result ≡ row_in nodes x }
{
    TokenRow {
        spot: Spot::Node(x),
        end: node.end.map(Spot::Declared),
        fact: node.what,
        class: node.class.unwrap_or(node.what),
    }
}

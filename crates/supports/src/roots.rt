// The roots of the tokens of a class.
ghost use Rattle.std.specs.Prelude.{◌≡◌, ◌⊎◌, ◌↔◌, ℕ, List, [], ◌∷◌, ◌++◌, IsTrue, IfOk, OnOk};
ghost use Rattle.std.specs.List.{Contains};
ghost use Rattle.spots.specs.Spots.{AreTokens};
ghost use Rattle.occ_tree.specs.Places.{forest};
ghost use Rattle.supports.specs.Entries.{HaveRoots};

use crate::entries::node_of;
use occ_tree::Tree;
use spots::Spot;
use std::alloc::Global;
use tmm_model::{NoMemory, TokenRow};

// The roots from which rules lead to the tokens.
pub(crate) fn roots_of(
    alloc: Global,
    tree: &Tree,
    rows: &[TokenRow<Spot>],
) -> Result<Vec<u32>, NoMemory>
    requires tokens { (class : List ℕ) × AreTokens (forest tree.now) class rows.now }
    ensures { IfOk result (λ roots. HaveRoots (forest tree.now) rows.now roots.items) }
{
    let mut roots = Vec::new(alloc);
    for place in 0..rows.len() {
        let root = tree.row(node_of(&rows[place])).root;
        list(&mut roots, root)?;
    }
    Ok(roots)
}

// Lists a number, where it is not listed.
fn list(numbers: &mut Vec<u32>, x: u32) -> Result<(), NoMemory>
    ensures { OnOk result (((numbers.new.items ≡ numbers.old.items) × Contains numbers.old.items x) ⊎ (numbers.new.items ≡ numbers.old.items ++ x ∷ [])) }
{
    if is_listed(numbers, x) {
        return Ok(());
    }
    numbers.reserve(1)?;
    numbers.push_reserved(x);
    Ok(())
}

// Whether a number is listed.
fn is_listed(numbers: &[u32], x: u32) -> bool
    ensures { IsTrue result ↔ Contains numbers.now x }
{
    numbers.contains(&x)
}

// What is kept of each node, by its number, and what an edit makes of it.
ghost use Rattle.std.specs.Prelude.{◌≡◌, ◌≤◌, ◌<◌, ℕ, length, OnOk};
ghost use Rattle.std.specs.List.{All};
ghost use Rattle.belief_list.specs.KeptRows.{row_under, rows_after};

use std::alloc::Global;
use tmm_model::NoMemory;

/// What is kept of a believed occurrence.
#[derive(Clone, Copy, PartialEq, Eq, Debug)]
pub struct KeptRow {
    /// Its earliest date, in whole time units.
    pub early: i64,
    /// The node of the first token that clips it, none where no token does.
    pub clip: Option<u32>,
    /// What it counts of the size of the map: itself, its rules, and the rules on it.
    pub weight: u64,
}

/// What an edit makes of a node.
#[derive(Clone, Copy, PartialEq, Eq, Debug)]
pub struct Difference {
    /// Its number.
    pub node: u32,
    /// What was kept of it, none where it was not there.
    pub was: Option<KeptRow>,
    /// What is to be kept of it, none where it is gone.
    pub now: Option<KeptRow>,
}

/// Makes a place for each number below a limit. No row is another then, also where there is no
/// memory.
pub fn reach(_alloc: Global, rows: &mut Vec<Option<KeptRow>>, limit: u32) -> Result<(), NoMemory>
    ensures same { (x : ℕ) → row_under rows.new.items x ≡ row_under rows.old.items x }
    ensures room { OnOk result (limit ≤ length rows.new.items) }
{
    while rows.len() < limit as usize {
        match rows.push(None) {
            Ok(()) => {}
            Err(_) => return Err(NoMemory),
        }
    }
    Ok(())
}

/// Takes over what an edit makes of nodes, each of which has a place. It takes no memory.
pub fn take_over(rows: &mut Vec<Option<KeptRow>>, differences: &[Difference])
    requires places { All (λ d. d.node < length rows.old.items) differences.now }
    ensures rows { (x : ℕ) → row_under rows.new.items x ≡ rows_after rows.old.items differences.now x }
{
    for place in (0..differences.len()).rev() {
        let d = differences[place];
        rows[d.node as usize] = d.now;
    }
}

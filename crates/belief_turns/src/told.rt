// What is told of the occurrences that enter and leave.
ghost use Rattle.std.specs.Prelude.{◌≡◌, ◌+◌, ◌≤◌, ℕ, [], ◌∷◌, ◌++◌, map, OnOk, IfErr};
ghost use Rattle.tmm_model.specs.Answers.{most_size};
ghost use Rattle.dist_net.specs.Net.{Net};
ghost use Rattle.row_links.specs.Lists.{IsOn};
ghost use Rattle.spots.specs.Forest.{IsLive, moment_at};
ghost use Rattle.spots.specs.OfLists.{IsForestOf};
ghost use Rattle.occ_tree.specs.Places.{forest};
ghost use Rattle.projection.specs.Kinds.{AreKnown};
ghost use Rattle.projection.specs.Queues.{weight_at, IsTooLarge};
ghost use Rattle.belief_turns.specs.Numbered.{seen_numbered, left_under};
ghost use Rattle.belief_turns.specs.Telling.{seen_dated, seen_node, entered_in, TellsEntry, TellsExits};

use belief_table::DatedOcc;
use occ_tree::Tree;
use premise_list::Standing;
use projection::KnownKinds;
use std::alloc::Global;
use tmm_model::{MOST_SIZE, NoMemory, Refusal, Seq, Stop};

/// The derived occurrences that entered and left so far, the first first.
#[derive(Drop)]
pub struct Told {
    /// Those that entered.
    pub entered: Seq<DatedOcc>,
    /// Those that left.
    pub left: Seq<DatedOcc>,
    /// What those that entered count of the size of a map.
    pub(crate) weight: u64,
}

impl Told {
    /// These left, and nothing entered yet. It takes no memory.
    pub fn of_left(alloc: Global, left: Seq<DatedOcc>) -> Told
        ensures entered { entered_in result ≡ [] }
        ensures left { result.left.items ≡ left.items }
        ensures weight { result.weight ≡ 0 }
    {
        Told {
            entered: Seq::make(alloc),
            left,
            weight: 0,
        }
    }

    /// Tells of the occurrence at a node that it entered. What entered may not count more than
    /// 100,000. What is known of kinds is kept.
    pub fn enter(
        &mut self,
        alloc: Global,
        standing: &Standing,
        tree: &Tree,
        x: u32,
        known: &mut KnownKinds,
    ) -> Result<(), Stop>
        requires seen { (net : Net) × IsForestOf standing.now.present net (forest tree.now) }
        requires live { IsLive (forest tree.now) x }
        requires small { self.old.weight ≤ most_size }
        requires known { AreKnown standing.now.present known.old }
        ensures ok { OnOk result (TellsEntry standing.now.present tree.now x self.old self.new) }
        ensures left { self.new.left.items ≡ self.old.left.items }
        ensures stops { IfErr result (IsTooLarge (self.old.weight + weight_at standing.now.present (forest tree.now) x)) }
        ensures known { AreKnown standing.now.present known.new }
    {
        let weight = self.weight + known.weight(standing, tree, x);
        if weight > MOST_SIZE {
            return Err(Stop::Refused(Refusal::LimitSize));
        }
        match tell(alloc, tree, &mut self.entered, x) {
            Ok(()) => {
                self.weight = weight;
                Ok(())
            }
            Err(_) => Err(Stop::NoMemory),
        }
    }

    // Tells of the occurrences at some nodes that they leave, each under the number of its node.
    pub(crate) fn leave(
        &mut self,
        alloc: Global,
        tree: &Tree,
        numbers: &[u32],
    ) -> Result<(), NoMemory>
        requires live { (y : ℕ) → IsOn numbers.now y → IsLive (forest tree.now) y }
        ensures ok { OnOk result (TellsExits tree.now numbers.now self.old self.new) }
        ensures numbers { OnOk result (left_under self.new.left.items ≡ left_under self.old.left.items ++ map (λ y. (y, moment_at (forest tree.now) y)) numbers.now) }
    {
        tell_all(alloc, tree, &mut self.left, numbers)
    }
}

// Tells of the occurrences at some nodes, each under the number of its node.
fn tell_all(
    alloc: Global,
    tree: &Tree,
    moved: &mut Seq<DatedOcc>,
    numbers: &[u32],
) -> Result<(), NoMemory>
    requires live { (y : ℕ) → IsOn numbers.now y → IsLive (forest tree.now) y }
    ensures dated { OnOk result (map seen_dated moved.new.items ≡ map seen_dated moved.old.items ++ map (seen_node tree.now) numbers.now) }
    ensures numbers { OnOk result (map seen_numbered moved.new.items ≡ map seen_numbered moved.old.items ++ map (λ y. (y, moment_at (forest tree.now) y)) numbers.now) }
{
    for y in numbers {
        tell(alloc, tree, moved, *y)?;
    }
    Ok(())
}

// Tells of the occurrence at a node, under its number.
fn tell(alloc: Global, tree: &Tree, moved: &mut Seq<DatedOcc>, x: u32) -> Result<(), NoMemory>
    requires live { IsLive (forest tree.now) x }
    ensures dated { OnOk result (map seen_dated moved.new.items ≡ map seen_dated moved.old.items ++ seen_node tree.now x ∷ []) }
    ensures number { OnOk result (map seen_numbered moved.new.items ≡ map seen_numbered moved.old.items ++ (x, moment_at (forest tree.now) x) ∷ []) }
{
    let occ = tree.occ_of(alloc, x)?;
    let early = tree.early(x);
    match moved.push(DatedOcc {
        node: x,
        early,
        occ,
    }) {
        Ok(()) => Ok(()),
        Err(_) => Err(NoMemory),
    }
}

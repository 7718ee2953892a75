// The size of the map after an edit, from that before it.
ghost use Rattle.std.specs.Prelude.{◌≡◌, ◌≤◌, ◌+◌, ◌-◌, List, Option, IfOk, IfErr, sum_by};
ghost use Rattle.tmm_model.specs.declared.premise.Edit.{Edit as AnEdit};
ghost use Rattle.tmm_model.specs.declared.refusal.Refusal.TheVariants.{LimitSize};
ghost use Rattle.tmm_model.specs.declared.refusal.Stop.TheVariants.{Refused};
ghost use Rattle.tmm_model.specs.Answers.{size, most_size};
ghost use Rattle.tmm_model.specs.Maps.{built};
ghost use Rattle.premise_list.specs.States.{States};
ghost use Rattle.dist_net.specs.Net.{Nets};
ghost use Rattle.occ_tree.specs.Standing.{Kept};
ghost use Rattle.projection.specs.Queues.{IsTooLarge};
ghost use Rattle.belief_list.specs.declared.kept_rows.KeptRow.{KeptRow as AKeptRow};
ghost use Rattle.belief_list.specs.KeptRows.{AreDifferences};
ghost use Rattle.belief_list.specs.Sizes.{weight_kept};

use crate::kept_rows::{Difference, KeptRow};
use tmm_model::{MOST_SIZE, Refusal, Stop};

/// The size of the map after an edit, from that before it: what counted before of the nodes that
/// differ is taken away, and what counts now is added. A size above 100,000 is refused. It takes no
/// memory.
pub fn size_after(before: u64, differences: &[Difference]) -> Result<u64, Stop>
    ensures size { IfOk result (λ n. (lists : States) (nets : Nets) (edit : AnEdit) (tree : Kept) (kept : List (Option AKeptRow)) → AreDifferences lists nets edit tree kept differences.now → before ≡ size (built lists.committed) → n ≡ size (built lists.present)) }
    ensures small { IfOk result (λ n. n ≤ most_size) }
    ensures stops { IfErr result (λ stop. (lists : States) (nets : Nets) (edit : AnEdit) (tree : Kept) (kept : List (Option AKeptRow)) → AreDifferences lists nets edit tree kept differences.now → before ≡ size (built lists.committed) → IsTooLarge (size (built lists.present)) stop) }
    ensures refused { IfErr result (λ stop. stop ≡ Refused LimitSize) }
{
    let after = told_size(before, differences);
    if after > u128::from(MOST_SIZE) {
        return Err(Stop::Refused(Refusal::LimitSize));
    }
    Ok(after as u64)
}

// The size before an edit, with what counts now of the nodes that differ, and without what counted
// before. In 128 bits there is room for the weights of any slice.
fn told_size(before: u64, differences: &[Difference]) -> u128
    ensures { result ≡ before + sum_by (λ d. weight_kept d.now) differences.now - sum_by (λ d. weight_kept d.was) differences.now }
{
    let mut counted = u128::from(before);
    let mut gone: u128 = 0;
    for d in differences {
        counted += u128::from(weight_of(d.now));
        gone += u128::from(weight_of(d.was));
    }
    counted.saturating_sub(gone)
}

// What a node counts of which this is kept. Where none is, nothing counts.
fn weight_of(kept: Option<KeptRow>) -> u64
    ensures { result ≡ weight_kept kept }
{
    match kept {
        Some(row) => row.weight,
        None => 0,
    }
}

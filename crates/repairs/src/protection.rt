// The protection that a line names.
ghost use Rattle.std.specs.Prelude.{◌≡◌, ◌≢◌, ℕ, List, Some, IfOk, IfErr, IfSome, IfNone};
ghost use Rattle.tmm_model.specs.declared.premise.Premise.TheVariants.{Protect};
ghost use Rattle.tmm_model.specs.Sorts.{a_protection, sort_in};
ghost use Rattle.tmm_model.specs.Standing.{premise_in};
ghost use Rattle.tmm_model.specs.Verdicts.{Tells, name_cause};
ghost use Rattle.premise_list.specs.Judged.{NamesPlainly};
ghost use Rattle.repairs.specs.Repairs.{is_protection};

use premise_list::Standing;
use tmm_model::{Name, PointName, Premise, QueryPoint, Refusal};

/// From which point to which the fact of a protection is to hold.
#[derive(Clone, Copy)]
pub(crate) struct Extent {
    pub from: PointName,
    pub to: PointName,
}

// The extent of the protection of this name, or why the name is that of none.
pub(crate) fn extent_of(standing: &Standing, name: Name) -> Result<Extent, Refusal>
    ensures found { IfOk result (λ extent. (fact : List ℕ) × (premise_in standing.now.present.premises name ≡ Some (Protect name fact extent.from extent.to))) }
    ensures known { IfOk result (λ extent. name_cause (sort_in standing.now.present.premises name) name is_protection ≡ None) }
    ensures told { IfErr result (λ refusal. Tells refusal (name_cause (sort_in standing.now.present.premises name) name is_protection)) }
    ensures named { IfErr result NamesPlainly }
{
    standing.invariants();
    match find_extent(standing, name) {
        Some(extent) => Ok(extent),
        None => Err(refusal_of(standing, name)),
    }
}

// The extent of the protection of this name.
fn find_extent(standing: &Standing, name: Name) -> Option<Extent>
    ensures found { IfSome result (λ extent. (fact : List ℕ) × (premise_in standing.now.present.premises name ≡ Some (Protect name fact extent.from extent.to))) }
    ensures other { IfNone result (sort_in standing.now.present.premises name ≢ Some a_protection) }
{
    match standing.get(name)? {
        Premise::Protect { from, to, .. } => Some(Extent {
            from: *from,
            to: *to,
        }),
        _ => None,
    }
}

// Why the name is that of no protection.
fn refusal_of(standing: &Standing, name: Name) -> Refusal
    requires other { sort_in standing.now.present.premises name ≢ Some a_protection }
    ensures told { Tells result (name_cause (sort_in standing.now.present.premises name) name is_protection) }
    ensures named { NamesPlainly result }
{
    // it has the cause against it that it has where a fact is wanted, and a fact is of another sort
    match standing.check_fact(name) {
        Ok(()) => Refusal::Sort(QueryPoint::Declared(PointName::Begin(name))),
        Err(refusal) => refusal,
    }
}

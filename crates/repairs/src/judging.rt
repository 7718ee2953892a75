// What the changes of edits tell of a repair.
ghost use Rattle.std.specs.Prelude.{◌≡◌, ◌||◌, ◌&&◌, not, map};
ghost use Rattle.std.specs.List.{list_any, list_all};
ghost use Rattle.tmm_model.specs.Answers.{report_of};
ghost use Rattle.tmm_model.specs.Changes.{delta_of};
ghost use Rattle.tmm_model.specs.Erasure.{is_among};
ghost use Rattle.tmm_model.specs.Points.{same_name};
ghost use Rattle.repairs.specs.Told.{names_protection, spares_protections, names_in, are_none, tells_mended, tell_mended};

use premise_list::Standing;
use tmm_model::{Changes, Name, Premise, Report};

// Whether what an edit changed tells that the protection of this name is mended, and no other
// harmed.
pub(crate) fn tells_mended(standing: &Standing, name: Name, told: &Changes) -> bool
    ensures { result ≡ tells_mended standing.now.present name (delta_of told.now) }
{
    spares_protections(standing, told.erased.items())
        && are_none(told.broken.items())
        && is_among(told.mended.items(), name)
}

// The same of one edit and then another one.
pub(crate) fn tell_mended(
    standing: &Standing,
    name: Name,
    first: &Changes,
    second: &Changes,
) -> bool
    ensures { result ≡ tell_mended standing.now.present name (delta_of first.now) (delta_of second.now) }
{
    spares_protections(standing, first.erased.items())
        && are_all_mended(second, first.broken.items())
        && are_all_mended(first, second.broken.items())
        && is_mended_at_last(name, first, second)
}

// Whether an edit mended each of these protections.
#[tactic(auto, using(crate::proofs::Reports::all_reports_among))]
fn are_all_mended(told: &Changes, broken: &[Report]) -> bool
    ensures { result ≡ list_all (is_among (delta_of told.now).mended) (names_in (map report_of broken.now)) }
{
    are_all_among(told.mended.items(), broken)
}

// Whether the second edit mended the protection, or the first did and the second left it so.
#[tactic(auto, using(crate::proofs::Reports::among_reports))]
fn is_mended_at_last(name: Name, first: &Changes, second: &Changes) -> bool
    ensures { let one = delta_of first.now in let other = delta_of second.now in
        result ≡ (is_among other.mended name || (is_among one.mended name && not (is_among (names_in other.broken) name))) }
{
    is_among(second.mended.items(), name)
        || (is_among(first.mended.items(), name) && !is_broken(second.broken.items(), name))
}

// Whether none of the names is that of a protection.
fn spares_protections(standing: &Standing, names: &[Name]) -> bool
    ensures { result ≡ spares_protections standing.now.present names.now }
{
    for name in names {
        if names_protection(standing, *name) {
            return false;
        }
    }
    true
}

fn names_protection(standing: &Standing, name: Name) -> bool
    ensures { result ≡ names_protection standing.now.present name }
{
    matches!(standing.get(name), Some(Premise::Protect { .. }))
}

fn are_none(broken: &[Report]) -> bool
    ensures { result ≡ are_none (map report_of broken.now) }
{
    broken.is_empty()
}

fn is_among(names: &[Name], name: Name) -> bool
    ensures { result ≡ is_among names.now name }
{
    names.iter().any(|other| name == *other)
}

fn is_broken(broken: &[Report], name: Name) -> bool
    ensures { result ≡ list_any (λ report. same_name name report.name) broken.now }
{
    broken.iter().any(|report| name == report.name)
}

// Whether each of the protections is among these names.
fn are_all_among(names: &[Name], broken: &[Report]) -> bool
    ensures { result ≡ list_all (λ report. is_among names.now report.name) broken.now }
{
    broken.iter().all(|report| is_among(names, report.name))
}

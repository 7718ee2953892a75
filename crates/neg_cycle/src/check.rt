// Whether steps are a negative cycle.
ghost use Rattle.std.specs.Prelude.{◌≡◌, [], ◌∷◌, ◌++◌, length, ℤ, pos, ◌<ℤ◌, Bool, IsTrue, ◌↔◌};
ghost use Rattle.std.specs.List.{All, Contains, IsDistinct, list_any};
ghost use Rattle.tmm_model.specs.declared.point.PointName.{PointName};
ghost use Rattle.tmm_model.specs.Cycles.{Leads, steps_in, sum_of, begins};
ghost use Rattle.list_theory.specs.NegativeCycles.{IsNegativeCycle};
ghost use Rattle.tmm_model.specs.Points.{same_point};
ghost use Rattle.tmm_model.specs.Standing.{base_step, length_step, hi_steps, lo_steps, steps_of};

use premise_list::Standing;
use tmm_model::{Bound, Name, PointName, Premise, Side, WalkStep};

/// Whether the steps, whoever made them, are a negative cycle: constraints of standing premises and
/// of the refused one, which lead from a point back to it without a repeated point, with a negative
/// sum. It takes no memory.
pub fn check_cycle(standing: &Standing, refused: &Premise, steps: &[WalkStep]) -> bool
    ensures { IsTrue result ↔ IsNegativeCycle standing.now.present.premises refused.now steps.now }
{
    is_closed(steps) && sum(steps) < 0 && begin_apart(steps) && are_known(standing, refused, steps)
}

// Whether the steps lead from a point back to it.
fn is_closed(steps: &[WalkStep]) -> bool
    ensures { IsTrue result ↔ ((p : PointName) × Leads p p steps.now) }
{
    match steps {
        [] => true,
        [first, ..] => leads(steps, &first.from, &first.from),
    }
}

// Whether the steps lead one after the other between the points.
fn leads(steps: &[WalkStep], from: &PointName, to: &PointName) -> bool
    ensures { IsTrue result ↔ Leads from.now to.now steps.now }
{
    let mut at = from;
    for step in steps {
        if step.from != *at {
            return false;
        }
        at = &step.to;
    }
    at == to
}

// The sum of the weights.
fn sum(steps: &[WalkStep]) -> i128
    ensures { result ≡ sum_of steps.now }
{
    let mut sum = 0;
    for step in steps {
        sum += i128::from(step.weight);
    }
    sum
}

// Whether no two steps begin at the same point.
fn begin_apart(steps: &[WalkStep]) -> bool
    ensures { IsTrue result ↔ IsDistinct same_point (begins steps.now) }
{
    for (i, step) in steps.iter().enumerate() {
        if begins_at(&steps[i + 1..], &step.from) {
            return false;
        }
    }
    true
}

// Whether a step begins at the point.
fn begins_at(steps: &[WalkStep], point: &PointName) -> bool
    ensures { result ≡ list_any (λ step. same_point point.now step.from) steps.now }
{
    steps.iter().any(|step| is_same_point(point, &step.from))
}

fn is_same_point(a: &PointName, b: &PointName) -> bool
    ensures { result ≡ same_point a.now b.now }
{
    match a {
        PointName::Start => matches!(b, PointName::Start),
        PointName::Begin(a) => match b {
            PointName::Begin(b) => a == b,
            _ => false,
        },
        PointName::End(a) => match b {
            PointName::End(b) => a == b,
            _ => false,
        },
    }
}

// Whether each step is a constraint of a standing premise or of the refused one.
fn are_known(standing: &Standing, refused: &Premise, steps: &[WalkStep]) -> bool
    ensures { IsTrue result ↔ All (Contains (steps_in (standing.now.present.premises ++ refused.now ∷ []))) steps.now }
{
    for step in steps {
        if !is_known(standing, refused, step) {
            return false;
        }
    }
    true
}

fn is_known(standing: &Standing, refused: &Premise, step: &WalkStep) -> bool
    ensures { IsTrue result ↔ Contains (steps_in (standing.now.present.premises ++ refused.now ∷ [])) step.now }
{
    is_step_of(refused, step) || is_standing(standing, step)
}

// Whether the step is a constraint of a standing premise, which it names.
fn is_standing(standing: &Standing, step: &WalkStep) -> bool
    ensures { IsTrue result ↔ Contains (steps_in standing.now.present.premises) step.now }
{
    standing.invariants();
    match standing.get(step.premise) {
        Some(premise) => is_step_of(premise, step),
        None => false,
    }
}

// Whether the step is a constraint of the premise.
fn is_step_of(premise: &Premise, step: &WalkStep) -> bool
    ensures { IsTrue result ↔ Contains (steps_of premise.now) step.now }
{
    match premise {
        Premise::Point { name } | Premise::Event { name, .. } | Premise::Token { name, .. } => {
            is_base(*name, step)
        }
        Premise::Span { name, .. } => is_base(*name, step) || is_length(*name, step),
        Premise::Dist {
            name,
            from,
            to,
            lo,
            hi,
        } => is_hi(*name, from, to, *hi, step) || is_lo(*name, from, to, *lo, step),
        _ => false,
    }
}

fn is_same(a: &WalkStep, b: &WalkStep) -> bool
    ensures { IsTrue result ↔ (a.now ≡ b.now) }
{
    if a.premise != b.premise || a.side != b.side || a.weight != b.weight {
        return false;
    }
    a.from == b.from && a.to == b.to
}

// No point is before `start`.
fn is_base(name: Name, step: &WalkStep) -> bool
    ensures { IsTrue result ↔ (step.now ≡ base_step name) }
{
    let base = WalkStep {
        premise: name,
        side: Side::Base,
        from: PointName::Begin(name),
        to: PointName::Start,
        weight: 0,
    };
    is_same(step, &base)
}

// A span lasts at least 1.
fn is_length(name: Name, step: &WalkStep) -> bool
    ensures { IsTrue result ↔ (step.now ≡ length_step name) }
{
    let length = WalkStep {
        premise: name,
        side: Side::Length,
        from: PointName::End(name),
        to: PointName::Begin(name),
        weight: -1,
    };
    is_same(step, &length)
}

// `to - from <= hi`, where hi is a number.
fn is_hi(name: Name, from: &PointName, to: &PointName, hi: Bound, step: &WalkStep) -> bool
    ensures { IsTrue result ↔ Contains (hi_steps name from.now to.now hi) step.now }
{
    match hi {
        Bound::Finite(hi) => {
            let upper = WalkStep {
                premise: name,
                side: Side::Hi,
                from: *from,
                to: *to,
                weight: hi,
            };
            is_same(step, &upper)
        }
        Bound::Free => false,
    }
}

// `lo <= to - from`, where lo is a number.
fn is_lo(name: Name, from: &PointName, to: &PointName, lo: Bound, step: &WalkStep) -> bool
    ensures { IsTrue result ↔ Contains (lo_steps name from.now to.now lo) step.now }
{
    match lo {
        Bound::Finite(lo) => {
            // in more bits, since `-lo` may be no i64
            if i128::from(step.weight) != -i128::from(lo) {
                return false;
            }
            let lower = WalkStep {
                premise: name,
                side: Side::Lo,
                from: *to,
                to: *from,
                weight: step.weight,
            };
            is_same(step, &lower)
        }
        Bound::Free => false,
    }
}

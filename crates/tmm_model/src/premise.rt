// What a script states and retracts.
ghost use Rattle.std.specs.Prelude.{◌≡◌, ◌++◌, slice_get};
ghost use Rattle.tmm_model.specs.Lines.{IsBound};
ghost use Rattle.tmm_model.specs.Standing.{base_step, length_step, hi_steps, lo_steps};

use crate::bound::Bound;
use crate::limits::{MOST_ANTECEDENTS, MOST_EXCEPTIONS, MOST_FACTS};
use crate::name::Name;
use crate::point::PointName;
use crate::walk::{Side, WalkStep};
use arrayvec::ArrayVec;

/// A premise: what one line of a script declares.
#[derive(Drop)]
pub enum Premise {
    /// A class of facts, any two of which contradict each other.
    Class {
        name: Name,
        facts: ArrayVec<Name, MOST_FACTS>,
    },
    /// A kind of events.
    Kind {
        name: Name,
    },
    /// A point in time.
    Point {
        name: Name,
    },
    /// An event of a kind.
    Event {
        name: Name,
        kind: Name,
    },
    /// A fact that holds from a point on, until something contradicts it.
    Token {
        name: Name,
        fact: Name,
    },
    /// A fact that holds from a point to a declared end.
    Span {
        name: Name,
        fact: Name,
    },
    /// Bounds on the distance from one point to another, in whole time units.
    Dist {
        name: Name,
        from: PointName,
        to: PointName,
        lo: Bound,
        hi: Bound,
    },
    /// On an event of the kind `trigger`, `effect` begins `lo` to `hi` whole time units after it,
    /// where the facts `given` hold at the event. The facts `unless_facts` are its exceptions.
    Rule {
        name: Name,
        trigger: Name,
        lo: i64,
        hi: Bound,
        effect: Name,
        given: ArrayVec<Name, MOST_ANTECEDENTS>,
        unless_facts: ArrayVec<Name, MOST_EXCEPTIONS>,
    },
    /// A fact is to hold from one point to another.
    Protect {
        name: Name,
        fact: Name,
        from: PointName,
        to: PointName,
    },
    /// Two facts contradict each other, of whichever classes they are.
    Against {
        name: Name,
        one: Name,
        other: Name,
    },
}

impl Premise {
    ghost use Rattle.tmm_model.specs.Lines.{IsWellFormedPremise};
    ghost use Rattle.tmm_model.specs.Standing.{name_of, points_of, steps_of};

    /// The name that it declares for itself.
    pub fn name(&self) -> Name
        ensures { result ≡ name_of self.now }
    {
        match self {
            Premise::Class { name, .. }
            | Premise::Kind { name }
            | Premise::Point { name }
            | Premise::Event { name, .. }
            | Premise::Token { name, .. }
            | Premise::Span { name, .. }
            | Premise::Dist { name, .. }
            | Premise::Rule { name, .. }
            | Premise::Protect { name, .. }
            | Premise::Against { name, .. } => *name,
        }
    }

    /// The points that it declares.
    pub fn points(&self) -> ArrayVec<PointName, 2>
        ensures { result.items ≡ points_of self.now }
    {
        let mut points = ArrayVec::new();
        match self {
            Premise::Point { name } | Premise::Event { name, .. } | Premise::Token { name, .. } => {
                points.push(PointName::Begin(*name));
            }
            Premise::Span { name, .. } => {
                points.push(PointName::Begin(*name));
                points.push(PointName::End(*name));
            }
            _ => {}
        }
        points
    }

    /// Its constraint at this place: it has at most two.
    pub fn step(&self, place: usize) -> Option<WalkStep>
        requires { IsWellFormedPremise self.now }
        ensures { result ≡ slice_get (steps_of self.now) place }
    {
        match self {
            Premise::Point { name } | Premise::Event { name, .. } | Premise::Token { name, .. } => {
                if place == 0 {
                    Some(base_step(*name))
                } else {
                    None
                }
            }
            Premise::Span { name, .. } => match place {
                0 => Some(base_step(*name)),
                1 => Some(length_step(*name)),
                _ => None,
            },
            Premise::Dist {
                name,
                from,
                to,
                lo,
                hi,
            } => dist_step(*name, *from, *to, *lo, *hi, place),
            _ => None,
        }
    }
}

// No point is before `start`.
fn base_step(name: Name) -> WalkStep
    ensures { result ≡ base_step name }
{
    WalkStep {
        premise: name,
        side: Side::Base,
        from: PointName::Begin(name),
        to: PointName::Start,
        weight: 0,
    }
}

// A span lasts at least 1.
fn length_step(name: Name) -> WalkStep
    ensures { result ≡ length_step name }
{
    WalkStep {
        premise: name,
        side: Side::Length,
        from: PointName::End(name),
        to: PointName::Begin(name),
        weight: -1,
    }
}

// `to - from <= hi`, where hi is a number.
fn hi_step(name: Name, from: PointName, to: PointName, hi: Bound) -> Option<WalkStep>
    ensures { result ≡ slice_get (hi_steps name from to hi) 0 }
{
    match hi {
        Bound::Finite(hi) => Some(WalkStep {
            premise: name,
            side: Side::Hi,
            from,
            to,
            weight: hi,
        }),
        Bound::Free => None,
    }
}

// `lo <= to - from`, where lo is a number.
fn lo_step(name: Name, from: PointName, to: PointName, lo: Bound) -> Option<WalkStep>
    requires { IsBound lo }
    ensures { result ≡ slice_get (lo_steps name from to lo) 0 }
{
    match lo {
        Bound::Finite(lo) => Some(WalkStep {
            premise: name,
            side: Side::Lo,
            from: to,
            to: from,
            weight: -lo,
        }),
        Bound::Free => None,
    }
}

fn dist_step(
    name: Name,
    from: PointName,
    to: PointName,
    lo: Bound,
    hi: Bound,
    place: usize,
) -> Option<WalkStep>
    requires { IsBound lo }
    ensures { result ≡ slice_get (hi_steps name from to hi ++ lo_steps name from to lo) place }
{
    let has_hi = matches!(hi, Bound::Finite(_));
    match place {
        0 if has_hi => hi_step(name, from, to, hi),
        0 => lo_step(name, from, to, lo),
        1 if has_hi => lo_step(name, from, to, lo),
        _ => None,
    }
}

/// A change of the standing list.
#[derive(Drop)]
pub enum Edit {
    /// Adds a premise after all that stand.
    Add(Premise),
    /// Retracts a premise and all that mentions it.
    Erase(Name),
    /// Sets the last date at which an effect is projected, in whole time units.
    Horizon(u32),
    /// Opens version 2 of the script.
    Upgrade,
}

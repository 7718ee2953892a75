// What one premise declares.
ghost use Rattle.std.specs.Prelude.{◌≡◌, ◌≤◌, length};
ghost use Rattle.tmm_model.specs.Standing.{name_of, points_of};
ghost use Rattle.premise_list.specs.Words.{facts_of, own_sort, sort_seen};

use arrayvec::ArrayVec;
use tmm_model::{Name, Premise};

/// What a name is declared as.
#[derive(Clone, Copy, PartialEq, Eq, Debug)]
pub(crate) enum Sort {
    Class,
    Fact,
    Kind,
    Point,
    Event,
    Token,
    Span,
    Dist,
    Rule,
    Protection,
    Rivalry,
}

// The name that a premise declares for itself.
pub(crate) fn name_of(premise: &Premise) -> Name
    ensures { result ≡ name_of premise.now }
{
    match premise {
        Premise::Class { name, .. }
        | Premise::Kind { name }
        | Premise::Point { name }
        | Premise::Event { name, .. }
        | Premise::Token { name, .. }
        | Premise::Span { name, .. }
        | Premise::Dist { name, .. }
        | Premise::Rule { name, .. }
        | Premise::Protect { name, .. }
        | Premise::Against { name, .. } => *name,
    }
}

// What it declares it as.
pub(crate) fn sort_of(premise: &Premise) -> Sort
    ensures { sort_seen result ≡ own_sort premise.now }
{
    match premise {
        Premise::Class { .. } => Sort::Class,
        Premise::Kind { .. } => Sort::Kind,
        Premise::Point { .. } => Sort::Point,
        Premise::Event { .. } => Sort::Event,
        Premise::Token { .. } => Sort::Token,
        Premise::Span { .. } => Sort::Span,
        Premise::Dist { .. } => Sort::Dist,
        Premise::Rule { .. } => Sort::Rule,
        Premise::Protect { .. } => Sort::Protection,
        Premise::Against { .. } => Sort::Rivalry,
    }
}

// The facts that a class declares, none for another premise.
pub(crate) fn facts_of(premise: &Premise) -> &[Name]
    ensures value { result.now ≡ facts_of premise.now }
    ensures few { length result.now ≤ 8 }
{
    match premise {
        Premise::Class { facts, .. } => facts.as_slice(),
        _ => &[],
    }
}

// How many points it declares.
pub(crate) fn point_count(premise: &Premise) -> usize
    ensures value { result ≡ length (points_of premise.now) }
    ensures few { result ≤ 2 }
{
    match premise {
        Premise::Point { .. } | Premise::Event { .. } | Premise::Token { .. } => 1,
        Premise::Span { .. } => 2,
        _ => 0,
    }
}

// The same premise once more. It takes no memory.
pub(crate) fn copy_of(premise: &Premise) -> Premise
    ensures { result ≡ premise.now }
{
    match premise {
        Premise::Class { name, facts } => Premise::Class {
            name: *name,
            facts: names_of(facts.as_slice()),
        },
        Premise::Kind { name } => Premise::Kind { name: *name },
        Premise::Point { name } => Premise::Point { name: *name },
        Premise::Event { name, kind } => Premise::Event {
            name: *name,
            kind: *kind,
        },
        Premise::Token { name, fact } => Premise::Token {
            name: *name,
            fact: *fact,
        },
        Premise::Span { name, fact } => Premise::Span {
            name: *name,
            fact: *fact,
        },
        Premise::Dist {
            name,
            from,
            to,
            lo,
            hi,
        } => Premise::Dist {
            name: *name,
            from: *from,
            to: *to,
            lo: *lo,
            hi: *hi,
        },
        Premise::Rule {
            name,
            trigger,
            lo,
            hi,
            effect,
            given,
            unless_facts,
        } => Premise::Rule {
            name: *name,
            trigger: *trigger,
            lo: *lo,
            hi: *hi,
            effect: *effect,
            given: names_of(given.as_slice()),
            unless_facts: names_of(unless_facts.as_slice()),
        },
        Premise::Protect {
            name,
            fact,
            from,
            to,
        } => Premise::Protect {
            name: *name,
            fact: *fact,
            from: *from,
            to: *to,
        },
        Premise::Against { name, one, other } => Premise::Against {
            name: *name,
            one: *one,
            other: *other,
        },
    }
}

fn names_of<const N: usize>(names: &[Name]) -> ArrayVec<Name, N>
    requires { length names.now ≤ N }
    ensures { result.items ≡ names.now }
{
    let mut copy = ArrayVec::new();
    let _fits = copy.try_extend_from_slice(names);
    copy
}

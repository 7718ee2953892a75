//! Tokens of two classes at plain dates, where a fact of the one contradicts a fact of the other.
ghost use Rattle.std.specs.Prelude.{◌∷◌, []};
ghost use Rattle.belief_trials.specs.Pairs.{are_pair, none_itself, both_ways};

use crate::clips::{Dates, Spot};
use crate::listed::{are_by_date, is_class_list};
use crate::names::name;
use clipping::Tokens;
use clipping::across::{self, Fault, Place};
use std::process::Abort;
use tmm_model::{Name, Rivals, TokenRow};

// Two facts that contradict each other, and no others do.
#[derive(Drop)]
struct Pair {
    one: Name,
    other: Name,
}

impl Pair {
    fn of(one: &str, other: &str) -> Pair {
        Pair {
            one: name(one),
            other: name(other),
        }
    }
}

impl Rivals for Pair {
    ghost against = { λ s. are_pair s.one s.other };

    ghost irreflexive = { λ s. none_itself s.one s.other };

    ghost symmetric = { λ s. both_ways s.one s.other };

    fn are_against(&self, one: &Name, other: &Name) -> bool {
        let there = *one == self.one && *other == self.other;
        let back = *one == self.other && *other == self.one;
        *one != *other && (there || back)
    }
}

// The tokens of the door, and those of its lock.
#[derive(Drop)]
struct Lists<'a> {
    door: &'a [TokenRow<Spot>],
    lock: &'a [TokenRow<Spot>],
}

impl Tokens for Lists<'_> {
    type Spot = Spot;

    ghost lists = { λ s. s.door.now ∷ s.lock.now ∷ [] };

    fn count(&self) -> usize {
        2
    }

    fn list(&self, i: usize) -> &[TokenRow<Spot>] {
        if i == 0 { self.door } else { self.lock }
    }
}

// A token on the first line.
fn token(date: i32, place: usize, fact: &str, class: &str) -> TokenRow<Spot> {
    TokenRow {
        spot: (0, date, place),
        end: None,
        fact: name(fact),
        class: name(class),
    }
}

// The door is open at 0, shut at 5, and open at 8 again.
fn door() -> [TokenRow<Spot>; 3] {
    [
        token(0, 1, "open", "door"),
        token(5, 4, "shut", "door"),
        token(8, 5, "open", "door"),
    ]
}

// It is locked at 3 and at 8. A span would be locked whatever comes.
fn lock() -> [TokenRow<Spot>; 3] {
    let span = TokenRow {
        end: Some((0, 7, 9)),
        ..token(2, 2, "locked", "lock")
    };
    [
        span,
        token(3, 3, "locked", "lock"),
        token(8, 6, "locked", "lock"),
    ]
}

const DOOR: usize = 0;

const LOCK: usize = 1;

// A list, a fact of it, and dates from and to which the token at this place of the list holds it.
type Held = (usize, &'static str, i32, i32, Option<usize>);

// Which token of a list holds a fact from a date to another, and whether any does.
fn held(tokens: &Lists<'_>, pair: &Pair, case: &Held) -> Option<(Option<usize>, bool)> {
    let (own, fact, p, q, _) = *case;
    if own >= tokens.count() || !are_by_date(&Dates, tokens) || !is_class_list(tokens, own) {
        return None;
    }
    let (p, q) = ((0, p, 8), (0, q, 8));
    let first = across::holder(&Dates, tokens, pair, own, &[], name(fact), p, q);
    let any = across::is_held(&Dates, tokens, pair, own, &[], name(fact), p, q);
    Some((first, any))
}

// Why the token at a place does not support its fact from a date to another, where no token does.
fn fault(tokens: &Lists<'_>, pair: &Pair, k: Place, p: i32, q: i32) -> Option<Fault> {
    if k.list >= tokens.count() || !are_by_date(&Dates, tokens) || !is_class_list(tokens, k.list) {
        return None;
    }
    let token = tokens.list(k.list).get(k.at)?;
    let (p, q) = ((0, p, 8), (0, q, 8));
    if across::is_held(&Dates, tokens, pair, k.list, &[], token.fact, p, q) {
        return None;
    }
    Some(across::blame(&Dates, tokens, pair, k, p, q))
}

fn check_held(rt: &impl Abort, tokens: &Lists<'_>, pair: &Pair, cases: &[Held]) {
    for case in cases {
        assert_eq!(rt;
            held(tokens, pair, case),
            Some((case.4, case.4.is_some())),
            "{} from {} to {}",
            case.1,
            case.2,
            case.3
        );
    }
}

const OPEN_AND_LOCKED: &[Held] = &[
    // until it is locked at 3, which the class of the door does not tell; the span at 2 clips too
    (DOOR, "open", 0, 1, Some(0)),
    (DOOR, "open", 0, 2, None),
    // the one at 8 is locked at its own date, which clips nothing
    (DOOR, "open", 8, 20, Some(2)),
    // the other direction: locked at 3 until it is open at 8
    (LOCK, "locked", 3, 7, Some(1)),
    (LOCK, "locked", 3, 8, None),
    // the span, which nothing clips
    (LOCK, "locked", 2, 6, Some(0)),
    (LOCK, "locked", 8, 20, Some(2)),
];

// Two facts of one class contradict each other as they do without the pair.
const OPEN_AND_SHUT: &[Held] = &[
    (DOOR, "open", 0, 4, Some(0)),
    (DOOR, "open", 0, 5, None),
    (DOOR, "shut", 5, 7, Some(1)),
    (DOOR, "shut", 5, 8, None),
    (LOCK, "locked", 3, 20, Some(1)),
];

#[test]
fn a_door_that_is_open_or_locked(rt: HostRuntime) {
    let (door, lock) = (door(), lock());
    let tokens = Lists {
        door: &door,
        lock: &lock,
    };
    check_held(&rt, &tokens, &Pair::of("open", "locked"), OPEN_AND_LOCKED);
    check_held(&rt, &tokens, &Pair::of("locked", "open"), OPEN_AND_LOCKED);
    check_held(&rt, &tokens, &Pair::of("open", "shut"), OPEN_AND_SHUT);
}

const FAULTS: &[(Place, i32, i32, Fault)] = &[
    (Place { list: DOOR, at: 0 }, -1, 1, Fault::Late),
    (
        Place { list: DOOR, at: 0 },
        0,
        4,
        Fault::Clipped(Place { list: LOCK, at: 0 }),
    ),
    (
        Place { list: DOOR, at: 1 },
        5,
        8,
        Fault::Clipped(Place { list: DOOR, at: 2 }),
    ),
    (Place { list: LOCK, at: 0 }, 2, 7, Fault::Ends),
    (
        Place { list: LOCK, at: 1 },
        3,
        8,
        Fault::Clipped(Place { list: DOOR, at: 2 }),
    ),
];

#[test]
fn why_a_token_of_a_door_does_not_support(rt: HostRuntime) {
    let (door, lock) = (door(), lock());
    let tokens = Lists {
        door: &door,
        lock: &lock,
    };
    let pair = Pair::of("open", "locked");
    for (k, p, q, why) in FAULTS {
        assert_eq!(rt; fault(&tokens, &pair, *k, *p, *q), Some(*why), "of {k:?}");
    }
}

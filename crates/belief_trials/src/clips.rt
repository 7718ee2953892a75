//! Tokens at plain dates: which supports a fact, what clips one, and why one does not support.
ghost use Rattle.std.specs.Prelude.{IfOk};
ghost use Rattle.belief_trials.specs.Dates.{date_far, date_cmp, itself, triangle, ordered, dated};
ghost use Rattle.clipping.specs.Stretches.{HaveStretches};

use crate::listed::is_by_date;
use crate::names::name;
use any_order::{Fault, blame, first_clipper, holder, is_held};
use clipping::{Dated, Stretched, by_date, last_clipper, stretch_behind};
use std::alloc::{AllocError, Global};
use std::cmp::Ordering;
use std::process::Abort;
use std::test::Fail;
use tmm_model::{Sure, TokenRow};

/// A line of time, a date on it, and a place that tells spots of one date apart.
pub type Spot = (u8, i32, usize);

/// Lines of time that nothing relates.
pub struct Dates;

impl Sure for Dates {
    type Spot = Spot;

    ghost live = { λ s p. Unit {0} };

    ghost distance = { λ s. date_far };

    ghost order = { λ s. date_cmp };

    ghost itself = { λ s p l. itself p };

    ghost triangle = { λ s p q r _ _ _. triangle p q r };

    ghost ordered = { λ s. ordered };

    fn at_most(&self, from: Spot, to: Spot, w: i64) -> bool {
        from.0 == to.0 && i64::from(to.1) - i64::from(from.1) <= w
    }

    fn rank(&self, a: Spot, b: Spot) -> Ordering {
        a.1.cmp(&b.1).then(a.0.cmp(&b.0)).then(a.2.cmp(&b.2))
    }
}

impl Dated for Dates {
    ghost date = { λ s p. p.1 };

    ghost dated = { λ s. dated };

    fn date(&self, spot: Spot) -> i64 {
        i64::from(spot.1)
    }
}

// A token of a fact of the door.
fn token(spot: Spot, fact: &str) -> TokenRow<Spot> {
    TokenRow {
        spot,
        end: None,
        fact: name(fact),
        class: name("door"),
    }
}

// A span of a fact of the door, on the first line.
fn span(date: i32, end: i32, place: usize, fact: &str) -> TokenRow<Spot> {
    TokenRow {
        end: Some((0, end, 9)),
        ..token((0, date, place), fact)
    }
}

// The door's tokens, not in the order of their dates.
fn door() -> [TokenRow<Spot>; 6] {
    [
        token((0, 5, 2), "shut"),
        token((0, 5, 1), "shut"),
        token((0, 0, 3), "open"),
        token((0, 5, 4), "open"),
        token((1, 2, 0), "shut"),
        span(7, 12, 5, "open"),
    ]
}

// The same in that order.
fn door_by_date() -> [TokenRow<Spot>; 6] {
    [
        token((0, 0, 3), "open"),
        token((1, 2, 0), "shut"),
        token((0, 5, 1), "shut"),
        token((0, 5, 2), "shut"),
        token((0, 5, 4), "open"),
        span(7, 12, 5, "open"),
    ]
}

// Two of them: it is shut at 5, and open from 7 to 12.
fn span_of_door() -> [TokenRow<Spot>; 2] {
    [token((0, 5, 1), "shut"), span(7, 12, 5, "open")]
}

// Which token holds it open from a date of the first line to another, and whether any does.
fn held(tokens: &[TokenRow<Spot>], p: i32, q: i32) -> (Option<usize>, bool) {
    let open = name("open");
    let (p, q) = ((0, p, 8), (0, q, 8));
    let first = holder(&Dates, tokens, open, p, q);
    (first, is_held(&Dates, tokens, open, p, q))
}

// What clips the token at `k`.
fn clipper(tokens: &[TokenRow<Spot>], k: usize) -> Option<usize> {
    if k < tokens.len() {
        first_clipper(&Dates, tokens, k)
    } else {
        None
    }
}

// Why the token at `k` does not support its fact from a date of the first line to another, where no
// token does.
fn fault(tokens: &[TokenRow<Spot>], k: usize, p: i32, q: i32) -> Option<Fault> {
    let token = tokens.get(k)?;
    let (p, q) = ((0, p, 8), (0, q, 8));
    if is_held(&Dates, tokens, token.fact, p, q) {
        return None;
    }
    Some(blame(&Dates, tokens, k, p, q))
}

// Which token holds the door open from a date to another.
type Held = (i32, i32, Option<usize>);

// Why the token at a place does not support its fact from a date to another.
type Failing = (usize, i32, i32, Fault);

fn check_held(rt: &impl Abort, tokens: &[TokenRow<Spot>], cases: &[Held]) {
    for (p, q, found) in cases {
        assert_eq!(rt;
            held(tokens, *p, *q),
            (*found, found.is_some()),
            "from {p} to {q}"
        );
    }
}

fn check_clippers(rt: &impl Abort, tokens: &[TokenRow<Spot>], cases: &[(usize, Option<usize>)]) {
    for (k, found) in cases {
        assert_eq!(rt; clipper(tokens, *k), *found, "of {k}");
    }
}

fn check_faults(rt: &impl Abort, tokens: &[TokenRow<Spot>], cases: &[Failing]) {
    for (k, p, q, why) in cases {
        assert_eq!(rt;
            fault(tokens, *k, *p, *q),
            Some(*why),
            "of {k} from {p} to {q}"
        );
    }
}

const HELD: &[Held] = &[
    // the token at 0, until it is clipped at 5; a `shut` of the other line clips nothing for sure
    (0, 4, Some(2)),
    // the one at 5, which ties with those that are shut
    (5, 20, Some(3)),
    (4, 5, None),
    (-1, -1, None),
];

const CLIPPERS: &[(usize, Option<usize>)] = &[
    (0, Some(5)),
    (2, Some(1)),
    (3, None),
    (4, None),
    (5, None),
];

const FAULTS: &[Failing] = &[(2, -1, -1, Fault::Late), (2, 4, 5, Fault::Clipped(1))];

#[test]
fn tokens_of_a_door(rt: HostRuntime) {
    let tokens = door();
    check_held(&rt, &tokens, HELD);
    check_clippers(&rt, &tokens, CLIPPERS);
    check_faults(&rt, &tokens, FAULTS);
}

const HELD_BY_SPAN: &[Held] = &[(7, 11, Some(1)), (7, 12, None), (6, 11, None)];

const FAULTS_OF_SPAN: &[Failing] = &[(1, 6, 11, Fault::Late), (1, 7, 12, Fault::Ends)];

#[test]
fn a_span_of_a_door(rt: HostRuntime) {
    let tokens = span_of_door();
    check_held(&rt, &tokens, HELD_BY_SPAN);
    check_faults(&rt, &tokens, FAULTS_OF_SPAN);
}

// The tokens, each with its stretch.
fn with_stretches(
    alloc: Global,
    tokens: &[TokenRow<Spot>],
) -> Result<Vec<Stretched<Spot>>, AllocError>
    ensures { IfOk result (λ list. HaveStretches list.items) }
{
    let mut list = Vec::new(alloc);
    for row in tokens {
        let first = stretch_behind(&list, &row.fact);
        list.push(Stretched { row: *row, first })?;
    }
    Ok(list)
}

// Where their stretches begin.
const FIRSTS: &[usize] = &[0, 0, 2, 2, 4, 5];

// The last that clips a token of a fact, by its line and date.
const LAST_CLIPPERS: &[(u8, i32, &str, Option<usize>)] = &[
    // by those that are open at 5 and at 7, of which the span stands last
    (0, 4, "shut", Some(5)),
    // by both that are shut at 5: the first by their places stands last
    (0, 0, "open", Some(1)),
    // a `shut` at its own date clips nothing
    (0, 5, "open", None),
    // by the `shut` of its own line alone
    (1, 0, "open", Some(4)),
    (1, 0, "shut", None),
];

fn check_stretches(rt: &impl Abort, tokens: &[Stretched<Spot>]) {
    assert_eq!(rt; tokens.len(), FIRSTS.len());
    for (token, first) in tokens.iter().zip(FIRSTS) {
        assert_eq!(rt; token.first, *first);
    }
}

fn check_last_clippers(rt: &impl Abort, tokens: &[Stretched<Spot>])
    requires { HaveStretches tokens.now }
{
    for (line, date, fact, last) in LAST_CLIPPERS {
        let found = last_clipper(&Dates, tokens, &token((*line, *date, 7), fact));
        assert_eq!(rt; found, *last, "{fact} at {date} of line {line}");
    }
}

#[test]
fn the_last_that_clips_a_token_of_a_door(rt: HostRuntime) -> Result<(), Fail> {
    let tokens = with_stretches(rt.alloc(), &door())?;
    check_stretches(&rt, &tokens);
    check_last_clippers(&rt, &tokens);
    Ok(())
}

// Guesses of what cuts each token, right and wrong, on which no answer depends.
const GUESSES: &[u32] = &[3, 0, 99, 1, 4, 2];

// What the search by dates says of the same questions, where the tokens stand by date.
fn held_by_date(tokens: &[TokenRow<Spot>], p: i32, q: i32) -> Option<(Option<usize>, bool)> {
    if !is_by_date(&Dates, tokens) {
        return None;
    }
    let open = name("open");
    let (p, q) = ((0, p, 8), (0, q, 8));
    let first = by_date::holder(&Dates, tokens, GUESSES, open, p, q);
    Some((first, by_date::is_held(&Dates, tokens, GUESSES, open, p, q)))
}

// Where the token stands that begins at a spot.
fn place_by_date(tokens: &[TokenRow<Spot>], spot: Spot) -> Option<usize> {
    if is_by_date(&Dates, tokens) {
        by_date::place_of(&Dates, tokens, spot)
    } else {
        None
    }
}

fn check_held_by_date(rt: &impl Abort, tokens: &[TokenRow<Spot>], cases: &[Held]) {
    for (p, q, found) in cases {
        let want = (*found, found.is_some());
        assert_eq!(rt; held_by_date(tokens, *p, *q), Some(want), "from {p} to {q}");
    }
}

fn check_places_by_date(
    rt: &impl Abort,
    tokens: &[TokenRow<Spot>],
    cases: &[(Spot, Option<usize>)],
) {
    for (spot, found) in cases {
        assert_eq!(rt; place_by_date(tokens, *spot), *found);
    }
}

const HELD_BY_DATE: &[Held] = &[
    (0, 4, Some(0)),
    // the one at 5, which ties with those that are shut
    (5, 20, Some(4)),
    (4, 5, None),
    (-1, -1, None),
];

const PLACES_BY_DATE: &[(Spot, Option<usize>)] = &[
    ((0, 5, 1), Some(2)),
    ((0, 5, 3), None),
    ((0, 9, 0), None),
];

#[test]
fn tokens_of_a_door_by_date(rt: HostRuntime) {
    let tokens = door_by_date();
    check_held_by_date(&rt, &tokens, HELD_BY_DATE);
    check_places_by_date(&rt, &tokens, PLACES_BY_DATE);
    assert!(rt; !is_by_date(&Dates, &door()));
}

#[test]
fn a_span_of_a_door_by_date(rt: HostRuntime) {
    let tokens = span_of_door();
    check_held_by_date(&rt, &tokens, HELD_BY_SPAN);
}

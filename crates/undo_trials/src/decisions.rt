//! Decisions that are taken back, and rows that come back to their places on lists.
ghost use Rattle.std.specs.Prelude.{◌≤◌, length, IsSome, IfSome};
ghost use Rattle.undo_rows.specs.Changes.{present};

use decision_rows::{Decision, Rows};
use std::alloc::Global;
use std::process::Abort;

#[test]
fn a_rollback_brings_a_decision_back(rt: HostRuntime) {
    let mut rows = Rows::make(rt.alloc());
    expect_decisions(&rt, rt.alloc(), &mut rows);
}

fn expect_decisions(rt: &impl Abort, alloc: Global, rows: &mut Rows) {
    add(rt, alloc, rows, 3, 5, &[8]);
    rows.commit();
    decide_first(rt, alloc, rows, 8, Decision::Fires);
    expect_of_copy(rt, alloc, rows);
    assert!(rt; is_first(rows, 8, Decision::Fires));
    rows.rollback();
    assert!(rt; is_first(rows, 8, Decision::Beyond));
}

/// A copy has the last commit of the rows: the decision is taken back there alone. One row is on
/// the list.
fn expect_of_copy(rt: &impl Abort, alloc: Global, rows: &Rows) {
    let mut other = rows.copy(alloc).expect(rt, "memory");
    other.rollback();
    assert!(rt; is_first(&other, 8, Decision::Beyond));
    expect_first(rt, &other, 2, 8, rows.first(2, 8));
    remove_first(rt, alloc, &mut other, 2, 8);
    expect_first(rt, &other, 2, 8, None);
}

/// Adds a row, and answers its number.
fn add(
    rt: &impl Abort,
    alloc: Global,
    rows: &mut Rows,
    trigger: u32,
    rule: u32,
    classes: &[u32],
) -> u32
    requires { length classes.now ≤ 6 }
{
    let added = rows.add(alloc, trigger, rule, classes);
    added.expect(rt, "memory")
}

fn expect_first(rt: &impl Abort, rows: &Rows, family: usize, head: u32, want: Option<u32>) {
    assert_eq!(rt;
        rows.first(family, head),
        want,
        "family {family}, head {head}"
    );
}

/// The first row on a list, which is one that there is.
fn first_row(rows: &Rows, family: usize, head: u32) -> Option<u32>
    ensures { IfSome result (λ x. IsSome ((present rows.now).row x)) }
{
    rows.first(family, head)
}

/// Whether the first row of a class is of trigger 3 and rule 5, and keeps this decision.
fn is_first(rows: &Rows, class: u32, found: Decision) -> bool {
    match first_row(rows, 2, class) {
        Some(x) => rows.pair(x) == (3, 5) && rows.get(x) == found,
        None => false,
    }
}

/// Keeps a decision of the first row of a class.
fn decide_first(rt: &impl Abort, alloc: Global, rows: &mut Rows, class: u32, found: Decision) {
    if let Some(x) = first_row(rows, 2, class) {
        rows.set(alloc, x, found).expect(rt, "memory");
    }
}

/// Takes the first row on a list off all its lists.
fn remove_first(rt: &impl Abort, alloc: Global, rows: &mut Rows, family: usize, head: u32) {
    if let Some(x) = first_row(rows, family, head) {
        rows.remove(alloc, x).expect(rt, "memory");
    }
}

/// Families of lists, and how many heads each has.
const FAMILIES: [(usize, u32); 7] = [(0, 7), (1, 5), (2, 3), (3, 2), (4, 4), (5, 6), (0, 7)];

#[test]
fn rows_come_back_to_their_places(rt: HostRuntime) {
    let mut rows = Rows::make(rt.alloc());
    expect_places(&rt, rt.alloc(), &mut rows);
}

fn expect_places(rt: &impl Abort, alloc: Global, rows: &mut Rows) {
    let numbers = filled(rt, alloc, rows);
    rows.commit();
    for (family, heads) in FAMILIES {
        for head in 0..heads {
            expect_list(rt, alloc, rows, &numbers, family, heads, head);
        }
        rows.rollback();
    }
}

/// The numbers of 500 rows, each under the rests of its place as its heads.
fn filled(rt: &impl Abort, alloc: Global, rows: &mut Rows) -> Vec<u32> {
    let mut numbers = Vec::new(alloc);
    for i in 0..500u32 {
        let classes = [i % 3, i % 2, i % 4, i % 6];
        let x = add(rt, alloc, rows, i % 7, i % 5, &classes);
        numbers.push(x).expect(rt, "memory");
    }
    numbers
}

/// The rows on a list are those whose places have its head as their rest, in order. Each is removed
/// before the next is found.
fn expect_list(
    rt: &impl Abort,
    alloc: Global,
    rows: &mut Rows,
    numbers: &[u32],
    family: usize,
    heads: u32,
    head: u32,
) {
    let mut rest = 0;
    for x in numbers {
        if rest == head {
            expect_first(rt, rows, family, head, Some(*x));
            remove_first(rt, alloc, rows, family, head);
        }
        rest = next_rest(rest, heads);
    }
    expect_first(rt, rows, family, head, None);
}

/// The rest of the next place.
fn next_rest(rest: u32, heads: u32) -> u32 {
    let next = rest.wrapping_add(1);
    if next == heads { 0 } else { next }
}

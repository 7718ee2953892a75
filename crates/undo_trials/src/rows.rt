//! Rows on lists of two families, removed and brought back.
use std::alloc::Global;
use std::process::Abort;
use undo_rows::Rows;

/// Rows that keep a number.
type Numbers = Rows<u32, 2>;

/// Three rows on the list of head 4 in family 0, of which the first and the last are on that of
/// head 1 in family 1. They are committed.
fn add_three(rt: &impl Abort, alloc: Global, rows: &mut Numbers) -> [u32; 3] {
    let a = rows.add(alloc, [Some(4), Some(1)], 10).expect(rt, "memory");
    let b = rows.add(alloc, [Some(4), None], 20).expect(rt, "memory");
    let c = rows.add(alloc, [Some(4), Some(1)], 30).expect(rt, "memory");
    rows.commit();
    [a, b, c]
}

#[test]
fn a_removed_row_comes_back_to_its_place(rt: HostRuntime) {
    let mut rows = Rows::make(rt.alloc());
    expect_removals(&rt, rt.alloc(), &mut rows);
    let_go(rows);
}

/// Lets go of a value of any type that may be dropped.
fn let_go<M: Drop>(_kept: M) {}

fn expect_removals(rt: &impl Abort, alloc: Global, rows: &mut Numbers) {
    let [a, b, c] = add_three(rt, alloc, rows);
    remove(rt, alloc, rows, b);
    expect(rt, number(rows, b), None);
    expect_two(rt, rows, 0, 4, Some(a), Some(c));
    remove(rt, alloc, rows, a);
    expect_two(rt, rows, 1, 1, Some(c), None);
    rows.rollback();
    expect(rt, number(rows, b), Some(20));
    expect_two(rt, rows, 0, 4, Some(a), Some(b));
    expect_two(rt, rows, 1, 1, Some(a), Some(c));
}

/// The first two rows on a list.
fn expect_two(
    rt: &impl Abort,
    rows: &Numbers,
    family: usize,
    head: u32,
    first: Option<u32>,
    next: Option<u32>,
) {
    expect(rt, rows.first(family, head), first);
    expect(rt, second(rows, family, head), next);
}

fn expect(rt: &impl Abort, found: Option<u32>, want: Option<u32>) {
    assert_eq!(rt; found, want);
}

#[test]
fn a_copy_keeps_what_was_not_committed(rt: HostRuntime) {
    let mut rows = Rows::make(rt.alloc());
    expect_of_copy(&rt, rt.alloc(), &mut rows);
}

fn expect_of_copy(rt: &impl Abort, alloc: Global, rows: &mut Numbers) {
    let [a, _, c] = add_three(rt, alloc, rows);
    write(rt, alloc, rows, a, 40);
    let mut other = rows.copy(alloc).expect(rt, "memory");
    rows.rollback();
    other.commit();
    other.rollback();
    expect(rt, number(rows, a), Some(10));
    expect(rt, number(&other, a), Some(40));
    expect(rt, head(&other, c, 1), Some(1));
    expect(rt, head(&other, c, 2), None);
}

#[test]
fn the_number_of_a_removed_row_is_used_again_after_the_commit(rt: HostRuntime) {
    let mut rows = Rows::make(rt.alloc());
    expect_numbers(&rt, rt.alloc(), &mut rows);
}

/// One of three rows goes. The next row has a new number, and the one after the commit that of the
/// row that went.
fn expect_numbers(rt: &impl Abort, alloc: Global, rows: &mut Numbers) {
    let [_, b, _] = add_three(rt, alloc, rows);
    assert_eq!(rt; rows.places(), 3);
    remove(rt, alloc, rows, b);
    let before = rows.add(alloc, [None, None], 40).expect(rt, "memory");
    assert_eq!(rt; (before, rows.places()), (3, 4));
    rows.commit();
    let after = rows.add(alloc, [None, None], 50).expect(rt, "memory");
    assert_eq!(rt; (after, rows.places()), (b, 4));
}

/// The number that a row keeps, if there is one.
fn number(rows: &Numbers, x: u32) -> Option<u32> {
    if rows.is_live(x) {
        Some(*rows.get(x))
    } else {
        None
    }
}

/// The head of a row in a family.
fn head(rows: &Numbers, x: u32, family: usize) -> Option<u32> {
    if rows.is_live(x) {
        rows.row(x).head(family)
    } else {
        None
    }
}

/// Takes a row out, if there is one.
fn remove(rt: &impl Abort, alloc: Global, rows: &mut Numbers, x: u32) {
    if rows.is_live(x) {
        rows.remove(alloc, x).expect(rt, "memory");
    }
}

/// Gives a row another number, if there is one.
fn write(rt: &impl Abort, alloc: Global, rows: &mut Numbers, x: u32, number: u32) {
    if rows.is_live(x) {
        rows.set(alloc, x, number).expect(rt, "memory");
    }
}

/// The second row on a list.
fn second(rows: &Numbers, family: usize, head: u32) -> Option<u32> {
    rows.next(family, rows.first(family, head)?)
}

//! Items that enter and leave at stated places, and lists that come back in their order.
use std::alloc::Global;
use std::process::Abort;
use undo_lists::Lists;

/// What is done to the lists.
#[derive(Clone, Copy)]
enum Step {
    /// An item enters a list at a place.
    Put(u32, usize, u32),
    /// The item at a place of a list leaves it.
    Take(u32, usize),
    Commit,
    Rollback,
}

/// Steps one after the other, with the items of lists 0 and 2 after each.
type Steps = &'static [(Step, &'static [u32], &'static [u32])];

/// Items come and go, with nothing committed at last.
const STEPS: Steps = &[
    (Step::Put(2, 0, 10), &[], &[10]),
    (Step::Put(2, 0, 20), &[], &[20, 10]),
    (Step::Put(2, 1, 30), &[], &[20, 30, 10]),
    (Step::Commit, &[], &[20, 30, 10]),
    (Step::Take(2, 1), &[], &[20, 10]),
    (Step::Put(0, 0, 40), &[40], &[20, 10]),
    (Step::Rollback, &[], &[20, 30, 10]),
    (Step::Take(2, 1), &[], &[20, 10]),
    (Step::Put(0, 0, 40), &[40], &[20, 10]),
];

/// What is done to a copy then, whose last commit is not the one of the lists.
const OF_A_COPY: Steps = &[
    (Step::Put(2, 2, 50), &[40], &[20, 10, 50]),
    (Step::Rollback, &[], &[20, 30, 10]),
];

/// What was committed stays.
const COMMITTED: Steps = &[(Step::Rollback, &[40], &[20, 10])];

#[test]
fn lists_come_back_in_their_order(rt: HostRuntime) {
    let mut lists = Lists::make(rt.alloc());
    expect_changes(&rt, rt.alloc(), &mut lists);
}

fn expect_changes(rt: &impl Abort, alloc: Global, lists: &mut Lists<u32>) {
    expect_steps(rt, alloc, lists, STEPS);
    expect_items(rt, lists.list(9), &[]);
    expect_changed(rt, alloc, lists, &[0, 2]);
    expect_of_copy(rt, alloc, lists);
    expect_changed(rt, alloc, lists, &[]);
    expect_steps(rt, alloc, lists, COMMITTED);
}

fn expect_steps(rt: &impl Abort, alloc: Global, lists: &mut Lists<u32>, steps: Steps) {
    for (step, first, last) in steps {
        make(rt, alloc, lists, *step);
        expect_items(rt, lists.list(0), first);
        expect_items(rt, lists.list(2), last);
    }
}

fn expect_items(rt: &impl Abort, items: &[u32], want: &[u32]) {
    assert_eq!(rt; items, want);
}

fn make(rt: &impl Abort, alloc: Global, lists: &mut Lists<u32>, step: Step) {
    match step {
        Step::Put(number, place, item) => put(rt, alloc, lists, number, place, item),
        Step::Take(number, place) => {
            let _item = take(rt, alloc, lists, number, place);
        }
        Step::Commit => lists.commit(),
        Step::Rollback => lists.rollback(),
    }
}

/// The numbers of the lists that were changed, the latest first.
fn expect_changed(rt: &impl Abort, alloc: Global, lists: &Lists<u32>, numbers: &[u32]) {
    let changed = lists.changed(alloc).expect(rt, "memory");
    expect_items(rt, &changed, numbers);
}

/// A copy goes its own way while the lists are committed.
fn expect_of_copy(rt: &impl Abort, alloc: Global, lists: &mut Lists<u32>) {
    let mut copy = lists.copy(alloc).expect(rt, "memory");
    lists.commit();
    expect_steps(rt, alloc, &mut copy, OF_A_COPY);
}

/// Puts an item at a place, or last where the list is shorter.
fn put(
    rt: &impl Abort,
    alloc: Global,
    lists: &mut Lists<u32>,
    number: u32,
    place: usize,
    item: u32,
) {
    let last = lists.list(number).len();
    let put = lists.put(alloc, number, place.min(last), item);
    put.expect(rt, "memory");
}

/// Takes the item out of a place, if one stands there.
fn take(
    rt: &impl Abort,
    alloc: Global,
    lists: &mut Lists<u32>,
    number: u32,
    place: usize,
) -> Option<u32> {
    if place < lists.list(number).len() {
        let taken = lists.take(alloc, number, place);
        Some(taken.expect(rt, "memory"))
    } else {
        None
    }
}

/// How many items there are, and on how many lists.
const ITEMS: u32 = 500;

const LISTS: u32 = 7;

#[test]
fn every_list_comes_back(rt: HostRuntime) {
    let mut lists = Lists::make(rt.alloc());
    expect_shuffles(&rt, rt.alloc(), &mut lists);
}

fn expect_shuffles(rt: &impl Abort, alloc: Global, lists: &mut Lists<u32>) {
    fill(rt, alloc, lists);
    assert!(rt; are_filled(lists));
    for turn in 0..3 {
        shuffle(rt, alloc, lists, turn);
        assert!(rt; !are_filled(lists));
        lists.rollback();
        assert!(rt; are_filled(lists));
    }
}

/// Puts items 0, 1, .. each last on the list of its rest, and commits them.
fn fill(rt: &impl Abort, alloc: Global, lists: &mut Lists<u32>) {
    for item in 0..ITEMS {
        put(rt, alloc, lists, item % LISTS, ITEMS as usize, item);
    }
    lists.commit();
}

/// Moves items by the hundred from list to list, and to one that had none.
fn shuffle(rt: &impl Abort, alloc: Global, lists: &mut Lists<u32>, turn: u32) {
    for step in 0..ITEMS {
        let from = step.wrapping_add(turn) % LISTS;
        let place = (step / 11) as usize;
        if let Some(item) = take(rt, alloc, lists, from, place) {
            put(rt, alloc, lists, step % 8, place / 3, item);
        }
    }
}

/// Whether each item is on the list of its rest, in order.
fn are_filled(lists: &Lists<u32>) -> bool {
    for number in 0..LISTS {
        if !are_of_rest(lists.list(number), number) {
            return false;
        }
    }
    lists.list(LISTS).is_empty()
}

/// Whether these are the items of this rest, in order.
fn are_of_rest(items: &[u32], rest: u32) -> bool {
    let mut next = rest;
    for item in items {
        if *item != next {
            return false;
        }
        next = next.wrapping_add(LISTS);
    }
    ITEMS <= next && next < ITEMS + LISTS
}

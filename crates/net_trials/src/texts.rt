//! The bytes of replies.
use crate::networks::name;
use arrayvec::ArrayVec;
use premise_list::Standing;
use replies::{
    Word, memory_reply, reply_answer, reply_bounds, reply_check, reply_dump, reply_list,
    reply_mode_no, reply_mode_ok, reply_no, reply_number, reply_ok, reply_path, reply_why,
};
use std::alloc::Global;
use std::process::Abort;
use tmm_model::{
    Answer, Blame, Bound, Cause, Changes, Clip, ListRow, MOST_EXCEPTIONS, ModeCause, Name,
    NoMemory, Occ, PointName, QueryPoint, Refusal, Report, Seq, Side, WalkStep, WhyLine,
};

/// A reply is this text.
pub fn expect(rt: &impl Abort, reply: &Result<Seq<u8>, NoMemory>, text: &str) {
    assert!(rt; is(reply, text), "{text}");
}

fn is(reply: &Result<Seq<u8>, NoMemory>, text: &str) -> bool {
    match reply {
        Ok(bytes) => bytes.items() == text.as_bytes(),
        Err(_) => false,
    }
}

/// The list of this item alone. Without memory it is empty, and no text fits.
fn one<T: Drop>(alloc: Global, item: T) -> Seq<T> {
    let mut items = Seq::make(alloc);
    let _refused = items.push(item);
    items
}

fn names(alloc: Global, word: &str) -> Seq<Name> {
    one(alloc, name(word))
}

fn root(alloc: Global, word: &str) -> Occ {
    Occ {
        root: name(word),
        rules: Seq::make(alloc),
    }
}

fn effect(alloc: Global, word: &str, rule: &str) -> Occ {
    Occ {
        root: name(word),
        rules: names(alloc, rule),
    }
}

fn point(word: &str) -> PointName {
    PointName::Begin(name(word))
}

fn step(premise: &str, side: Side, from: &str, to: &str, weight: i64) -> WalkStep {
    WalkStep {
        premise: name(premise),
        side,
        from: point(from),
        to: point(to),
        weight,
    }
}

fn clip(alloc: Global) -> Clip {
    Clip {
        token: root(alloc, "n"),
        by: effect(alloc, "e", "r"),
    }
}

fn clipped(alloc: Global) -> Answer {
    let blame = Blame {
        token: root(alloc, "k"),
        cause: Cause::Clipped(root(alloc, "m")),
    };
    Answer::No {
        blames: one(alloc, blame),
        more: 2,
    }
}

fn broken(alloc: Global, answer: Answer) -> Report {
    Report {
        name: name("g"),
        answer,
    }
}

/// A change of each sort.
fn changes(alloc: Global) -> Changes {
    Changes {
        erased: names(alloc, "m"),
        left: one(alloc, effect(alloc, "f", "r")),
        entered: one(alloc, effect(alloc, "e", "r")),
        loose: one(alloc, root(alloc, "k")),
        clips: one(alloc, clip(alloc)),
        broken: one(alloc, broken(alloc, clipped(alloc))),
        mended: names(alloc, "h"),
    }
}

#[test]
fn edits_are_replied(rt: HostRuntime) {
    let alloc = rt.alloc();
    expect(
        &rt,
        &reply_ok(alloc, 13, &changes(alloc)),
        "13 ok\n  erased m\n  out f/r\n  in e/r\n  loose k\n  clip n by e/r\n  broken g\n    k clipped m\n    and 2 more\n  mended h\n",
    );
}

#[test]
fn refusals_are_replied(rt: HostRuntime) {
    let alloc = rt.alloc();
    let cycle = Refusal::Cycle {
        sum: -5,
        steps: one(alloc, step("x", Side::Lo, "a", "c", 0)),
    };
    expect(
        &rt,
        &reply_no(alloc, 9, &cycle),
        "9 no cycle -5\n  x lo a c 0\n",
    );
    let unknown = Refusal::Unknown(QueryPoint::Derived(effect(alloc, "e", "r")));
    expect(&rt, &reply_no(alloc, 10, &unknown), "10 no unknown e/r\n");
    expect(
        &rt,
        &reply_no(alloc, 7, &Refusal::LimitLine),
        "7 no limit line\n",
    );
}

#[test]
fn modes_are_replied(rt: HostRuntime) {
    let alloc = rt.alloc();
    expect(&rt, &reply_mode_ok(alloc, 4), "4 ok\n");
    for (cause, text) in [
        (ModeCause::LimitSuppose, "5 no limit suppose\n"),
        (ModeCause::Suppose, "5 no suppose\n"),
        (ModeCause::Agent, "5 no agent\n"),
        (ModeCause::LimitBatch, "5 no limit batch\n"),
        (ModeCause::LimitAgents, "5 no limit agents\n"),
    ] {
        expect(&rt, &reply_mode_no(alloc, 5, cause), text);
    }
}

#[test]
fn single_lines_are_replied(rt: HostRuntime) {
    let alloc = rt.alloc();
    expect(
        &rt,
        &reply_bounds(alloc, 8, Bound::Finite(0), Bound::Free),
        "8 bounds 0 *\n",
    );
    expect(&rt, &reply_number(alloc, 10, Word::Size, 2), "10 size 2\n");
    expect(
        &rt,
        &reply_number(alloc, 9, Word::Audit, 1),
        "9 audit yes\n",
    );
    assert!(rt; memory_reply(3).as_slice() == b"3 memory\n".as_slice());
}

#[test]
fn paths_are_replied(rt: HostRuntime) {
    let steps = [
        step("e", Side::Lo, "c", "b", -2),
        step("d", Side::Lo, "b", "a", -3),
    ];
    expect(
        &rt,
        &reply_path(rt.alloc(), 10, Bound::Finite(-5), &steps),
        "10 path -5\n  e lo c b -2\n  d lo b a -3\n",
    );
}

#[test]
fn answers_are_replied(rt: HostRuntime) {
    let alloc = rt.alloc();
    expect(
        &rt,
        &reply_answer(alloc, 5, &clipped(alloc)),
        "5 no\n  k clipped m\n  and 2 more\n",
    );
    expect(
        &rt,
        &reply_answer(alloc, 5, &Answer::Yes(root(alloc, "k"))),
        "5 yes k\n",
    );
    expect(
        &rt,
        &reply_answer(alloc, 5, &Answer::Unordered),
        "5 no unordered\n",
    );
}

#[test]
fn checks_are_replied(rt: HostRuntime) {
    let reports = [broken(rt.alloc(), Answer::Unordered)];
    expect(
        &rt,
        &reply_check(rt.alloc(), 11, &reports),
        "11 check 1\n  broken g unordered\n",
    );
}

#[test]
fn lists_are_replied(rt: HostRuntime) {
    let alloc = rt.alloc();
    let rows = [ListRow {
        early: 0,
        occ: root(alloc, "k"),
        what: name("open"),
        clip: Some(root(alloc, "m")),
    }];
    expect(
        &rt,
        &reply_list(alloc, 16, &rows),
        "16 list 1\n  0 k open clip m\n",
    );
}

fn order(alloc: Global) -> WhyLine {
    WhyLine::Order {
        first: QueryPoint::Declared(point("k")),
        second: QueryPoint::Declared(point("e")),
        far: -10,
        steps: one(alloc, step("z", Side::Hi, "s", "k", 0)),
    }
}

fn exceptions() -> ArrayVec<Name, MOST_EXCEPTIONS> {
    let mut facts = ArrayVec::new();
    facts.push(name("g"));
    facts.push(name("h"));
    facts
}

fn derived(alloc: Global) -> WhyLine {
    WhyLine::Derived {
        occ: effect(alloc, "e", "r"),
        rule: name("r"),
        trigger: root(alloc, "e"),
        supports: one(alloc, root(alloc, "k")),
        unless_facts: exceptions(),
    }
}

#[test]
fn reasons_are_replied(rt: HostRuntime) {
    let alloc = rt.alloc();
    let lines = [WhyLine::Premise(name("k")), order(alloc), derived(alloc)];
    expect(
        &rt,
        &reply_why(alloc, 8, &lines),
        "8 why\n  premise k\n  order k e -10\n    z hi s k 0\n  e/r by r on e with k unless g h\n",
    );
}

#[test]
fn dumps_are_replied(rt: HostRuntime) {
    let list = Standing::make(rt.alloc());
    expect(
        &rt,
        &reply_dump(rt.alloc(), 7, &list),
        "7 dump 0\n  horizon 1000\n",
    );
}

#[test]
fn dumps_of_version_2_are_replied(rt: HostRuntime) {
    let mut list = Standing::make(rt.alloc());
    list.upgrade();
    expect(
        &rt,
        &reply_dump(rt.alloc(), 7, &list),
        "7 dump 0\n  tmm 2\n  horizon 1000\n",
    );
}

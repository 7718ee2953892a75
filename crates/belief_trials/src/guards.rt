//! Broken protections, before an edit and after it.
use crate::names::name;
use crate::premises::{Premises, let_through};
use premise_list::Standing;
use protections::{copied, delta};
use std::alloc::Global;
use std::test::Fail;
use tmm_model::{Answer, Blame, Cause, Name, NoMemory, Occ, Report, Seq, Stop};

/// A fact that is protected three times.
const DOOR: &[&[u8]] = &[
    b"class door open",
    b"protect kept open start start",
    b"protect mended open start start",
    b"protect broken open start start",
];

fn root(alloc: Global, word: &str) -> Occ {
    Occ {
        root: name(word),
        rules: Seq::make(alloc),
    }
}

// A protection that fails since one token is clipped by another.
fn clipped(alloc: Global, word: &str) -> Result<Report, NoMemory> {
    let mut blames = Seq::make(alloc);
    let blame = Blame {
        token: root(alloc, "first"),
        cause: Cause::Clipped(root(alloc, "second")),
    };
    match blames.push(blame) {
        Ok(()) => Ok(Report {
            name: name(word),
            answer: Answer::No { blames, more: 3 },
        }),
        Err(_) => Err(NoMemory),
    }
}

// A protection that fails since its points are not in order.
fn unordered(word: &str) -> Report {
    Report {
        name: name(word),
        answer: Answer::Unordered,
    }
}

// What is told of the reports before an edit and after it: how many break, the first that is
// mended, and how many of those that break are copied.
type Told = (usize, Option<Name>, usize);

fn told(
    alloc: Global,
    list: &Standing,
    before: &[Report],
    after: &[Report],
) -> Result<Told, NoMemory> {
    let (broken, mended) = delta(alloc, before, after, list)?;
    let copies = copied(alloc, broken.items())?;
    let first = mended.items().first().copied();
    Ok((broken.items().len(), first, copies.items().len()))
}

// The same where one breaks, one is mended, and one stays broken.
fn told_of_three(alloc: Global, list: &Standing) -> Result<Told, NoMemory> {
    let broken = clipped(alloc, "broken")?;
    let before = [unordered("kept"), unordered("mended")];
    let after = [unordered("kept"), broken];
    told(alloc, list, &before, &after)
}

// The same of the door.
fn told_of_door(alloc: Global) -> Result<Told, Stop> {
    let door = Premises::of(alloc, DOOR)?;
    match told_of_three(alloc, &door.list) {
        Ok(told) => Ok(told),
        Err(_) => Err(Stop::NoMemory),
    }
}

#[test]
fn one_breaks_and_one_is_mended(rt: HostRuntime) -> Result<(), Fail> {
    let told = let_through(&rt, told_of_door(rt.alloc()))?;
    assert_eq!(rt; told, (1, Some(name("mended")), 1));
    Ok(())
}

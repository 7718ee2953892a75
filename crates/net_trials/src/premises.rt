//! Lists as the lines of scripts make them.
ghost use Rattle.std.specs.Prelude.{◌≡◌, None};
ghost use Rattle.tmm_model.specs.Verdicts.{list_cause};

use crate::networks::{name, numbered};
use crate::texts::expect;
use premise_list::Standing;
use replies::reply_no;
use std::alloc::Global;
use std::process::Abort;
use tmm_model::{Edit, Line, Name, NoMemory, Premise, Seq, Version};
use tmm_script::parse_line;

/// Makes the edits of lines, and compares what each is told.
pub fn expect_lines(rt: &impl Abort, alloc: Global, list: &mut Standing, lines: &[(&str, &str)]) {
    for (line, want) in lines {
        expect_line(rt, alloc, list, line, want);
    }
}

fn expect_line(rt: &impl Abort, alloc: Global, list: &mut Standing, line: &str, want: &str) {
    let edit = edit_of(alloc, line.as_bytes()).expect(rt, "an edit");
    expect_edit(rt, alloc, list, &edit, want);
}

/// The edit that a line says.
fn edit_of(alloc: Global, line: &[u8]) -> Option<Edit> {
    match parse_line(alloc, Version::One, line).ok()? {
        Line::Change(edit) => Some(edit),
        Line::Question(_query) => None,
        Line::Silent => None,
    }
}

fn expect_edit(rt: &impl Abort, alloc: Global, list: &mut Standing, edit: &Edit, want: &str) {
    expect(rt, &told(alloc, list, edit), want);
}

/// Makes the edit where it is let through. It is told `ok` and the names that fall, or why it is
/// refused.
fn told(alloc: Global, list: &mut Standing, edit: &Edit) -> Result<Seq<u8>, NoMemory> {
    match list.check(edit) {
        Ok(()) => made(alloc, list, edit),
        Err(refusal) => reply_no(alloc, 1, &refusal),
    }
}

fn made(alloc: Global, list: &mut Standing, edit: &Edit) -> Result<Seq<u8>, NoMemory>
    requires { list_cause list.old.present edit.now ≡ None }
{
    match edit {
        Edit::Add(premise) => {
            list.add(alloc, premise)?;
            ok(alloc, &[])
        }
        Edit::Erase(name) => ok(alloc, list.erase(alloc, *name)?.items()),
        Edit::Horizon(_) | Edit::Upgrade => ok(alloc, &[]),
    }
}

/// The word `ok`, and the names.
fn ok(alloc: Global, names: &[Name]) -> Result<Seq<u8>, NoMemory> {
    let mut text = Seq::make(alloc);
    text.extend(b"ok")?;
    for name in names {
        text.extend(b" ")?;
        text.extend(name.bytes())?;
    }
    Ok(text)
}

/// Names that are taken, unknown or of another sort than is wanted.
const SORTS: &[(&str, &str)] = &[
    ("class door open shut", "ok"),
    ("class door x y", "1 no taken door\n"),
    ("class x t x", "1 no taken x\n"),
    ("class x t t", "1 no taken t\n"),
    ("event if x", "1 no taken if\n"),
    ("kind go", "ok"),
    ("event e x", "1 no unknown x\n"),
    ("event e door", "1 no sort door\n"),
    ("event e start", "1 no sort start\n"),
    ("event e go", "ok"),
    ("token t go", "1 no sort go\n"),
    ("token t open", "ok"),
    ("span s shut", "ok"),
    ("dist d e.end x.end 0 *", "1 no sort e.end\n"),
    ("dist d s.end x.end 0 *", "1 no unknown x.end\n"),
    ("dist d start go 0 *", "1 no sort go\n"),
    ("dist d e s.end 0 *", "ok"),
    ("rule r open 1 * x if shut", "1 no sort open\n"),
    ("rule r go 1 * door if x", "1 no sort door\n"),
    ("rule r go 1 * shut if go", "1 no sort go\n"),
    ("rule r go 1 * shut if open", "ok"),
    ("tmm 2", "1 no form\n"),
];

/// The seven premises that were let through are erased, with what mentions them, and a name is free
/// again.
const ERASURES: &[(&str, &str)] = &[
    ("erase open", "1 no sort open\n"),
    ("erase s", "ok s d"),
    ("erase go", "ok go e r"),
    ("erase door", "ok door t"),
    ("class e door x", "ok"),
];

#[test]
fn names_are_sorted_and_erased(rt: HostRuntime) {
    let mut list = Standing::make(rt.alloc());
    expect_sorts(&rt, rt.alloc(), &mut list);
}

fn expect_sorts(rt: &impl Abort, alloc: Global, list: &mut Standing) {
    expect_lines(rt, alloc, list, SORTS);
    expect_seven(rt, list);
    list.commit();
    expect_lines(rt, alloc, list, ERASURES);
    list.set_horizon(5);
    list.rollback();
    expect_seven(rt, list);
    assert!(rt; list.horizon() == 1000);
}

/// What is found in the list of the seven premises.
fn expect_seven(rt: &impl Abort, list: &Standing) {
    assert!(rt; list.len() == 7);
    assert!(rt; list.at(6).is_some());
    assert!(rt; list.at(7).is_none());
    assert!(rt; list.get(name("e")).is_some());
    assert!(rt; list.get(name("shut")).is_none());
    assert!(rt; list.class_of(name("shut")) == Some(name("door")));
}

#[test]
fn points_and_premises_have_limits(rt: HostRuntime) {
    let mut list = Standing::make(rt.alloc());
    expect_limits(&rt, rt.alloc(), &mut list);
}

fn expect_limits(rt: &impl Abort, alloc: Global, list: &mut Standing) {
    for i in 0..255 {
        expect_point(rt, alloc, list, i, "ok");
    }
    expect_point(rt, alloc, list, 255, "1 no limit points\n");
    for i in 255..2000 {
        expect_kind(rt, alloc, list, i, "ok");
    }
    expect_kind(rt, alloc, list, 2000, "1 no limit premises\n");
}

fn expect_point(rt: &impl Abort, alloc: Global, list: &mut Standing, i: u16, want: &str) {
    let point = Premise::Point { name: numbered(i) };
    expect_edit(rt, alloc, list, &Edit::Add(point), want);
}

fn expect_kind(rt: &impl Abort, alloc: Global, list: &mut Standing, i: u16, want: &str) {
    let kind = Premise::Kind { name: numbered(i) };
    expect_edit(rt, alloc, list, &Edit::Add(kind), want);
}

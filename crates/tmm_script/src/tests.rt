//! Lines as they are read and written.
mod data;

use super::*;
use std::alloc::Global;
use std::process::Abort;
use std::test::Fail;
use tmm_model::{Edit, Line, Mode, ModeLine, NoMemory, Refusal, Seq, Stop, Version};

fn told(alloc: Global, version: Version, line: &[u8]) -> &'static str {
    match parse_line(alloc, version, line) {
        Ok(Line::Silent) => "silent",
        Ok(Line::Change(Edit::Add(_))) => "premise",
        Ok(Line::Change(_)) => "change",
        Ok(Line::Question(_)) => "question",
        Err(Stop::Refused(Refusal::LimitLine)) => "limit",
        Err(Stop::Refused(_)) => "form",
        Err(Stop::NoMemory) => "memory",
    }
}

#[test]
fn lines_are_read(rt: HostRuntime) {
    let alloc = rt.alloc();
    for line in data::CHANGES.split(|b| *b == b'\n') {
        assert_eq!(rt; told(alloc, Version::One, line), "change");
    }
    for line in data::QUESTIONS.split(|b| *b == b'\n') {
        assert_eq!(rt; told(alloc, Version::One, line), "question");
    }
    for line in data::REFUSED.split(|b| *b == b'\n') {
        assert_eq!(rt; told(alloc, Version::One, line), "form");
    }
}

#[test]
fn lines_of_version_2_are_read(rt: HostRuntime) -> Result<(), Fail> {
    let alloc = rt.alloc();
    for line in data::PREMISES_OF_2.split(|b| *b == b'\n') {
        let mut out = Seq::make(alloc);
        print_again(alloc, Version::Two, line, &mut out)?;
        assert_eq!(rt; out.items(), line);
    }
    for line in data::REFUSED_OF_2.split(|b| *b == b'\n') {
        assert_eq!(rt; told(alloc, Version::Two, line), "form");
    }
    assert_eq!(rt; told(alloc, Version::One, b"tmm 2"), "change");
    assert_eq!(rt;
        told(alloc, Version::One, b"rule r t 1 1 x unless g"),
        "form"
    );
    assert_eq!(rt; told(alloc, Version::One, b"against a f g"), "form");
    Ok(())
}

// Prints the premise that a line adds; nothing where it adds none.
fn print_added(alloc: Global, line: &Line, out: &mut Seq<u8>) -> Result<(), NoMemory> {
    let Line::Change(Edit::Add(premise)) = line else {
        return Ok(());
    };
    print_premise(alloc, premise, out)
}

// Reads a line, and prints the premise that it adds.
fn print_again(
    alloc: Global,
    version: Version,
    line: &[u8],
    out: &mut Seq<u8>,
) -> Result<(), NoMemory> {
    match parse_line(alloc, version, line) {
        Ok(read) => print_added(alloc, &read, out),
        Err(_) => Ok(()),
    }
}

#[test]
fn premises_are_read_and_printed(rt: HostRuntime) -> Result<(), Fail> {
    for line in data::PREMISES.split(|b| *b == b'\n') {
        let mut out = Seq::make(rt.alloc());
        print_again(rt.alloc(), Version::One, line, &mut out)?;
        assert_eq!(rt; out.items(), line);
    }
    Ok(())
}

#[test]
fn blanks_part_words(rt: HostRuntime) {
    let alloc = rt.alloc();
    for (line, wanted) in [
        (b"".as_slice(), "silent"),
        (b" \t\r".as_slice(), "silent"),
        (b"\t #dist".as_slice(), "silent"),
        (b"\r\tkind \t\r T\r".as_slice(), "premise"),
        (b"kind\x0bT".as_slice(), "form"),
        (b"kind\x00 T".as_slice(), "form"),
        (b"kind T\xc3\xa9".as_slice(), "form"),
        (b"\xff".as_slice(), "form"),
        (b"kind T #".as_slice(), "form"),
    ] {
        assert_eq!(rt; told(alloc, Version::One, line), wanted);
    }
}

// Whether a line that begins so, and goes on with blanks up to this length, is told as this.
fn is_told(
    rt: &impl Abort,
    alloc: Global,
    start: &[u8],
    length: usize,
    wanted: &str,
) -> Result<(), Fail> {
    let mut line = Vec::new(alloc);
    line.extend_from_slice(start)?;
    line.resize(length, b' ')?;
    assert_eq!(rt; told(alloc, Version::One, line.as_slice()), wanted);
    Ok(())
}

#[test]
fn long_lines_are_refused(rt: HostRuntime) -> Result<(), Fail> {
    for (start, length, wanted) in [
        (b"".as_slice(), 400, "silent"),
        (b"".as_slice(), 401, "limit"),
        (b"kind T".as_slice(), 400, "premise"),
        (b"kind T".as_slice(), 401, "limit"),
    ] {
        is_told(&rt, rt.alloc(), start, length, wanted)?;
    }
    Ok(())
}

#[test]
fn lines_of_modes_are_read(rt: HostRuntime) {
    for (mode, line, wanted) in [
        (Mode::Suppose, b" keep ".as_slice(), Some(ModeLine::Keep)),
        (Mode::Suppose, b"keep now", None),
        (Mode::Agents, b"commit", None),
        (Mode::Repairs, b"timeline", None),
        (Mode::Timeline, b"timeline", Some(ModeLine::Timeline)),
    ] {
        assert_eq!(rt; mode_line(mode, line), wanted);
    }
    assert!(rt;
        matches!(
            mode_line(Mode::Agents, b" @p  point a"),
            Some(ModeLine::Hold { rest: 3, .. })
        )
    );
}

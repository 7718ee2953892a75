//! Words as they are found and read.
use super::*;
use std::test::Fail;

#[test]
fn words_stand_at_places(rt: HostRuntime) {
    let line = b" ab\t\rc";
    for (from, word) in [(0, Some((1, 3))), (3, Some((5, 6))), (6, None)] {
        assert_eq!(rt; next_word(line, from), word);
    }
}

#[test]
fn occurrences_are_read(rt: HostRuntime) -> Result<(), Fail> {
    let alloc = rt.alloc();
    for word in [b"".as_slice(), b"e/", b"/r", b"e//r", b"e/r.end", b"e/1"] {
        assert!(rt; occ(alloc, word).ok().ok_or("memory")?.is_none());
    }
    let read = occ(alloc, b"e/r/s").ok().ok_or("memory")?.ok_or("none")?;
    assert_eq!(rt; read.root.bytes(), b"e".as_slice());
    assert_eq!(rt; read.rules.items().len(), 2);
    for (rule, wanted) in read.rules.items().iter().zip([b"r", b"s"]) {
        assert_eq!(rt; rule.bytes(), wanted.as_slice());
    }
    Ok(())
}

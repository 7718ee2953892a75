//! Numbers under names, each in the order in which it came.
use super::*;
use std::test::Fail;

fn name(word: &str) -> Name {
    Name::of(word.as_bytes()).unwrap_or_default()
}

#[test]
fn numbers_under_names(rt: HostRuntime) -> Result<(), Fail> {
    let alloc = rt.alloc();
    let mut lists = NameLists::make(alloc);
    assert!(rt; lists.of(&name("door")).is_empty());
    for (word, number) in [
        ("door", 7),
        ("doors", 4),
        ("door", 9),
        ("lamp", 7),
        ("doors", 1),
        ("door", 7),
    ] {
        lists.push(alloc, name(word), number)?;
    }
    let want: &[(&str, &[u32])] = &[
        ("door", &[7, 9, 7]),
        ("doors", &[4, 1]),
        ("lamp", &[7]),
        ("doo", &[]),
        ("window", &[]),
    ];
    for (word, numbers) in want {
        assert_eq!(rt; lists.of(&name(word)), *numbers, "under {word}");
    }
    Ok(())
}

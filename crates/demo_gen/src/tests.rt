//! Lines of the generated script.
use super::*;
use std::test::Fail;

#[test]
fn lines_are_placed(rt: HostRuntime) -> Result<(), Fail> {
    let lines: [(u32, u32, &[u8]); 12] = [
        (1, 0, b"class m idle busy"),
        (1, 7, b"dist z start k 0 0"),
        (1, 8, b"event e0 go"),
        (1, 9, b"dist a0 start e0 10 10"),
        (1, 10, b"ask idle e0 e0"),
        (1, 11, b"size"),
        (100, 187, b"ask idle e59 e59"),
        (100, 188, b"erase e0"),
        (100, 190, b"dist a60 start e60 10 10"),
        (1000, 3946, b"dist a999 start e999 400 400"),
        (1000, 3947, b"ask idle e999 e999"),
        (1000, 3948, b"size"),
    ];
    for (n, i, expected) in lines {
        let line = line_of(n, i).ok_or("none")?;
        assert_eq!(rt; line.as_slice(), expected);
    }
    Ok(())
}

#[test]
fn nothing_stands_past_the_end(rt: HostRuntime) {
    assert_eq!(rt; line_of(1, 12).is_none(), true);
    assert_eq!(rt; line_of(1000, 3949).is_none(), true);
}

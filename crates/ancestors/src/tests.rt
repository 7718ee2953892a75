//! A small forest.
use super::*;
use std::test::Fail;

// 0 with 1 and 2 below it, 3 and 4 below 1; and 5 alone
struct Sample;

impl Ancestry for Sample {
    ghost use Rattle.ancestors.specs.Sample.{way_to, ends_with};

    ghost way = { λ s. way_to };

    fn depth(&self, x: u32) -> u32 {
        match x {
            0 | 5 => 0,
            1 | 2 => 1,
            _ => 2,
        }
    }

    fn parent(&self, x: u32) -> u32 {
        match x {
            1 | 2 => 0,
            _ => 1,
        }
    }

    fn jump(&self, x: u32) -> u32 {
        match x {
            1 | 2 => 0,
            3 | 4 => 1,
            _ => x,
        }
    }

    ghost ends = { λ s. ends_with };
}

#[test]
fn nodes_share_what_is_above_both(rt: HostRuntime) -> Result<(), Fail> {
    for (x, y, shared) in [
        (3, 4, Some(1)),
        (4, 3, Some(1)),
        (3, 2, Some(0)),
        (1, 4, Some(1)),
        (4, 4, Some(4)),
        (0, 3, Some(0)),
        (3, 5, None),
        (5, 2, None),
    ] {
        assert_eq!(rt; lowest_common(&Sample, x, y), shared);
    }
    Ok(())
}

#[test]
fn a_node_has_one_ancestor_of_a_depth(rt: HostRuntime) -> Result<(), Fail> {
    assert_eq!(rt; ancestor_at(&Sample, 4, 0), 0);
    assert_eq!(rt; ancestor_at(&Sample, 4, 1), 1);
    assert_eq!(rt; ancestor_at(&Sample, 4, 2), 4);
    Ok(())
}

#[test]
fn two_jumps_of_one_length_are_taken_at_once(rt: HostRuntime) -> Result<(), Fail> {
    // a node below 3 is of depth 3: from 3 to 1 and on to 0 is 1 each
    assert_eq!(rt; jump_below(&Sample, 3), 0);
    // one below 1 is of depth 2: from 1 to 0 is 1, and from 0 nothing
    assert_eq!(rt; jump_below(&Sample, 1), 1);
    assert_eq!(rt; jump_below(&Sample, 5), 5);
    Ok(())
}

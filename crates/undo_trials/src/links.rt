//! A row taken out, put back and taken off again.
ghost use Rattle.std.specs.Prelude.{◌≡◌, []};

use row_links::Links;
use std::alloc::Global;
use std::process::Abort;

#[test]
fn a_row_goes_back_into_its_gap(rt: HostRuntime) {
    let mut links = Links::make(rt.alloc());
    expect_gap(&rt, rt.alloc(), &mut links);
}

fn expect_gap(rt: &impl Abort, alloc: Global, links: &mut Links<2>)
    requires { links.old ≡ [] }
{
    links
        .reserve_rows(3, &[Some(0), Some(0)])
        .expect(rt, "memory");
    links.link_last(1, 0, 2);
    assert_eq!(rt; links.first(1, 0), Some(2));
    let gap = links.unlink(1, 2);
    assert_eq!(rt; links.first(1, 0), None);
    links.relink(1, gap, 2);
    assert_eq!(rt; links.next(1, 2), None);
    let other = links.copy(alloc).expect(rt, "memory");
    links.undo_link(1, 0, 2);
    assert_eq!(rt; links.first(1, 0), None);
    assert_eq!(rt; other.first(1, 0), Some(2));
}

ghost use Rattle.geo_rect.specs.Plane.{IsBounded};

use geo_rect::{LayerId, Rect};
use route_law::{Entry, Origin};
use std::alloc::Global;
use std::test::Fail;
use wavefront::{Queue, Table};

/// A front that is its whole strip, known by its cost.
fn front(cost: u128, strip: Rect) -> Entry
    requires { IsBounded strip }
    ensures { IsBounded result.front }
{
    Entry {
        layer: LayerId(0),
        strip,
        front: strip,
        cost,
        origin: Origin::Source(0),
    }
}

#[test]
fn the_first_pushed_goes_first_among_equal_keys(rt: HostRuntime) -> Result<(), Fail> {
    let strip = Rect::new(0, 0, 9, 0);
    let mut queue = Queue::new(rt.alloc());
    queue.push(7, front(1, strip))?;
    queue.push(5, front(2, strip))?;
    queue.push(5, front(3, strip))?;
    assert_eq!(rt; queue.len(), 3);
    assert_eq!(rt; queue.pop(), Some((5, front(2, strip))));
    assert_eq!(rt; queue.pop(), Some((5, front(3, strip))));
    assert_eq!(rt; queue.pop(), Some((7, front(1, strip))));
    assert_eq!(rt; queue.pop(), None);
    assert_eq!(rt; queue.is_empty(), true);
    Ok(())
}

#[test]
fn a_settled_front_covers_what_it_reaches_in_time(rt: HostRuntime) -> Result<(), Fail> {
    let strip = Rect::new(0, 0, 9, 0);
    let end = Rect::new(9, 0, 9, 0);
    let start = Entry {
        front: Rect::new(2, 0, 3, 0),
        ..front(10, strip)
    };
    let mut table = Table::new(rt.alloc());
    assert_eq!(rt; table.settle(start)?, 0);
    assert_eq!(rt; table.settle(front(50, end))?, 1);
    assert_eq!(rt; table.settle(front(40, strip))?, 2);
    assert_eq!(rt; table.covered(LayerId(0), strip, end, 16), true);
    assert_eq!(rt; table.covered(LayerId(0), strip, end, 15), false);
    assert_eq!(rt; table.covered(LayerId(1), strip, end, 16), false);
    assert_eq!(rt; table.covered(LayerId(0), end, end, 49), false);
    assert_eq!(rt; table.entries().len(), 3);
    Ok(())
}

ghost use Rattle.std.specs.Prelude.{◌≡◌, ◌≤◌, ◌<◌, IfOk};
ghost use Rattle.board_gen.specs.Generated.{from_on, area_at, block_of, partner, pin_at};

use board_model::{Block, Pin};
use geo_rect::{Interval, LayerId, NetId, Rect};

/// The numbers from `start` on, up to `length` more. Micrometres.
fn from_on(start: u32, length: u32) -> Interval
    requires start { start ≤ 1000000 }
    requires length { length ≤ 1000000 }
    ensures { result ≡ from_on start length }
{
    Interval {
        low: start as i32,
        high: (start + length) as i32,
    }
}

/// The rectangle with this lower left corner, of this width and height. Micrometres.
fn area_at(x: u32, y: u32, width: u32, height: u32) -> Rect
    requires x { x ≤ 1000000 }
    requires y { y ≤ 1000000 }
    requires width { width ≤ 1000000 }
    requires height { height ≤ 1000000 }
    ensures { result ≡ area_at x y width height }
{
    Rect::of(from_on(x, width), from_on(y, height))
}

/// The blockage in the row of net `i`, from 1.
pub fn block_of(i: u32) -> Block
    requires { i ≤ 2000 }
    ensures { result ≡ block_of i }
{
    Block {
        layer: LayerId(0),
        area: area_at(2000 + (7001 * i) % 16000, 100 * i + 60, 200, 20),
    }
}

/// The row of the right pin of net `i` of `n`.
pub fn partner(n: u32, i: u32) -> u32
    requires some { 1 ≤ i }
    requires few { i ≤ 2000 }
    ensures { result ≡ partner n i }
{
    if i % 2 == 0 {
        return i - 1;
    }
    if i < n { i + 1 } else { i }
}

/// The pin of net `i`, from 1, at this column and in this row.
pub fn pin_at(i: u32, x: u32, row: u32) -> Pin
    requires some { 1 ≤ i }
    requires x { x ≤ 20000 }
    requires row { row ≤ 2001 }
    ensures { result ≡ pin_at i x row }
{
    Pin {
        net: NetId(i - 1),
        area: area_at(x, 100 * row, 40, 40),
        first: LayerId(0),
        last: LayerId(0),
    }
}

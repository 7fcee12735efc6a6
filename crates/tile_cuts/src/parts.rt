//! A tile's area in two parts, and two areas as one.
ghost use Rattle.std.specs.Prelude.{◌≡◌, ◌≤ℤ◌, ◌<ℤ◌};
ghost use Rattle.geo_rect.specs.declared.shapes.Rect.{Rect as Area};
ghost use Rattle.stitch_walk.specs.Pieces.{IsSplit, AreStacked, AreInLine};
ghost use Rattle.tile_cuts.specs.Parts.{ArePartsOf};

use geo_rect::{Interval, Rect};

/// The lower or left part of a rectangle, and its upper or right part.
#[derive(Clone, Copy)]
pub struct Parts {
    pub first: Rect,
    pub second: Rect,
}

/// The lower part of an interval, and its upper part.
#[derive(Clone, Copy)]
struct Halves {
    first: Interval,
    second: Interval,
}

/// The numbers below `at`, and those from `at` on.
fn split(whole: Interval, at: i32) -> Halves
    requires after_first { whole.low <ℤ at }
    requires to_last { at ≤ℤ whole.high }
    ensures halves { IsSplit result.first result.second whole }
    ensures begins { result.second.low ≡ at }
{
    Halves {
        first: Interval {
            low: whole.low,
            high: at - 1,
        },
        second: Interval {
            low: at,
            high: whole.high,
        },
    }
}

/// The rows below `y`, and those from `y` on.
pub fn split_rows(whole: Rect, y: i32) -> Parts
    requires after_first { whole.y0 <ℤ y }
    requires to_last { y ≤ℤ whole.y1 }
    ensures parts { AreStacked result.first result.second whole }
    ensures begins { result.second.y0 ≡ y }
{
    let halves = split(whole.rows(), y);
    Parts {
        first: Rect::of(whole.columns(), halves.first),
        second: Rect::of(whole.columns(), halves.second),
    }
}

/// The columns left of `x`, and those from `x` on.
pub fn split_columns(whole: Rect, x: i32) -> Parts
    requires after_first { whole.x0 <ℤ x }
    requires to_last { x ≤ℤ whole.x1 }
    ensures parts { AreInLine result.first result.second whole }
    ensures begins { result.second.x0 ≡ x }
{
    let halves = split(whole.columns(), x);
    Parts {
        first: Rect::of(halves.first, whole.rows()),
        second: Rect::of(halves.second, whole.rows()),
    }
}

/// The rectangle that the two parts are together.
pub fn join_areas(first: Rect, second: Rect) -> Rect
    requires { (whole : Area) × ArePartsOf first second whole }
    ensures { ArePartsOf first second result }
{
    Rect::new(first.x0, first.y0, second.x1, second.y1)
}

//! Questions about rectangles whose answers are tests.
ghost use Rattle.std.specs.Prelude.{◌↔◌, IsTrue, IfSome, IfNone};
ghost use Rattle.geo_rect.specs.declared.shapes.Rect.{Rect as Area};
ghost use Rattle.geo_rect.specs.Axis.{HasNumber, LiesWithin};
ghost use Rattle.geo_rect.specs.Images.{IsClamped};
ghost use Rattle.geo_rect.specs.Plane.{HasPoint, LiesIn, IsMeet};
ghost use Rattle.route_law.specs.Moves.{IsMeetOfThree};

use geo_rect::{Interval, Point, Rect, clamp, meet, same_rect};

/// Whether every number of `a` is one of `b`.
fn lies_within(a: Interval, b: Interval) -> bool
    ensures { IsTrue result ↔ LiesWithin a b }
{
    if a.low < b.low {
        return false;
    }
    a.high <= b.high
}

/// Whether each point of `a` is one of `b`.
pub fn lies_in(a: Rect, b: Rect) -> bool
    ensures { IsTrue result ↔ LiesIn a b }
{
    if !lies_within(a.columns(), b.columns()) {
        return false;
    }
    lies_within(a.rows(), b.rows())
}

/// The lower left point.
pub fn corner(r: Rect) -> Point
    ensures { HasPoint r result }
{
    Point { x: r.x0, y: r.y0 }
}

/// Whether `p` is one of the points of `r`.
pub fn has_point(r: Rect, p: Point) -> bool
    ensures { IsTrue result ↔ HasPoint r p }
{
    lies_in(Rect::new(p.x, p.y, p.x, p.y), r)
}

/// Whether `r` has exactly the points that `a` and `b` share.
pub fn is_meet(a: Rect, b: Rect, r: Rect) -> bool
    ensures { IsTrue result ↔ IsMeet a b r }
{
    let Some(common) = meet(a, b) else {
        return false;
    };
    same_rect(common, r)
}

/// The common points of all three; `None` where there are none.
pub fn meet_of_three(a: Rect, b: Rect, c: Rect) -> Option<Rect>
    ensures some { IfSome result (λ r. IsMeetOfThree a b c r) }
    ensures none { IfNone result ((r : Area) → IsMeetOfThree a b c r → ⊥) }
{
    let shared = meet(a, b)?;
    meet(shared, c)
}

/// Whether `r` has exactly the images of the points of `b` under clamping into `e`.
pub fn is_clamped(b: Rect, e: Rect, r: Rect) -> bool
    ensures { IsTrue result ↔ IsClamped b e r }
{
    same_rect(clamp(b, e), r)
}

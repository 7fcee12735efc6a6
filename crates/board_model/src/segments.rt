//! The rectangles of wires and vias. All lengths are whole micrometres.

ghost use Rattle.std.specs.Prelude.{◌≡◌};
ghost use Rattle.geo_rect.specs.Axis.{IsGap};
ghost use Rattle.geo_rect.specs.Plane.{square};
ghost use Rattle.board_model.specs.Segments.{stretch, segment};
ghost use Rattle.board_model.specs.Shapes.{place_of};
ghost use Rattle.board_model.specs.WellFormed.{IsCoordinate, IsPlace};

use geo_rect::{Interval, Node, Rect};

/// From `half` before the lower of two coordinates to `half` after the higher.
fn stretch(u: i32, v: i32, half: i32) -> Interval
    requires first { IsCoordinate u }
    requires second { IsCoordinate v }
    requires half { IsGap half }
    ensures { result ≡ stretch u v half }
{
    Interval {
        low: u.min(v) - half,
        high: u.max(v) + half,
    }
}

/// The rectangle of a wire of this half width in a line from one node to another.
pub fn segment(from: Node, to: Node, half: i32) -> Rect
    requires from { IsPlace (place_of from) }
    requires to { IsPlace (place_of to) }
    requires half { IsGap half }
    ensures { result ≡ segment (place_of from) (place_of to) half }
{
    let across = stretch(from.x, to.x, half);
    let up = stretch(from.y, to.y, half);
    Rect::of(across, up)
}

/// The square of this half width round a node.
pub fn square(middle: Node, half: i32) -> Rect
    requires middle { IsPlace (place_of middle) }
    requires half { IsGap half }
    ensures { result ≡ square (place_of middle) half }
{
    segment(middle, middle, half)
}

ghost use Rattle.std.specs.Prelude.{◌≡◌, ◌≤ℤ◌};

/// A point: whole micrometres from the left and from below.
#[derive(Clone, Copy, PartialEq, Eq)]
pub struct Point {
    pub x: i32,
    pub y: i32,
}

/// The whole numbers from `low` to `high`, both included: what a rectangle is on one axis.
#[derive(Clone, Copy, PartialEq, Eq)]
pub struct Interval {
    pub low: i32,
    pub high: i32,
    pub ghost ordered: { low ≤ℤ high },
}

/// The whole points with `x0 <= x <= x1` and `y0 <= y <= y1`, and as a shape the closed rectangle
/// with these corners. Whole micrometres.
#[derive(Clone, Copy, Debug, PartialEq, Eq)]
pub struct Rect {
    pub x0: i32,
    pub y0: i32,
    pub x1: i32,
    pub y1: i32,
    pub ghost x_ordered: { x0 ≤ℤ x1 },
    pub ghost y_ordered: { y0 ≤ℤ y1 },
}

impl Rect {
    ghost use Rattle.geo_rect.specs.Plane.{columns, rows, rect_of};

    /// The rectangle with these corners. It requires that they are in order.
    pub fn new(x0: i32, y0: i32, x1: i32, y1: i32) -> Rect
        requires x_ordered { x0 ≤ℤ x1 }
        requires y_ordered { y0 ≤ℤ y1 }
        ensures x0 { result.x0 ≡ x0 }
        ensures y0 { result.y0 ≡ y0 }
        ensures x1 { result.x1 ≡ x1 }
        ensures y1 { result.y1 ≡ y1 }
    {
        Rect { x0, y0, x1, y1 }
    }

    /// The columns of the rectangle.
    pub fn columns(self) -> Interval
        ensures { result ≡ columns self }
    {
        Interval {
            low: self.x0,
            high: self.x1,
        }
    }

    /// The rows of the rectangle.
    pub fn rows(self) -> Interval
        ensures { result ≡ rows self }
    {
        Interval {
            low: self.y0,
            high: self.y1,
        }
    }

    /// The rectangle of these columns and rows.
    pub fn of(across: Interval, up: Interval) -> Rect
        ensures { result ≡ rect_of across up }
    {
        Rect {
            x0: across.low,
            y0: up.low,
            x1: across.high,
            y1: up.high,
        }
    }
}

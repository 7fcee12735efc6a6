ghost use Rattle.std.specs.Prelude.{◌≡◌};
ghost use Rattle.geo_rect.specs.Distance.{apart, IsAway};
ghost use Rattle.geo_rect.specs.Plane.{HasPoint, lone};
ghost use Rattle.board_model.specs.Shapes.{place_of};
ghost use Rattle.path_trace.specs.Paths.{node_at, bend};

use geo_rect::{Interval, LayerId, Node, Point, Rect, clamp};

/// Where a node stands on its layer.
pub fn place_of(v: Node) -> Point
    ensures { result ≡ place_of v }
{
    Point { x: v.x, y: v.y }
}

/// The node on a layer at a place.
pub fn node_at(layer: LayerId, p: Point) -> Node
    ensures { result ≡ node_at layer p }
{
    Node {
        x: p.x,
        y: p.y,
        layer,
    }
}

/// The place in the row of `p` and the column of `v`.
pub fn bend(p: Point, v: Node) -> Point
    ensures { result ≡ bend p v }
{
    Point { x: v.x, y: p.y }
}

/// The one number `v`.
fn just(v: i32) -> Interval
    ensures low { result.low ≡ v }
    ensures high { result.high ≡ v }
{
    Interval { low: v, high: v }
}

/// The one point `p` as a rectangle.
fn lone(p: Point) -> Rect
    ensures { result ≡ lone p }
{
    Rect::of(just(p.x), just(p.y))
}

/// The lower left point of a rectangle.
fn corner(r: Rect) -> Point
    ensures { HasPoint r result }
{
    Point { x: r.x0, y: r.y0 }
}

/// The point of `area` that is nearest to `p`.
pub fn nearest(area: Rect, p: Point) -> Point
    ensures inside { HasPoint area result }
    ensures away { IsAway area p (apart result p) }
{
    corner(clamp(lone(p), area))
}

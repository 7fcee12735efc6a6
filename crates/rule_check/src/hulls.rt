//! Rectangles that runs of shapes lie in.

ghost use Rattle.std.specs.Prelude.{◌<◌, length, IfOk};
ghost use Rattle.geo_rect.specs.Axis.{LiesWithin};
ghost use Rattle.geo_rect.specs.Plane.{LiesIn};
ghost use Rattle.rule_check.specs.Hulls.{AllLieIn, AreHulls};

use board_model::Shape;
use geo_rect::{Interval, List, NoMemory, Rect};
use std::alloc::Global;

/// The least interval that has all numbers of both.
fn spanned(a: Interval, b: Interval) -> Interval
    ensures first { LiesWithin a result }
    ensures second { LiesWithin b result }
{
    Interval {
        low: a.low.min(b.low),
        high: a.high.max(b.high),
    }
}

/// The least rectangle that has all points of both.
fn joined(a: Rect, b: Rect) -> Rect
    ensures first { LiesIn a result }
    ensures second { LiesIn b result }
{
    let across = spanned(a.columns(), b.columns());
    let up = spanned(a.rows(), b.rows());
    Rect::of(across, up)
}

/// The least rectangle that the shapes lie in.
fn hull(run: &[Shape]) -> Rect
    requires { 0 < length run.now }
    ensures { AllLieIn result run.now }
{
    let mut hull = run[0].area;
    for shape in run {
        hull = joined(hull, shape.area);
    }
    hull
}

/// The hulls of the runs of this length that the list is cut into from its beginning. A shorter one
/// at its end has none.
pub fn hulls(alloc: Global, shapes: &[Shape], size: usize) -> Result<List<Rect>, NoMemory>
    requires { 0 < size }
    ensures { IfOk result (λ hulls. AreHulls shapes.now size hulls) }
{
    let mut hulls = List::new(alloc);
    let mut place = 0;
    while size <= shapes.len() - place {
        hulls.push(hull(&shapes[place..place + size]))?;
        place += size;
    }
    Ok(hulls)
}

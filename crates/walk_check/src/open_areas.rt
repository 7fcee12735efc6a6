//! What of a plane is open to a net.

ghost use Rattle.std.specs.Prelude.{◌↔◌, All, IfOk, IsTrue};
ghost use Rattle.geo_rect.specs.Axis.{HasNumber, LiesWithin};
ghost use Rattle.geo_rect.specs.Plane.{columns, rows, HasPoint, LiesIn};
ghost use Rattle.board_model.specs.Labels.{Admits};
ghost use Rattle.walk_check.specs.Clear.{IsOpenAt, IsOpenIn};

use geo_rect::{Interval, NetId, NoMemory, Point, Rect};
use plane_core::{Plane, Strip};
use std::alloc::Global;
use strip_moves::admits;

/// Whether the point lies in the columns of `r`.
fn has_column(r: Rect, p: Point) -> bool
    ensures { IsTrue result ↔ HasNumber (columns r) p.x }
{
    if p.x < r.x0 {
        return false;
    }
    if p.x > r.x1 {
        return false;
    }
    true
}

/// Whether the point lies in the rows of `r`.
fn has_row(r: Rect, p: Point) -> bool
    ensures { IsTrue result ↔ HasNumber (rows r) p.y }
{
    if p.y < r.y0 {
        return false;
    }
    if p.y > r.y1 {
        return false;
    }
    true
}

/// Whether `r` has the point.
pub fn has_point(r: Rect, p: Point) -> bool
    ensures { IsTrue result ↔ HasPoint r p }
{
    if !has_column(r, p) {
        return false;
    }
    if !has_row(r, p) {
        return false;
    }
    true
}

/// Whether every number of `a` is one of `b`.
fn lies_within(a: Interval, b: Interval) -> bool
    ensures { IsTrue result ↔ LiesWithin a b }
{
    if a.low < b.low {
        return false;
    }
    if a.high > b.high {
        return false;
    }
    true
}

/// Whether each point of `a` is one of `b`.
fn lies_in(a: Rect, b: Rect) -> bool
    ensures { IsTrue result ↔ LiesIn a b }
{
    if !lies_within(a.columns(), b.columns()) {
        return false;
    }
    if !lies_within(a.rows(), b.rows()) {
        return false;
    }
    true
}

/// Whether the plane has the point, and its label there admits the net.
pub fn is_open_at<P: Plane>(plane: &P, net: NetId, p: Point) -> bool
    ensures { IsTrue result ↔ IsOpenAt (P.region plane.now) (P.strips plane.now) net p }
{
    if !has_point(plane.domain(), p) {
        return false;
    }
    admits(plane.strip_at(p).label, net)
}

/// Whether the plane has each point of the area, and each label there admits the net.
pub fn is_open_in<P: Plane>(
    alloc: Global,
    plane: &P,
    net: NetId,
    area: Rect,
) -> Result<bool, NoMemory>
    ensures { IfOk result (λ opened. IsTrue opened ↔ IsOpenIn (P.region plane.now) (P.strips plane.now) net area) }
{
    if !lies_in(area, plane.domain()) {
        return Ok(false);
    }
    let found = plane.strips_in(alloc, area)?;
    Ok(all_admit(found.as_slice(), net))
}

/// Whether the label of each of the strips admits the net.
fn all_admit(strips: &[Strip], net: NetId) -> bool
    ensures { IsTrue result ↔ All (λ s. Admits s.label net) strips.now }
{
    strips.iter().all(|strip| admits(strip.label, net))
}

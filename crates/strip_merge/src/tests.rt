ghost use Rattle.std.specs.Prelude.{◌↔◌, IsTrue};
ghost use Rattle.geo_rect.specs.Plane.{HasPoint, LiesIn};

use crate::StitchedPlane;
use geo_rect::{Label, NetId, NoMemory, Point, Rect};
use plane_core::{Plane, Side, Strip};
use std::alloc::Global;
use std::process::Abort;
use std::test::Fail;

const ONE: Label = Label::One(NetId(0));

fn has_point(r: Rect, p: Point) -> bool
    ensures { IsTrue result ↔ HasPoint r p }
{
    if p.x < r.x0 {
        return false;
    }
    if p.x > r.x1 {
        return false;
    }
    if p.y < r.y0 {
        return false;
    }
    if p.y > r.y1 {
        return false;
    }
    true
}

fn lies_in(area: Rect, domain: Rect) -> bool
    ensures { IsTrue result ↔ LiesIn area domain }
{
    if area.x0 < domain.x0 {
        return false;
    }
    if area.x1 > domain.x1 {
        return false;
    }
    if area.y0 < domain.y0 {
        return false;
    }
    if area.y1 > domain.y1 {
        return false;
    }
    true
}

fn strip(label: Label, area: Rect) -> Strip {
    Strip { area, label }
}

#[test]
fn a_fresh_plane_is_one_strip(rt: HostRuntime) -> Result<(), Fail> {
    let alloc = rt.alloc();
    let domain = Rect::new(0, 0, 9, 9);
    let whole = strip(Label::Free, domain);
    let plane = StitchedPlane::new(alloc, domain)?;
    let at = Point { x: 4, y: 5 };
    assert_eq!(rt; plane.domain(), domain);
    assert!(rt; has_point(plane.domain(), at));
    assert_eq!(rt; plane.strip_at(at), whole);
    for side in &[Side::Left, Side::Below, Side::Right, Side::Above] {
        assert!(rt; plane.beside(alloc, plane.strip_at(at), *side)?.is_empty());
    }
    Ok(())
}

/// Asserts that these are all strips of the plane, in order.
fn expect_all<P: Plane>(
    rt: &impl Abort,
    alloc: Global,
    plane: &P,
    strips: &[Strip],
) -> Result<(), NoMemory> {
    let domain = plane.domain();
    assert!(rt; lies_in(domain, domain));
    let found = plane.strips_in(alloc, domain)?;
    assert_eq!(rt; found.as_slice(), strips);
    Ok(())
}

fn painted<P: Plane>(
    rt: &impl Abort,
    alloc: Global,
    plane: P,
    paint: Strip,
) -> Result<P, NoMemory> {
    assert!(rt; lies_in(paint.area, plane.domain()));
    plane.paint(alloc, paint.area, paint.label)
}

fn two_painted<P: Plane>(rt: &impl Abort, alloc: Global) -> Result<P, NoMemory> {
    let plane = P::new(alloc, Rect::new(0, 0, 9, 9))?;
    let once = painted(rt, alloc, plane, strip(Label::Many, Rect::new(3, 3, 6, 6)))?;
    painted(rt, alloc, once, strip(ONE, Rect::new(5, 5, 9, 9)))
}

#[test]
fn paints_that_overlap_and_vanish(rt: HostRuntime) -> Result<(), Fail> {
    let overlapped = [
        strip(Label::Free, Rect::new(0, 0, 9, 2)),
        strip(Label::Free, Rect::new(0, 3, 2, 6)),
        strip(Label::Many, Rect::new(3, 3, 6, 4)),
        strip(Label::Free, Rect::new(7, 3, 9, 4)),
        strip(Label::Many, Rect::new(3, 5, 4, 6)),
        strip(ONE, Rect::new(5, 5, 9, 9)),
        strip(Label::Free, Rect::new(0, 7, 4, 9)),
    ];
    let cleared = strip(Label::Free, Rect::new(3, 3, 9, 9));
    let whole = [strip(Label::Free, Rect::new(0, 0, 9, 9))];
    let two: StitchedPlane = two_painted(&rt, rt.alloc())?;
    expect_all(&rt, rt.alloc(), &two, overlapped.as_slice())?;
    let none = painted(&rt, rt.alloc(), two, cleared)?;
    expect_all(&rt, rt.alloc(), &none, whole.as_slice())?;
    Ok(())
}

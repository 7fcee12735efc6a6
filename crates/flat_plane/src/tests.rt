ghost use Rattle.std.specs.Prelude.{◌↔◌, IsTrue};
ghost use Rattle.geo_rect.specs.Plane.{LiesIn};
ghost use Rattle.plane_core.specs.Labels.{IsSmall};

use crate::FlatPlane;
use crate::checks::has_point;
use geo_rect::{Label, List, NetId, NoMemory, Point, Rect};
use plane_core::{Plane, Side, Strip};
use std::alloc::Global;
use std::process::Abort;
use std::test::Fail;

type Row = (Label, i32, i32, i32, i32);

const ONE: Label = Label::One(NetId(0));

const OTHER: Label = Label::One(NetId(1));

fn lies_in(area: Rect, domain: Rect) -> bool
    ensures { IsTrue result ↔ LiesIn area domain }
{
    if area.x0 < domain.x0 {
        return false;
    }
    if area.x1 > domain.x1 {
        return false;
    }
    if area.y0 < domain.y0 {
        return false;
    }
    if area.y1 > domain.y1 {
        return false;
    }
    true
}

fn strip(rt: &impl Abort, row: Row) -> Strip {
    let (label, x0, y0, x1, y1) = row;
    assert!(rt; x0 <= x1);
    assert!(rt; y0 <= y1);
    Strip {
        area: Rect::new(x0, y0, x1, y1),
        label,
    }
}

fn strips(rt: &impl Abort, alloc: Global, rows: &[Row]) -> Result<List<Strip>, NoMemory> {
    let mut list = List::new(alloc);
    for row in rows {
        list.push(strip(rt, *row))?;
    }
    Ok(list)
}

fn fresh<P: Plane>(alloc: Global, domain: Rect) -> Result<P, NoMemory>
    requires { IsSmall domain }
{
    P::new(alloc, domain)
}

fn paint_all<P: Plane>(
    rt: &impl Abort,
    alloc: Global,
    plane: P,
    rows: &[Row],
) -> Result<P, NoMemory> {
    let mut painted = plane;
    for row in rows {
        let piece = strip(rt, *row);
        assert!(rt; lies_in(piece.area, painted.domain()));
        painted = painted.paint(alloc, piece.area, piece.label)?;
    }
    Ok(painted)
}

fn expect_all<P: Plane>(
    rt: &impl Abort,
    alloc: Global,
    plane: &P,
    rows: &[Row],
) -> Result<(), NoMemory> {
    let domain = plane.domain();
    assert!(rt; lies_in(domain, domain));
    let found = plane.strips_in(alloc, domain)?;
    let expected = strips(rt, alloc, rows)?;
    assert_eq!(rt; found.as_slice(), expected.as_slice());
    Ok(())
}

fn expect_beside<P: Plane>(
    rt: &impl Abort,
    alloc: Global,
    plane: &P,
    at: Point,
    side: Side,
    rows: &[Row],
) -> Result<(), NoMemory> {
    assert!(rt; has_point(plane.domain(), at));
    let found = plane.beside(alloc, plane.strip_at(at), side)?;
    let expected = strips(rt, alloc, rows)?;
    assert_eq!(rt; found.as_slice(), expected.as_slice());
    Ok(())
}

#[test]
fn a_board_painted_and_a_wall_taken_away(rt: HostRuntime) -> Result<(), Fail> {
    let alloc = rt.alloc();
    let plane = FlatPlane::new(alloc, Rect::new(0, 0, 40, 20))?;
    let frame = [
        (Label::Many, 0, 0, 40, 0),
        (Label::Many, 0, 20, 40, 20),
        (Label::Many, 0, 0, 0, 20),
        (Label::Many, 40, 0, 40, 20),
        (Label::Many, 16, 0, 24, 16),
        (ONE, 2, 7, 8, 13),
        (ONE, 32, 7, 38, 13),
    ];
    let board = paint_all(&rt, alloc, plane, frame.as_slice())?;
    let walled = [
        (Label::Many, 0, 0, 40, 0),
        (Label::Many, 0, 1, 0, 19),
        (Label::Free, 1, 1, 15, 6),
        (Label::Many, 16, 1, 24, 16),
        (Label::Free, 25, 1, 39, 6),
        (Label::Many, 40, 1, 40, 19),
        (Label::Free, 1, 7, 1, 13),
        (ONE, 2, 7, 8, 13),
        (Label::Free, 9, 7, 15, 13),
        (Label::Free, 25, 7, 31, 13),
        (ONE, 32, 7, 38, 13),
        (Label::Free, 39, 7, 39, 13),
        (Label::Free, 1, 14, 15, 16),
        (Label::Free, 25, 14, 39, 16),
        (Label::Free, 1, 17, 39, 19),
        (Label::Many, 0, 20, 40, 20),
    ];
    expect_all(&rt, alloc, &board, walled.as_slice())?;
    let open = paint_all(&rt, alloc, board, [(Label::Free, 16, 1, 24, 16)].as_slice())?;
    let cleared = [
        (Label::Many, 0, 0, 40, 0),
        (Label::Many, 0, 1, 0, 19),
        (Label::Free, 1, 1, 39, 6),
        (Label::Many, 40, 1, 40, 19),
        (Label::Free, 1, 7, 1, 13),
        (ONE, 2, 7, 8, 13),
        (Label::Free, 9, 7, 31, 13),
        (ONE, 32, 7, 38, 13),
        (Label::Free, 39, 7, 39, 13),
        (Label::Free, 1, 14, 39, 19),
        (Label::Many, 0, 20, 40, 20),
    ];
    expect_all(&rt, alloc, &open, cleared.as_slice())?;
    Ok(())
}

#[test]
fn paints_that_overlap_and_vanish(rt: HostRuntime) -> Result<(), Fail> {
    let alloc = rt.alloc();
    let plane = FlatPlane::new(alloc, Rect::new(0, 0, 9, 9))?;
    let paints = [(Label::Many, 3, 3, 6, 6), (ONE, 5, 5, 9, 9)];
    let two = paint_all(&rt, alloc, plane, paints.as_slice())?;
    let overlapped = [
        (Label::Free, 0, 0, 9, 2),
        (Label::Free, 0, 3, 2, 6),
        (Label::Many, 3, 3, 6, 4),
        (Label::Free, 7, 3, 9, 4),
        (Label::Many, 3, 5, 4, 6),
        (ONE, 5, 5, 9, 9),
        (Label::Free, 0, 7, 4, 9),
    ];
    expect_all(&rt, alloc, &two, overlapped.as_slice())?;
    let none = paint_all(&rt, alloc, two, [(Label::Free, 3, 3, 9, 9)].as_slice())?;
    expect_all(&rt, alloc, &none, [(Label::Free, 0, 0, 9, 9)].as_slice())?;
    Ok(())
}

#[test]
fn a_square_and_its_four_sides(rt: HostRuntime) -> Result<(), Fail> {
    let alloc = rt.alloc();
    let plane: FlatPlane = fresh(alloc, Rect::new(0, 0, 9, 9))?;
    let square = paint_all(&rt, alloc, plane, [(OTHER, 3, 3, 6, 6)].as_slice())?;
    let at = Point { x: 4, y: 5 };
    assert!(rt; has_point(square.domain(), at));
    assert_eq!(rt; square.strip_at(at), strip(&rt, (OTHER, 3, 3, 6, 6)));
    let sides = [
        (Side::Left, (Label::Free, 0, 3, 2, 6)),
        (Side::Below, (Label::Free, 0, 0, 9, 2)),
        (Side::Right, (Label::Free, 7, 3, 9, 6)),
        (Side::Above, (Label::Free, 0, 7, 9, 9)),
    ];
    for (side, row) in &sides {
        expect_beside(&rt, alloc, &square, at, *side, [*row].as_slice())?;
    }
    expect_beside(
        &rt,
        alloc,
        &square,
        Point { x: 0, y: 4 },
        Side::Left,
        [].as_slice(),
    )?;
    let none = paint_all(&rt, alloc, square, [(Label::Free, 3, 3, 6, 6)].as_slice())?;
    expect_all(&rt, alloc, &none, [(Label::Free, 0, 0, 9, 9)].as_slice())?;
    Ok(())
}

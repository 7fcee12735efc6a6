//! One more shape in the planes.

ghost use Rattle.std.specs.Prelude.{◌≡◌, ◌<◌, ◌∷◌, ◌++◌, [], List, length, IfOk, vec_items};
ghost use Rattle.board_model.specs.declared.shapes.Shape.{Shape as OneShape};
ghost use Rattle.geo_rect.specs.Plane.{LiesIn};
ghost use Rattle.board_model.specs.Known.{IsKnown};
ghost use Rattle.plane_core.specs.Labels.{label_of, IsPlane};
ghost use Rattle.plane_set.specs.Drawings.{drawing_by, HasOneMore};
ghost use Rattle.plane_set.specs.Families.{rows_in, rule_in, IsRow, AreRows, AreBoardPlanes, AreBoardRows, HaveAllClasses};
ghost use Rattle.plane_set.specs.Joins.{HasShapeWithin};

use crate::families::Family;
use crate::joins::paint_shape;
use board_model::{Board, Shape};
use geo_rect::{ClassId, NoMemory, Rect, meet};
use plane_core::Plane;
use std::alloc::Global;

/// Adds a shape to the plane of class `c` in a row of the family.
pub fn add_to_plane<P: Plane>(
    alloc: Global,
    board: &Board,
    family: Family,
    row: u32,
    c: ClassId,
    plane: P,
    s: &Shape,
) -> Result<P, NoMemory>
    requires row { row < rows_in board.now.parts family }
    requires class { c.0 < length board.now.parts.classes }
    requires known { IsKnown board.now.parts s.now }
    ensures { IfOk result (λ new. HasOneMore (rule_in board.now.parts family row c) s.now (drawing_by P.region P.strips plane) (drawing_by P.region P.strips new)) }
{
    let domain = plane.domain();
    add_within(alloc, board, family, row, c, plane, domain, s)
}

/// Adds a shape to the plane of class `c` in a row of the family, but only to the points of `area`,
/// a part of the plane.
pub fn add_within<P: Plane>(
    alloc: Global,
    board: &Board,
    family: Family,
    row: u32,
    c: ClassId,
    plane: P,
    area: Rect,
    s: &Shape,
) -> Result<P, NoMemory>
    requires row { row < rows_in board.now.parts family }
    requires class { c.0 < length board.now.parts.classes }
    requires inside { LiesIn area (P.region plane) }
    requires known { IsKnown board.now.parts s.now }
    ensures region { IfOk result (λ new. P.region new ≡ P.region plane) }
    ensures labels { IfOk result (λ new. HasShapeWithin (P.region plane) area (rule_in board.now.parts family row c) s.now (label_of (P.strips plane)) (label_of (P.strips new))) }
    ensures canonical { IfOk result (λ new. IsPlane (P.region new) (P.strips new)) }
{
    let _domain = plane.domain();
    match family.hit_area(board, row, c, s) {
        None => Ok(plane),
        Some(hit) => match meet(area, hit) {
            None => Ok(plane),
            Some(piece) => paint_shape(alloc, plane, piece, s.owner),
        },
    }
}

/// Adds a shape to each plane of a row, class by class.
fn add_to_row<P: Plane>(
    alloc: Global,
    board: &Board,
    family: Family,
    row: u32,
    planes: Vec<P>,
    s: &Shape,
) -> Result<Vec<P>, NoMemory>
    requires row { row < rows_in board.now.parts family }
    requires classes { length planes.items ≡ length board.now.parts.classes }
    requires known { IsKnown board.now.parts s.now }
    ensures classes { IfOk result (λ new. length new.items ≡ length planes.items) }
    ensures planes { IfOk result (λ new.
        AreBoardPlanes (drawing_by P.region P.strips) board.now.parts planes.items
        → AreBoardPlanes (drawing_by P.region P.strips) board.now.parts new.items) }
    ensures shapes { IfOk result (λ new. (shapes : List OneShape)
        → IsRow (drawing_by P.region P.strips) board.now.parts family row shapes planes.items
        → IsRow (drawing_by P.region P.strips) board.now.parts family row (shapes ++ s.now ∷ []) new.items) }
{
    let mut added = Vec::new(alloc);
    let mut class = 0;
    for plane in planes {
        added.push(add_to_plane(alloc, board, family, row, ClassId(class), plane, s)?)?;
        class += 1;
    }
    Ok(added)
}

/// Adds a shape to each plane of a family, row by row.
pub fn add_to_rows<P: Plane>(
    alloc: Global,
    board: &Board,
    family: Family,
    rows: Vec<Vec<P>>,
    s: &Shape,
) -> Result<Vec<Vec<P>>, NoMemory>
    requires rows { length rows.items ≡ rows_in board.now.parts family }
    requires classes { HaveAllClasses vec_items board.now.parts rows.items }
    requires known { IsKnown board.now.parts s.now }
    ensures rows { IfOk result (λ new. length new.items ≡ length rows.items) }
    ensures classes { IfOk result (λ new. HaveAllClasses vec_items board.now.parts new.items) }
    ensures planes { IfOk result (λ new.
        AreBoardRows vec_items (drawing_by P.region P.strips) board.now.parts rows.items
        → AreBoardRows vec_items (drawing_by P.region P.strips) board.now.parts new.items) }
    ensures shapes { IfOk result (λ new. (shapes : List OneShape)
        → AreRows vec_items (drawing_by P.region P.strips) board.now.parts family shapes rows.items
        → AreRows vec_items (drawing_by P.region P.strips) board.now.parts family (shapes ++ s.now ∷ []) new.items) }
{
    let mut added = Vec::new(alloc);
    let mut row = 0;
    for planes in rows {
        added.push(add_to_row(alloc, board, family, row, planes, s)?)?;
        row += 1;
    }
    Ok(added)
}

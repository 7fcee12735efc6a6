//! The labels near one shape, made again.

ghost use Rattle.std.specs.Prelude.{◌≡◌, ◌<◌, length, All, IfOk, vec_items};
ghost use Rattle.geo_rect.specs.Plane.{LiesIn};
ghost use Rattle.board_model.specs.Known.{IsKnown};
ghost use Rattle.board_model.specs.Labels.{label_among};
ghost use Rattle.plane_core.specs.Labels.{label_of, IsPlane};
ghost use Rattle.plane_set.specs.Drawings.{drawing_by, IsBoardArea};
ghost use Rattle.plane_set.specs.Families.{rows_in, rule_in, AreBoardPlanes, AreBoardRows, HaveAllClasses};
ghost use Rattle.plane_set.specs.Joins.{HasNewLabels};
ghost use Rattle.plane_set.specs.Relabelled.{IsRelabelled, IsRowRelabelled, AreRowsRelabelled};

use crate::adds::add_within;
use crate::families::Family;
use crate::frames::clear_area;
use board_model::{Board, Shape};
use geo_rect::{ClassId, NoMemory, Rect, meet};
use plane_core::Plane;
use std::alloc::Global;

/// Labels the points of each plane of a family that `gone` hits again over the shapes, row by row.
pub fn rest_in_rows<P: Plane>(
    alloc: Global,
    board: &Board,
    family: Family,
    rows: Vec<Vec<P>>,
    gone: &Shape,
    shapes: &[Shape],
) -> Result<Vec<Vec<P>>, NoMemory>
    requires rows { length rows.items ≡ rows_in board.now.parts family }
    requires classes { HaveAllClasses vec_items board.now.parts rows.items }
    requires board { AreBoardRows vec_items (drawing_by P.region P.strips) board.now.parts rows.items }
    requires gone { IsKnown board.now.parts gone.now }
    requires known { All (IsKnown board.now.parts) shapes.now }
    ensures rows { IfOk result (λ new. length new.items ≡ length rows.items) }
    ensures classes { IfOk result (λ new. HaveAllClasses vec_items board.now.parts new.items) }
    ensures labels { IfOk result (λ new. AreRowsRelabelled vec_items (drawing_by P.region P.strips) board.now.parts family gone.now shapes.now rows.items new.items) }
{
    let mut rested = Vec::new(alloc);
    let mut row = 0;
    for planes in rows {
        rested.push(rest_in_row(alloc, board, family, row, planes, gone, shapes)?)?;
        row += 1;
    }
    Ok(rested)
}

/// Labels the points of each plane of a row that `gone` hits again over the shapes, class by class.
fn rest_in_row<P: Plane>(
    alloc: Global,
    board: &Board,
    family: Family,
    row: u32,
    planes: Vec<P>,
    gone: &Shape,
    shapes: &[Shape],
) -> Result<Vec<P>, NoMemory>
    requires row { row < rows_in board.now.parts family }
    requires classes { length planes.items ≡ length board.now.parts.classes }
    requires board { AreBoardPlanes (drawing_by P.region P.strips) board.now.parts planes.items }
    requires gone { IsKnown board.now.parts gone.now }
    requires known { All (IsKnown board.now.parts) shapes.now }
    ensures classes { IfOk result (λ new. length new.items ≡ length planes.items) }
    ensures labels { IfOk result (λ new. IsRowRelabelled (drawing_by P.region P.strips) board.now.parts family row gone.now shapes.now planes.items new.items) }
{
    let mut rested = Vec::new(alloc);
    let mut class = 0;
    for plane in planes {
        rested.push(rest_in_plane(
            alloc,
            board,
            family,
            row,
            ClassId(class),
            plane,
            gone,
            shapes,
        )?)?;
        class += 1;
    }
    Ok(rested)
}

/// Labels the points that `gone` hits in the plane of class `c` in a row of the family again, over
/// the shapes.
fn rest_in_plane<P: Plane>(
    alloc: Global,
    board: &Board,
    family: Family,
    row: u32,
    c: ClassId,
    plane: P,
    gone: &Shape,
    shapes: &[Shape],
) -> Result<P, NoMemory>
    requires row { row < rows_in board.now.parts family }
    requires class { c.0 < length board.now.parts.classes }
    requires board { IsBoardArea board.now.parts (P.region plane) }
    requires gone { IsKnown board.now.parts gone.now }
    requires known { All (IsKnown board.now.parts) shapes.now }
    ensures { IfOk result (λ new. IsRelabelled board.now.parts (rule_in board.now.parts family row c) gone.now shapes.now (drawing_by P.region P.strips plane) (drawing_by P.region P.strips new)) }
{
    let domain = plane.domain();
    match family.hit_area(board, row, c, gone) {
        None => Ok(plane),
        Some(hit) => match meet(domain, hit) {
            None => Ok(plane),
            Some(area) => label_again(alloc, board, family, row, c, plane, area, shapes),
        },
    }
}

/// Gives each point of `area`, a part of the plane of class `c` in a row of the family, its label
/// among the shapes. After `NoMemory` the plane is gone.
fn label_again<P: Plane>(
    alloc: Global,
    board: &Board,
    family: Family,
    row: u32,
    c: ClassId,
    plane: P,
    area: Rect,
    shapes: &[Shape],
) -> Result<P, NoMemory>
    requires row { row < rows_in board.now.parts family }
    requires class { c.0 < length board.now.parts.classes }
    requires board { IsBoardArea board.now.parts (P.region plane) }
    requires inside { LiesIn area (P.region plane) }
    requires known { All (IsKnown board.now.parts) shapes.now }
    ensures region { IfOk result (λ new. P.region new ≡ P.region plane) }
    ensures labels { IfOk result (λ new. HasNewLabels (P.region plane) area (label_among board.now.parts (rule_in board.now.parts family row c) shapes.now) (label_of (P.strips plane)) (label_of (P.strips new))) }
    ensures canonical { IfOk result (λ new. IsPlane (P.region new) (P.strips new)) }
{
    let mut labelled = clear_area(alloc, board, family, row, c, plane, area)?;
    for shape in shapes {
        labelled = add_within(alloc, board, family, row, c, labelled, area, shape)?;
    }
    Ok(labelled)
}

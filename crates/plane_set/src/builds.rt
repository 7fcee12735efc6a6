//! The planes of a board with the shapes that stand on it.

ghost use Rattle.std.specs.Prelude.{◌≡◌, ◌<◌, length, All, IfOk, vec_items};
ghost use Rattle.board_model.specs.declared.shapes.Shape.{Shape as OneShape};
ghost use Rattle.board_model.specs.Known.{IsKnown};
ghost use Rattle.plane_set.specs.Drawings.{drawing_by, Shows};
ghost use Rattle.plane_set.specs.Families.{rows_in, rule_in, IsRow, AreRows, HaveAllClasses};

use crate::adds::add_to_plane;
use crate::families::Family;
use crate::frames::bare_plane;
use board_model::{Board, Shape};
use geo_rect::{ClassId, NoMemory};
use plane_core::Plane;
use std::alloc::Global;

/// The planes of a family with these shapes, row by row.
pub fn build_rows<P: Plane>(
    alloc: Global,
    board: &Board,
    family: Family,
    shapes: &[Shape],
) -> Result<Vec<Vec<P>>, NoMemory>
    requires known { All (IsKnown board.now.parts) shapes.now }
    ensures rows { IfOk result (λ new. length new.items ≡ rows_in board.now.parts family) }
    ensures classes { IfOk result (λ new. HaveAllClasses vec_items board.now.parts new.items) }
    ensures shapes { IfOk result (λ new. AreRows vec_items (drawing_by P.region P.strips) board.now.parts family shapes.now new.items) }
{
    let mut rows = Vec::new(alloc);
    for row in 0..family.rows(board) {
        rows.push(build_row(alloc, board, family, row, shapes)?)?;
    }
    Ok(rows)
}

/// The planes of a row with these shapes, class by class.
fn build_row<P: Plane>(
    alloc: Global,
    board: &Board,
    family: Family,
    row: u32,
    shapes: &[Shape],
) -> Result<Vec<P>, NoMemory>
    requires row { row < rows_in board.now.parts family }
    requires known { All (IsKnown board.now.parts) shapes.now }
    ensures classes { IfOk result (λ new. length new.items ≡ length board.now.parts.classes) }
    ensures shapes { IfOk result (λ new. IsRow (drawing_by P.region P.strips) board.now.parts family row shapes.now new.items) }
{
    let mut planes = Vec::new(alloc);
    for class in 0..board.classes() {
        planes.push(build_plane(alloc, board, family, row, ClassId(class), shapes)?)?;
    }
    Ok(planes)
}

/// The plane of class `c` in a row of the family with these shapes.
fn build_plane<P: Plane>(
    alloc: Global,
    board: &Board,
    family: Family,
    row: u32,
    c: ClassId,
    shapes: &[Shape],
) -> Result<P, NoMemory>
    requires row { row < rows_in board.now.parts family }
    requires class { c.0 < length board.now.parts.classes }
    requires known { All (IsKnown board.now.parts) shapes.now }
    ensures { IfOk result (λ plane. Shows board.now.parts (rule_in board.now.parts family row c) shapes.now (drawing_by P.region P.strips plane)) }
{
    let mut plane = bare_plane(alloc, board, family, row, c)?;
    for shape in shapes {
        plane = add_to_plane(alloc, board, family, row, c, plane, shape)?;
    }
    Ok(plane)
}

ghost use Rattle.std.specs.Prelude.{◌++◌, List, All, IfOk};
ghost use Rattle.board_model.specs.declared.shapes.Shape.{Shape as OneShape};
ghost use Rattle.board_model.specs.Known.{IsKnown};
ghost use Rattle.plane_set.specs.Standing.{HasPlanes, StandsFor};

use board_model::{Board, Shape};
use geo_rect::NoMemory;
use plane_core::Plane;
use plane_set::PlaneSet;
use std::alloc::Global;

/// The planes with these shapes, which may stand on the board, appended to those that they stand
/// for. After `NoMemory` the planes are gone.
pub fn merge<P: Plane>(
    alloc: Global,
    board: &Board,
    planes: PlaneSet<P>,
    shapes: &[Shape],
) -> Result<PlaneSet<P>, NoMemory>
    requires planes { HasPlanes board.now.parts planes }
    requires known { All (IsKnown board.now.parts) shapes.now }
    ensures planes { IfOk result (λ set. HasPlanes board.now.parts set) }
    ensures shapes { IfOk result (λ set. (old : List OneShape)
        → StandsFor board.now.parts old planes
        → StandsFor board.now.parts (old ++ shapes.now) set) }
{
    let mut merged = planes;
    for shape in shapes {
        merged = merged.add(alloc, board, shape)?;
    }
    Ok(merged)
}

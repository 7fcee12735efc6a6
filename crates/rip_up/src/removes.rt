ghost use Rattle.std.specs.Prelude.{◌++◌, List, All, IfOk, IsSome};
ghost use Rattle.board_model.specs.declared.shapes.Shape.{Shape as OneShape};
ghost use Rattle.board_model.specs.Known.{IsKnown};
ghost use Rattle.plane_set.specs.Relabelled.{BeginWithBoard};
ghost use Rattle.plane_set.specs.Standing.{StandsFor};

use board_model::{Board, Shape};
use geo_rect::NoMemory;
use plane_core::Plane;
use plane_set::PlaneSet;
use std::alloc::Global;

/// The planes without some shapes of nets: they stand for those that stay, which begin with the
/// board's. After `NoMemory` the planes are gone.
pub fn remove<P: Plane>(
    alloc: Global,
    board: &Board,
    planes: PlaneSet<P>,
    gone: &[Shape],
    stay: &[Shape],
) -> Result<PlaneSet<P>, NoMemory>
    requires planes { StandsFor board.now.parts (stay.now ++ gone.now) planes }
    requires gone { All (IsKnown board.now.parts) gone.now }
    requires nets { All (λ (s : OneShape). IsSome s.owner) gone.now }
    requires stay { All (IsKnown board.now.parts) stay.now }
    requires board { BeginWithBoard board.now.parts stay.now }
    ensures { IfOk result (λ set. StandsFor board.now.parts stay.now set) }
{
    let mut rested = planes;
    for shape in gone {
        rested = rested.rest(alloc, board, shape, stay)?;
    }
    Ok(rested)
}

//! Shapes that leave the board.

ghost use Rattle.std.specs.Prelude.{◌≡◌, ◌++◌, OnOk, OnErr};
ghost use Rattle.board_model.specs.Spacing.{keeps_outline};
ghost use Rattle.board_model.specs.Violations.{outline_of};

use board_model::{Board, Owned, Shape, Violation, has_area};
use geo_rect::{List, NoMemory, Rect};

/// Whether the area lies in the board. It may touch the edge.
fn keeps_outline(board: &Board, area: Rect) -> bool
    ensures { result ≡ keeps_outline board.now.parts area }
{
    has_area(&board.parts, area)
}

/// Adds the violation of a shape that leaves the board.
pub fn push_outline(
    found: &mut List<Violation>,
    board: &Board,
    shape: Shape,
) -> Result<(), NoMemory>
    ensures { OnOk result (found.new ≡ found.old ++ outline_of board.now.parts shape) }
{
    if !keeps_outline(board, shape.area) {
        found.push(Violation::Outline(
            shape.layer,
            Owned {
                owner: shape.owner,
                area: shape.area,
            },
        ))?;
    }
    Ok(())
}

//! The frame of a board.

ghost use Rattle.std.specs.Prelude.{◌≡◌, ◌⊎◌, length, All, Any};
ghost use Rattle.geo_rect.specs.declared.shapes.Point.{Point};
ghost use Rattle.geo_rect.specs.declared.shapes.Rect.{Rect};
ghost use Rattle.geo_rect.specs.Plane.{HasPoint, square};
ghost use Rattle.board_parts.specs.Rules.{IsMeasure, IsOnBoard};
ghost use Rattle.grow_rules.specs.Frames.{IsBoardPoint};

use crate::ends::{high_end, low_end, whole};
use board_model::Board;
use geo_rect::Rect;

/// Four rectangles in the board that have just those of its points whose square of this half width
/// leaves the board. They overlap at the corners, and more on a board narrower than the square.
pub fn frame(board: &Board, half: i32) -> [Rect; 4]
    requires { IsMeasure half }
    ensures inside { All (λ (r : Rect). IsOnBoard board.now.parts.width board.now.parts.height r)
        result }
    ensures leaves { (p : Point) → Any (λ (r : Rect). HasPoint r p) result
        → ¬ IsOnBoard board.now.parts.width board.now.parts.height (square p half) }
    ensures others { (p : Point) → IsBoardPoint board.now.parts p
        → Any (λ (r : Rect). HasPoint r p) result
        ⊎ IsOnBoard board.now.parts.width board.now.parts.height (square p half) }
{
    let across = whole(board.width());
    let up = whole(board.height());
    [
        Rect::of(low_end(board.width(), half), up),
        Rect::of(high_end(board.width(), half), up),
        Rect::of(across, low_end(board.height(), half)),
        Rect::of(across, high_end(board.height(), half)),
    ]
}

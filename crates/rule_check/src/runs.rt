//! The runs of a list of shapes: which of them a shape surely keeps its gap to.

ghost use Rattle.std.specs.Prelude.{◌≡◌, ◌<◌, ◌≤◌, [], List as Shapes, IfOk, IsTrue};
ghost use Rattle.board_model.specs.declared.shapes.Shape.{Shape as ShapeOf};
ghost use Rattle.board_model.specs.Violations.{close_of};
ghost use Rattle.board_parts.specs.declared.parts.BoardParts.{BoardParts};
ghost use Rattle.rule_check.specs.Bounds.{NoGapIsGreater};
ghost use Rattle.rule_check.specs.Hulls.{AreHulls, run_at};
ghost use Rattle.rule_check.specs.Runs.{AreRunsOf};
ghost use Rattle.rule_check.specs.declared.runs.TheConstants.{LONG};

use crate::bounds::greatest_gap;
use crate::hulls::hulls;
use board_model::{Board, Shape};
use geo_rect::{List, NoMemory, Rect, too_close};
use std::alloc::Global;

/// How many shapes a short run has.
pub const SHORT: usize = 32;

/// How many shapes a long run has.
pub const LONG: usize = 1024;

/// What is known of the runs of a list of shapes on a board.
#[derive(Drop)]
pub struct Runs {
    /// No gap of the board is greater, in micrometres.
    pub most: i32,
    /// The hulls of the short runs.
    pub short: List<Rect>,
    /// The hulls of the long runs.
    pub long: List<Rect>,
}

impl Runs {
    /// The runs of these shapes.
    pub fn of(alloc: Global, board: &Board, shapes: &[Shape]) -> Result<Runs, NoMemory>
        ensures { IfOk result (λ runs. AreRunsOf board.now.parts shapes.now runs) }
    {
        let short = hulls(alloc, shapes, SHORT)?;
        let long = hulls(alloc, shapes, LONG)?;
        Ok(Runs {
            most: greatest_gap(board),
            short,
            long,
        })
    }

    /// How many shapes from the place on surely keep their gap to the shape: those of a long run that
    /// begins there, or of a short one, or none.
    pub fn far_from(&self, shape: Shape, place: usize) -> usize
        ensures few { result ≤ LONG }
        ensures far { (b : BoardParts) (shapes : Shapes ShapeOf) → AreRunsOf b shapes self.now
            → close_of b shape (run_at shapes place result) ≡ [] }
    {
        if is_far(self.long.as_slice(), LONG, shape, place, self.most) {
            return LONG;
        }
        if is_far(self.short.as_slice(), SHORT, shape, place, self.most) {
            return SHORT;
        }
        0
    }
}

/// Whether a run of this length begins at the place, it has a hull, and the gap does not reach from
/// the shape to it.
fn is_far(hulls: &[Rect], size: usize, shape: Shape, place: usize, most: i32) -> bool
    requires { 0 < size }
    ensures { (b : BoardParts) (shapes : Shapes ShapeOf) → NoGapIsGreater b most → AreHulls shapes size hulls.now → IsTrue result
        → close_of b shape (run_at shapes place size) ≡ [] }
{
    if place % size != 0 {
        return false;
    }
    let number = place / size;
    if number >= hulls.len() {
        return false;
    }
    !too_close(shape.area, hulls[number], most)
}

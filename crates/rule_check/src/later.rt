//! A shape with all later ones of a list. Runs of these that are too far off are passed over.

ghost use Rattle.std.specs.Prelude.{◌≡◌, ◌++◌, ◌<◌, ◌≤◌, ◌-◌, length, drop, All, IfOk, OnOk};
ghost use Rattle.board_model.specs.Known.{IsKnown};
ghost use Rattle.board_model.specs.Violations.{close_of};
ghost use Rattle.rule_check.specs.Hulls.{run_at};
ghost use Rattle.rule_check.specs.Runs.{AreRunsOf};

use crate::pairs::push_close;
use crate::runs::{Runs, SHORT};
use board_model::{Board, Shape, Violation};
use geo_rect::{List, NoMemory};

/// Where the short run of the place ends, or the list does.
fn end_of_run(place: usize, len: usize) -> usize
    requires { place < len }
    ensures after { place < result }
    ensures within { result ≤ len }
{
    let left = SHORT - place % SHORT;
    if left < len - place {
        place + left
    } else {
        len
    }
}

/// Adds the violations of the shape with the next shapes from the place on, and gives the place after
/// these.
fn push_next(
    found: &mut List<Violation>,
    board: &Board,
    shapes: &[Shape],
    runs: &Runs,
    shape: Shape,
    place: usize,
) -> Result<usize, NoMemory>
    requires known { IsKnown board.now.parts shape }
    requires all_known { All (IsKnown board.now.parts) shapes.now }
    requires runs { AreRunsOf board.now.parts shapes.now runs.now }
    requires inside { place < length shapes.now }
    ensures after { IfOk result (λ next. place < next) }
    ensures added { IfOk result (λ next. found.new ≡ found.old ++ close_of board.now.parts shape (run_at shapes.now place (next - place))) }
{
    let far = runs.far_from(shape, place);
    if far > 0 {
        return Ok(place + far);
    }
    let end = end_of_run(place, shapes.len());
    push_close(found, board, shape, &shapes[place..end])?;
    Ok(end)
}

/// Adds the violations of the shape with all shapes from the place on.
pub fn push_later(
    found: &mut List<Violation>,
    board: &Board,
    shapes: &[Shape],
    runs: &Runs,
    shape: Shape,
    from: usize,
) -> Result<(), NoMemory>
    requires known { IsKnown board.now.parts shape }
    requires all_known { All (IsKnown board.now.parts) shapes.now }
    requires runs { AreRunsOf board.now.parts shapes.now runs.now }
    ensures { OnOk result (found.new ≡ found.old ++ close_of board.now.parts shape (drop from shapes.now)) }
{
    let mut place = from;
    while place < shapes.len() {
        place = push_next(found, board, shapes, runs, shape, place)?;
    }
    Ok(())
}

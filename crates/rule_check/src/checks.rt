//! All violations of a state.

ghost use Rattle.std.specs.Prelude.{◌≡◌, ◌++◌, length, All, IfOk, OnOk};
ghost use Rattle.board_model.specs.Known.{IsKnown};
ghost use Rattle.board_model.specs.Shapes.{state_shapes};
ghost use Rattle.board_model.specs.Violations.{violations_of};
ghost use Rattle.board_model.specs.WellFormed.{AreWellFormed};
ghost use Rattle.rule_check.specs.Known.{NamesKnown};
ghost use Rattle.rule_check.specs.Runs.{AreRunsOf};

use crate::later::push_later;
use crate::outlines::push_outline;
use crate::runs::Runs;
use board_model::{Board, Made, Shape, Violation, all_shapes};
use geo_rect::{List, NoMemory};
use std::alloc::Global;

/// The violations of the board with the connections that are made, in their order: for each shape
/// first its outline, then each later shape that it is too close to. Each connection is well formed.
pub fn violations(alloc: Global, board: &Board, made: &Made) -> Result<List<Violation>, NoMemory>
    requires nets { length made.now.lists ≡ length board.now.parts.net_names }
    requires well_formed { AreWellFormed board.now.parts made.now.lists }
    ensures exact { IfOk result (λ found.
        found ≡ violations_of board.now.parts (state_shapes board.now.parts made.now.lists)) }
    ensures known { IfOk result (λ found. All (NamesKnown board.now.parts) found) }
{
    let shapes = all_shapes(alloc, board, made)?;
    let runs = Runs::of(alloc, board, shapes.as_slice())?;
    let mut found = List::new(alloc);
    push_violations(&mut found, board, shapes.as_slice(), &runs)?;
    Ok(found)
}

/// Adds the violations among the shapes.
fn push_violations(
    found: &mut List<Violation>,
    board: &Board,
    shapes: &[Shape],
    runs: &Runs,
) -> Result<(), NoMemory>
    requires known { All (IsKnown board.now.parts) shapes.now }
    requires runs { AreRunsOf board.now.parts shapes.now runs.now }
    ensures { OnOk result (found.new ≡ found.old ++ violations_of board.now.parts shapes.now) }
{
    for i in 0..shapes.len() {
        push_outline(found, board, shapes[i])?;
        push_later(found, board, shapes, runs, shapes[i], i + 1)?;
    }
    Ok(())
}

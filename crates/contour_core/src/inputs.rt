ghost use Rattle.std.specs.Prelude.{◌≡◌, [], ◌≤◌, All, OnOk, IfOk, IfErr};
ghost use Rattle.io_edge.specs.Streams.{IsToldAs};
ghost use Rattle.board_parts.specs.Commands.{IsCommandOf};
ghost use Rattle.board_reader.specs.Contract.{told_by};
ghost use Rattle.contour_core.specs.Endings.{EndsReading};
ghost use Rattle.contour_core.specs.Inputs.{IfTold, IsAcceptedAs};

use crate::endings::Ending;
use board_reader::{Input, read_input};
use io_edge::{Source, read_all};
use std::alloc::Global;

/// The most bytes that the program reads: 2^28.
pub const MAX_INPUT: usize = 268_435_456;

/// Reads the source to its end, and its bytes as a board text.
pub fn read_text<S: Source>(alloc: Global, source: &mut S) -> Result<Input, Ending>
    ensures ok { IfOk result (λ input. IfTold (S.left source.old) (IsAcceptedAs (told_by input))) }
    ensures end { OnOk result (IsToldAs (S.left source.new) []) }
    ensures commands { IfOk result (λ input. All (IsCommandOf input.board.parts) input.commands) }
    ensures err { IfErr result (EndsReading (S.left source.old) (S.faults source.old) (S.faults source.new)) }
    ensures never_falls { S.faults source.old ≤ S.faults source.new }
    ensures setup { S.setup source.new ≡ S.setup source.old }
{
    let bytes = read_all(alloc, source, MAX_INPUT)?;
    Ok(read_input(alloc, bytes.as_slice())?)
}

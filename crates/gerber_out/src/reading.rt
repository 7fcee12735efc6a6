ghost use Rattle.std.specs.Prelude.{◌≡◌, ◌≢◌, IsTrue, ◌↔◌};
ghost use Rattle.gerber_out.specs.Machine.{no_lines};
ghost use Rattle.gerber_out.specs.Reading.{TellsReading, TellsLine, TellsLines, TellsEnd};
ghost use Rattle.gerber_out.specs.declared.reading.ReadLayer.TheVariants as read_layer;

use crate::lines::next_line;
use crate::machine::{Machine, Stage};
use crate::spelling::line_of;
use geo_rect::{List, NoMemory, Rect};
use std::alloc::Global;

/// Why no layer was read.
#[derive(Clone, Copy, Debug, PartialEq, Eq)]
pub enum ReadLayer {
    /// The line of this number, from 1, is the first that may not stand there.
    Refused(u64),
    NoMemory,
}

impl From<NoMemory> for ReadLayer {
    ghost from_gives = { λ _ e. e ≡ read_layer.NoMemory };

    fn from(_error: NoMemory) -> ReadLayer {
        ReadLayer::NoMemory
    }
}

/// Takes a line of a text, if it may stand here. After `NoMemory` the machine is not to be used.
fn take_line(alloc: Global, machine: &mut Machine, bytes: &[u8]) -> Result<bool, NoMemory>
    ensures { TellsLine bytes.now machine.old machine.new result }
{
    let Some(line) = line_of(bytes) else {
        return Ok(false);
    };
    machine.take(alloc, line)
}

/// Takes all lines of a text, and gives the number that one more would have. After an error the
/// machine is not to be used.
fn take_lines(alloc: Global, machine: &mut Machine, bytes: &[u8]) -> Result<u64, ReadLayer>
    requires { machine.old ≡ no_lines }
    ensures { TellsLines bytes.now machine.new result }
{
    let mut rest = bytes;
    let mut number = 1;
    while !rest.is_empty() {
        let (line, after) = next_line(rest);
        if !take_line(alloc, machine, line)? {
            return Err(ReadLayer::Refused(number));
        }
        rest = after;
        number += 1;
    }
    Ok(number)
}

/// What the machine has filled, after all lines.
fn finish(machine: Machine, number: u64) -> Result<List<Rect>, ReadLayer>
    ensures { TellsEnd machine number result }
{
    if !machine.is_ended() {
        return Err(ReadLayer::Refused(number));
    }
    Ok(machine.filled)
}

/// The rectangles that a text fills, in order, or the first line that may not stand in it: the one
/// after the last, where the line `M02*` is missing.
pub fn read_layer(alloc: Global, bytes: &[u8]) -> Result<List<Rect>, ReadLayer>
    ensures { TellsReading bytes.now result }
{
    let mut machine = Machine::new(alloc);
    match take_lines(alloc, &mut machine, bytes) {
        Ok(number) => finish(machine, number),
        Err(error) => Err(error),
    }
}

ghost use Rattle.std.specs.Prelude.{◌≡◌, ◌≤◌, ◌++◌, length};
ghost use Rattle.smallvec.specs.SmallVec.{HasRoomFor};
ghost use Rattle.contour_core.specs.Endings.{line_of};
ghost use Rattle.contour_core.specs.Causes.{TellsLine};
ghost use Rattle.contour_core.specs.Texts.{right_text};

use crate::endings::Ending;
use board_reader::Refusal;
use io_edge::{Sink, write_all};
use itoa::Buffer;
use smallvec::SmallVec;
use std::alloc::Global;

/// Room for one line, which so takes no memory.
pub type Line = SmallVec<u8, 64>;

/// Adds bytes for which the line has room.
fn add(line: &mut Line, bytes: &[u8])
    requires { HasRoomFor line.old (length bytes.now) }
    ensures items { line.new.items ≡ line.old.items ++ bytes.now }
    ensures capacity { line.new.capacity ≡ line.old.capacity }
{
    for byte in bytes {
        line.push_reserved(*byte);
    }
}

/// The line that says where a board text breaks a rule, and how.
fn refusal_line(alloc: Global, refusal: Refusal) -> Line
    ensures { result.items ≡ line_of (Ending.Refused refusal) }
{
    let mut number = Buffer::new();
    let mut line = Line::new(alloc);
    add(&mut line, b"line ");
    add(&mut line, number.format(refusal.line).as_bytes());
    add(&mut line, b" kind ");
    add(&mut line, number.format(refusal.kind.number()).as_bytes());
    add(&mut line, b"\n");
    line
}

/// The line that says which reply is the first that is wrong.
fn wrong_line(alloc: Global, number: u64) -> Line
    ensures { result.items ≡ line_of (Ending.Wrong number) }
{
    let mut digits = Buffer::new();
    let mut line = Line::new(alloc);
    add(&mut line, b"wrong reply ");
    add(&mut line, digits.format(number).as_bytes());
    add(&mut line, b"\n");
    line
}

/// The line that says how many replies are right.
pub fn right_line(alloc: Global, count: u64) -> Line
    ensures { result.items ≡ right_text count }
{
    let mut digits = Buffer::new();
    let mut line = Line::new(alloc);
    add(&mut line, b"right ");
    add(&mut line, digits.format(count).as_bytes());
    add(&mut line, b"\n");
    line
}

/// A line that is the same for each ending of its sort.
fn fixed_line(alloc: Global, text: &[u8]) -> Line
    requires { length text.now ≤ 64 }
    ensures { result.items ≡ text.now }
{
    let mut line = Line::new(alloc);
    add(&mut line, text);
    line
}

/// The line of an ending.
fn line(alloc: Global, ending: Ending) -> Line
    ensures { result.items ≡ line_of ending }
{
    match ending {
        Ending::BadWords => fixed_line(
            alloc,
            b"usage: contour run [--quiet] / check / upgrade / gen N / demo N\n",
        ),
        Ending::TooLong => fixed_line(alloc, b"too long\n"),
        Ending::Refused(refusal) => refusal_line(alloc, refusal),
        Ending::Wrong(number) => wrong_line(alloc, number),
        Ending::ReadFault => fixed_line(alloc, b"read fault\n"),
        Ending::WriteFault => fixed_line(alloc, b"write fault\n"),
        Ending::NoMemory => fixed_line(alloc, b"no memory\n"),
    }
}

/// Writes the line of an ending. A fault of the sink changes nothing else.
pub fn tell<E: Sink>(alloc: Global, ending: Ending, err: &mut E)
    ensures { TellsLine (line_of ending) (E.written err.old) (E.written err.new) (E.faults err.old) (E.faults err.new) }
{
    let _ = write_all(err, line(alloc, ending).as_slice());
}

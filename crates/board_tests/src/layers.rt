//! Copper layers, written and read.

ghost use Rattle.std.specs.List.{AllByRecursion};
ghost use Rattle.gerber_out.specs.Layers.{IsWritable};

use crate::boards::on_board;
use board_model::{Board, Shape};
use geo_rect::{LayerId, NetId, NoMemory, Rect, Text};
use gerber_out::{ReadLayer, layer_text, read_layer};
use std::alloc::Global;
use std::process::Abort;
use std::test::Fail;

/// Two pins, without the last line.
const PINS: &str = "%FSLAX46Y46*%\n%MOMM*%\n%LPD*%\nG01*\n\
    G36*\nX4000Y9000D02*\nX6000Y9000D01*\nX6000Y11000D01*\nX4000Y11000D01*\nX4000Y9000D01*\nG37*\n\
    G36*\nX34000Y9000D02*\nX36000Y9000D01*\nX36000Y11000D01*\nX34000Y11000D01*\nX34000Y9000D01*\nG37*\n";

const BOARD: &str = "board 1 demo 40 20;layer top;class sig;rule top sig 1 2;end;";

/// Two pins, and before and between them a blockage, a line, and a shape on another layer.
fn shapes() -> [Shape; 5]
    ensures { AllByRecursion (IsWritable (record { 0 = 0 })) result }
{
    let (top, net) = (LayerId(0), Some(NetId(0)));
    [
        Shape {
            area: Rect::new(18, 0, 22, 14),
            layer: top,
            owner: None,
        },
        Shape {
            area: Rect::new(4, 9, 6, 11),
            layer: top,
            owner: net,
        },
        Shape {
            area: Rect::new(5, 9, 5, 11),
            layer: top,
            owner: net,
        },
        Shape {
            area: Rect::new(4, 9, 6, 11),
            layer: LayerId(1),
            owner: net,
        },
        Shape {
            area: Rect::new(34, 9, 36, 11),
            layer: top,
            owner: net,
        },
    ]
}

/// Whether the text of the shapes is that of the two pins, and its last line.
fn writes_the_pins(alloc: Global, board: &Board) -> Result<bool, NoMemory> {
    let text = layer_text(alloc, board, shapes().as_slice(), LayerId(0))?;
    let Some(front) = text.as_slice().strip_suffix(b"M02*\n") else {
        return Ok(false);
    };
    Ok(front == PINS.as_bytes())
}

fn expect_pins(rt: &impl Abort, alloc: Global, board: &Board) -> Result<(), Fail> {
    assert!(rt; writes_the_pins(alloc, board)?);
    Ok(())
}

#[test]
fn two_pins_are_written(rt: HostRuntime) -> Result<(), Fail> {
    on_board(
        rt.alloc(),
        BOARD,
        &|board: &Board| expect_pins(&rt, rt.alloc(), board),
    )
}

/// Whether the text fills the two pins.
fn fills_the_pins(alloc: Global, text: &[u8]) -> bool {
    let pins = [Rect::new(4, 9, 6, 11), Rect::new(34, 9, 36, 11)];
    match read_layer(alloc, text) {
        Ok(areas) => areas.as_slice() == pins.as_slice(),
        Err(_) => false,
    }
}

fn refuses_line(alloc: Global, text: &[u8], number: u64) -> bool {
    match read_layer(alloc, text) {
        Err(ReadLayer::Refused(line)) => line == number,
        _ => false,
    }
}

#[test]
fn two_pins_are_read(rt: HostRuntime) -> Result<(), Fail> {
    let alloc = rt.alloc();
    let mut text = Text::from_str(alloc, PINS)?;
    assert!(rt; refuses_line(alloc, text.as_bytes(), 19), "no last line");
    text.text.push_str("M02*")?;
    assert!(rt; refuses_line(alloc, text.as_bytes(), 19), "no line feed");
    text.text.push_str("\n")?;
    assert!(rt; fills_the_pins(alloc, text.as_bytes()));
    text.text.push_str("G36*\n")?;
    assert!(rt;
        refuses_line(alloc, text.as_bytes(), 20),
        "a line after the last"
    );
    Ok(())
}

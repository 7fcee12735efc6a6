//! Groups of copper that is joined, and what they tell of the nets.

use crate::boards::on_board;
use board_model::{Board, Made};
use geo_rect::{LayerId, List, NetId, NoMemory, Rect, Spot};
use net_trace::{Piece, groups, trace_text};
use std::alloc::Global;
use std::process::Abort;
use std::test::Fail;

const TOP: LayerId = LayerId(0);

const BOTTOM: LayerId = LayerId(1);

const A: NetId = NetId(0);

/// The text of a board of two nets with these pins.
fn text_with(alloc: Global, pins: &str) -> Result<String, Fail> {
    Ok(format!(in alloc;
        "board 1 demo 40 20;layer top;class sig;rule top sig 1 2;net a sig;net b sig;{pins}end;"
    )?)
}

/// Looks at the report of the board on which nothing is made.
fn expect_report(rt: &impl Abort, alloc: Global, board: &Board, wanted: &str) -> Result<(), Fail> {
    let made = Made::none(alloc, board)?;
    let text = trace_text(alloc, board, &made)?;
    assert!(rt; text.as_slice() == wanted.as_bytes(), "{wanted}");
    Ok(())
}

#[test]
fn reports_of_pins(rt: HostRuntime) -> Result<(), Fail> {
    for (pins, wanted) in [
        (
            "pin a 4 9 6 11 top top;pin a 34 9 36 11 top top;",
            "trace 2 groups 2\ngroup 1 1\ngroup 2 1\nopen a 2\n",
        ),
        (
            "pin a 4 9 6 11 top top;pin a 6 11 9 13 top top;",
            "trace 2 groups 1\ngroup 1 2\n",
        ),
        (
            "pin a 19 9 20 9 top top;pin b 20 9 20 9 top top;pin b 30 9 30 9 top top;",
            "trace 3 groups 2\ngroup 1 2\ngroup 3 1\nopen b 2\nshort a b\n",
        ),
    ] {
        let text = text_with(rt.alloc(), pins)?;
        on_board(
            rt.alloc(),
            &text,
            &|board: &Board| { expect_report(&rt, rt.alloc(), board, wanted) },
        )?;
    }
    Ok(())
}

fn add_piece(
    alloc: Global,
    pieces: &mut List<Piece>,
    layer: LayerId,
    area: Rect,
) -> Result<(), NoMemory> {
    let mut spots = List::new(alloc);
    spots.push(Spot { layer, area })?;
    pieces.push(Piece {
        net: A,
        first: layer,
        last: layer,
        area: spots,
    })
}

/// Two pins, the three wires of a way over an obstacle between them, and a piece on another layer.
fn way_of_wires(alloc: Global) -> Result<List<Piece>, NoMemory> {
    let mut pieces = List::new(alloc);
    add_piece(alloc, &mut pieces, TOP, Rect::new(4, 9, 6, 11))?;
    add_piece(alloc, &mut pieces, TOP, Rect::new(34, 9, 36, 11))?;
    add_piece(alloc, &mut pieces, TOP, Rect::new(5, 10, 7, 18))?;
    add_piece(alloc, &mut pieces, TOP, Rect::new(5, 16, 35, 18))?;
    add_piece(alloc, &mut pieces, TOP, Rect::new(33, 10, 35, 18))?;
    add_piece(alloc, &mut pieces, BOTTOM, Rect::new(5, 10, 7, 18))?;
    Ok(pieces)
}

#[test]
fn a_way_of_wires_is_one_group(rt: HostRuntime) -> Result<(), Fail> {
    let pieces = way_of_wires(rt.alloc())?;
    let numbers = groups(rt.alloc(), pieces.as_slice())?;
    assert!(rt; numbers.as_slice() == [0, 0, 0, 0, 0, 5].as_slice());
    Ok(())
}

//! What is a board and what is none, and the names and pins of one.

use crate::boards::{board_of, on_board};
use board_model::{Board, BoardParts, is_board};
use geo_rect::{ClassId, KindId, LayerId, NetId};
use std::process::Abort;
use std::test::Fail;

/// Two layers, two classes, a kind of via, and two nets, of which the first has the last two pins.
const SMALL: &str = "board 2 small 40 20
layer top
layer bottom
class thin
class thick
rule top thin 1 2
rule top thick 1 2
rule bottom thin 1 2
rule bottom thick 1 2
clear top thin thick 3
viakind small top bottom 5
pad small thin 2
pad small thick 3
block bottom 18 0 22 14
net a thin
net b thick
pin b 24 5 24 5 top top
pin a 3 5 3 5 top bottom
pin a 9 5 9 5 top bottom
end
";

/// Whether the lists are those of a board once the width is this.
fn is_board_of_width(parts: &mut BoardParts, width: i32) -> bool {
    parts.width = width;
    is_board(parts)
}

fn tells_boards(parts: &mut BoardParts) -> bool {
    if is_board_of_width(parts, 8_388_609) {
        return false;
    }
    if is_board_of_width(parts, 23) {
        return false;
    }
    if !is_board_of_width(parts, 24) {
        return false;
    }
    is_board_of_width(parts, 8_388_608)
}

#[test]
fn no_layer_makes_no_board(rt: HostRuntime) -> Result<(), Fail> {
    let parts = BoardParts::new(rt.alloc(), "small", 40, 20)?;
    assert!(rt; !is_board(&parts));
    Ok(())
}

#[test]
fn boards_and_broken_boards(rt: HostRuntime) -> Result<(), Fail> {
    let mut parts = board_of(rt.alloc(), SMALL)?.parts;
    assert!(rt; tells_boards(&mut parts));
    Ok(())
}

fn knows_its_names(board: &Board) -> bool {
    if board.find_layer("bottom") != Some(LayerId(1)) {
        return false;
    }
    if board.find_class("thin") != Some(ClassId(0)) {
        return false;
    }
    if board.find_kind("small") != Some(KindId(0)) {
        return false;
    }
    board.find_net("top") == None
}

/// Whether the board has a net b, and its other net has its pins in the order of the text.
fn has_its_pins(board: &Board) -> bool {
    if board.find_net("b") != Some(NetId(1)) {
        return false;
    }
    if board.nets() != 2 {
        return false;
    }
    if board.pin_count(NetId(0)) != 2 {
        return false;
    }
    board.nth_pin(NetId(0), 1).area.x0 == 9
}

fn expect_lookups(rt: &impl Abort, board: &Board) -> Result<(), Fail> {
    assert!(rt; knows_its_names(board));
    assert!(rt; has_its_pins(board));
    Ok(())
}

#[test]
fn names_and_pins_are_found(rt: HostRuntime) -> Result<(), Fail> {
    on_board(
        rt.alloc(),
        SMALL,
        &|board: &Board| expect_lookups(&rt, board),
    )
}

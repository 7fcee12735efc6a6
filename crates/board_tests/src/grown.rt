//! How far shapes keep wires and vias off, on a board of three layers and two classes.

ghost use Rattle.std.specs.Prelude.{◌≡◌};
ghost use Rattle.board_model.specs.Known.{IsKnown, IsNearOrigin};

use crate::boards::on_board;
use board_model::{Board, Shape, has_area};
use geo_rect::{ClassId, KindId, LayerId, NetId, Rect};
use grow_rules::{frame, via_grow, via_keep, wire_grow, wire_keep};
use std::alloc::Global;
use std::process::Abort;
use std::test::Fail;

/// Three layers, two classes with different rules on each and a gap of their own on the first, a kind of
/// via over all layers, with inner pads, and a net of each class.
const WIDE: &str = "board 2 board 40 20
layer top
layer mid
layer low
class thin
class wide
rule top thin 1 2
rule top wide 3 5
rule mid thin 2 4
rule mid wide 4 3
rule low thin 1 3
rule low wide 2 2
clear top thin wide 6
viakind hole top low 10
pad hole thin 6
pad hole wide 8
inner hole thin 3
inner hole wide 9
net a thin
net b wide
end
";

fn rect_of(rt: &impl Abort, corners: [i32; 4]) -> Rect
    ensures { IsNearOrigin result }
{
    let [x0, y0, x1, y1] = corners;
    assert!(rt; -100 <= x0);
    assert!(rt; x0 <= x1);
    assert!(rt; x1 <= 100);
    assert!(rt; -100 <= y0);
    assert!(rt; y0 <= y1);
    assert!(rt; y1 <= 100);
    Rect::new(x0, y0, x1, y1)
}

fn shape_of(
    rt: &impl Abort,
    board: &Board,
    layer: u32,
    corners: [i32; 4],
    net: Option<u32>,
) -> Shape
    ensures known { IsKnown board.now.parts result }
    ensures near { IsNearOrigin result.area }
    ensures layer { result.layer ≡ record { 0 = layer } }
{
    assert!(rt; layer < board.layers());
    let area = rect_of(rt, corners);
    let layer = LayerId(layer);
    match net {
        None => Shape {
            area,
            layer,
            owner: None,
        },
        Some(n) => {
            assert!(rt; n < board.nets());
            Shape {
                area,
                layer,
                owner: Some(NetId(n)),
            }
        }
    }
}

const BLOCK: [i32; 4] = [18, 0, 22, 14];

const PIN: [i32; 4] = [4, 9, 6, 11];

fn expect_wires_grown(rt: &impl Abort, board: &Board) -> Result<(), Fail> {
    for (layer, class, area, net, want) in [
        (0, 0, BLOCK, None, [16, -2, 24, 16]),
        (0, 0, PIN, Some(0), [2, 7, 8, 13]),
        (0, 0, PIN, Some(1), [-2, 3, 12, 17]),
        (0, 1, PIN, Some(0), [-4, 1, 14, 19]),
        (1, 0, BLOCK, None, [13, -5, 27, 19]),
        (1, 0, PIN, Some(1), [-1, 4, 11, 16]),
        (1, 1, PIN, Some(0), [-3, 2, 13, 18]),
        (1, 1, BLOCK, None, [12, -6, 28, 20]),
    ] {
        let shape = shape_of(rt, board, layer, area, net);
        assert!(rt; class < board.classes());
        let found = wire_grow(board, LayerId(layer), ClassId(class), &shape);
        assert_eq!(rt; found, rect_of(rt, want), "layer {layer}, class {class}");
    }
    Ok(())
}

#[test]
fn grows_for_wires(rt: HostRuntime) -> Result<(), Fail> {
    on_board(
        rt.alloc(),
        WIDE,
        &|board: &Board| expect_wires_grown(&rt, board),
    )
}

fn expect_vias_grown(rt: &impl Abort, board: &Board) -> Result<(), Fail> {
    assert!(rt; 0 < board.kinds());
    let kind = board.kind(KindId(0));
    for (layer, class, area, net, want) in [
        (0, 0, BLOCK, None, [11, -7, 29, 21]),
        (1, 0, BLOCK, None, [12, -6, 28, 20]),
        (2, 0, BLOCK, None, [10, -8, 30, 22]),
        (0, 1, BLOCK, None, [6, -12, 34, 26]),
        (1, 1, PIN, Some(0), [-8, -3, 18, 23]),
    ] {
        let shape = shape_of(rt, board, layer, area, net);
        assert!(rt; class < board.classes());
        assert!(rt; kind.first.0 <= layer);
        assert!(rt; layer <= kind.last.0);
        let found = via_grow(board, KindId(0), ClassId(class), &shape);
        assert_eq!(rt; found, rect_of(rt, want), "layer {layer}, class {class}");
    }
    Ok(())
}

#[test]
fn grows_for_vias(rt: HostRuntime) -> Result<(), Fail> {
    on_board(
        rt.alloc(),
        WIDE,
        &|board: &Board| expect_vias_grown(&rt, board),
    )
}

fn expect_wires_kept(rt: &impl Abort, board: &Board) -> Result<(), Fail> {
    let area = rect_of(rt, BLOCK);
    assert!(rt; has_area(&board.parts, area));
    for (layer, class, want) in [
        (0, 0, [17, -1, 23, 15]),
        (0, 1, [15, -3, 25, 17]),
        (1, 1, [14, -4, 26, 18]),
    ] {
        assert!(rt; layer < board.layers());
        assert!(rt; class < board.classes());
        let found = wire_keep(board, LayerId(layer), ClassId(class), area);
        assert_eq!(rt; found, rect_of(rt, want), "layer {layer}, class {class}");
    }
    Ok(())
}

#[test]
fn keeps_wires_out(rt: HostRuntime) -> Result<(), Fail> {
    on_board(
        rt.alloc(),
        WIDE,
        &|board: &Board| expect_wires_kept(&rt, board),
    )
}

fn expect_vias_kept(rt: &impl Abort, board: &Board) -> Result<(), Fail> {
    assert!(rt; 0 < board.kinds());
    let kind = board.kind(KindId(0));
    let area = rect_of(rt, BLOCK);
    assert!(rt; has_area(&board.parts, area));
    for (layer, class, want) in [
        (0, 0, [12, -6, 28, 20]),
        (1, 0, [15, -3, 25, 17]),
        (1, 1, [9, -9, 31, 23]),
        (2, 1, [10, -8, 30, 22]),
    ] {
        assert!(rt; class < board.classes());
        assert!(rt; kind.first.0 <= layer);
        assert!(rt; layer <= kind.last.0);
        let found = via_keep(board, KindId(0), ClassId(class), LayerId(layer), area);
        assert_eq!(rt; found, rect_of(rt, want), "layer {layer}, class {class}");
    }
    Ok(())
}

#[test]
fn keeps_vias_out(rt: HostRuntime) -> Result<(), Fail> {
    on_board(
        rt.alloc(),
        WIDE,
        &|board: &Board| expect_vias_kept(&rt, board),
    )
}

/// The areas of the frame, in the order left, right, below and above.
fn expect_frame(
    rt: &impl Abort,
    board: &Board,
    half: i32,
    want: [[i32; 4]; 4],
) -> Result<(), Fail> {
    assert!(rt; 1 <= half);
    assert!(rt; half <= 65_535);
    let want = want.map(|corners| rect_of(rt, corners));
    assert_eq!(rt; frame(board, half), want, "{half}");
    Ok(())
}

/// The text of a board of these sides.
fn sized(alloc: Global, sides: &str) -> Result<String, Fail> {
    Ok(format!(in alloc; "board 1 b {sides};layer top;class thin;rule top thin 1 2;end;")?)
}

#[test]
fn frames_boards(rt: HostRuntime) -> Result<(), Fail> {
    let whole = [0, 0, 3, 2];
    for (sides, half, want) in [
        (
            "1 1",
            1,
            [[0, 0, 0, 1], [1, 0, 1, 1], [0, 0, 1, 0], [0, 1, 1, 1]],
        ),
        ("3 2", 5, [whole, whole, whole, whole]),
        (
            "40 20",
            1,
            [
                [0, 0, 0, 20],
                [40, 0, 40, 20],
                [0, 0, 40, 0],
                [0, 20, 40, 20],
            ],
        ),
    ] {
        let text = sized(rt.alloc(), sides)?;
        on_board(
            rt.alloc(),
            &text,
            &|board: &Board| expect_frame(&rt, board, half, want),
        )?;
    }
    Ok(())
}

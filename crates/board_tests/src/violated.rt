//! What stands too close, and what leaves the board.

ghost use Rattle.std.specs.Prelude.{◌≡◌, ◌<◌, length, IfOk};
ghost use Rattle.board_model.specs.WellFormed.{AreWellFormed};

use crate::boards::on_board;
use board_model::{Board, Conn, Leg, Made, Owned, Violation};
use geo_rect::{LayerId, List, NetId, NoMemory, Node, Rect};
use rule_check::violations;
use std::alloc::Global;
use std::process::Abort;
use std::test::Fail;

const TOP: LayerId = LayerId(0);

/// The text of a board of one layer, of one class of half width 1 and gap 2, and of the nets a and b, with these
/// lines.
fn text_with(alloc: Global, lines: &str) -> Result<String, Fail> {
    Ok(format!(in alloc;
        "board 1 small 600 20;layer top;class thin;rule top thin 1 2;net a thin;net b thin;{lines}end;"
    )?)
}

/// Looks at the violations of the board on which nothing is made.
fn expect_found(
    rt: &impl Abort,
    alloc: Global,
    board: &Board,
    wanted: &[Violation],
) -> Result<(), Fail> {
    let made = Made::none(alloc, board)?;
    let list = violations(alloc, board, &made)?;
    assert_eq!(rt; list.as_slice(), wanted);
    Ok(())
}

/// Looks at the violations of the board with these lines.
fn expect(rt: &(impl Abort + AllocGlobal), lines: &str, wanted: &[Violation]) -> Result<(), Fail> {
    let text = text_with(rt.alloc(), lines)?;
    on_board(
        rt.alloc(),
        &text,
        &|board: &Board| expect_found(rt, rt.alloc(), board, wanted),
    )
}

/// The pin of a net at one point.
fn named(net: u32, x: i32, y: i32) -> Owned {
    Owned {
        owner: Some(NetId(net)),
        area: Rect::new(x, y, x, y),
    }
}

fn blocked() -> Owned {
    Owned {
        owner: None,
        area: Rect::new(18, 0, 22, 14),
    }
}

#[test]
fn close_to_a_block_and_a_pin(rt: HostRuntime) -> Result<(), Fail> {
    let lines = "block top 18 0 22 14;pin a 23 5 23 5 top top;pin b 24 5 24 5 top top;";
    let wanted = [
        Violation::Close(TOP, blocked(), named(0, 23, 5)),
        Violation::Close(TOP, named(0, 23, 5), named(1, 24, 5)),
    ];
    expect(&rt, lines, &wanted)
}

#[test]
fn far_enough(rt: HostRuntime) -> Result<(), Fail> {
    let lines = "block top 18 0 22 14;pin a 24 5 24 5 top top;pin b 26 5 26 5 top top;";
    expect(&rt, lines, &[])
}

#[test]
fn two_pins_alone(rt: HostRuntime) -> Result<(), Fail> {
    let lines = "pin a 19 9 19 9 top top;pin b 20 9 20 9 top top;pin b 30 9 30 9 top top;";
    expect(
        &rt,
        lines,
        &[Violation::Close(TOP, named(0, 19, 9), named(1, 20, 9))],
    )
}

/// 127 pins of net a in a row, and one of net b beside the third of them.
fn row(alloc: Global) -> Result<String, Fail> {
    let mut lines = String::new(alloc);
    for i in 0..127_u64 {
        let x = 4 * i;
        lines.push_str(&format!(in alloc; "pin a {x} 5 {x} 5 top top;")?)?;
    }
    lines.push_str("pin b 9 5 9 5 top top;")?;
    Ok(lines)
}

#[test]
fn past_many_pins(rt: HostRuntime) -> Result<(), Fail> {
    let lines = row(rt.alloc())?;
    expect(
        &rt,
        &lines,
        &[Violation::Close(TOP, named(0, 8, 5), named(1, 9, 5))],
    )
}

/// One connection of net a, by a wire from (0, 5) to (5, 5).
fn wire_from_the_edge(alloc: Global, board: &Board) -> Result<Made, NoMemory>
    requires { 0 < length board.now.parts.net_names }
    ensures nets { IfOk result (λ made. length made.lists ≡ length board.now.parts.net_names) }
    ensures well_formed { IfOk result (λ made. AreWellFormed board.now.parts made.lists) }
{
    let start = Node {
        x: 0,
        y: 5,
        layer: TOP,
    };
    let end = Node {
        x: 5,
        y: 5,
        layer: TOP,
    };
    let legs = List::from_slice(alloc, &[Leg::Wire(end)])?;
    let mut made = Made::none(alloc, board)?;
    made.append(
        NetId(0),
        Conn {
            start,
            legs,
            cost: 5,
        },
    )?;
    Ok(made)
}

/// Looks at the violations of the board with that connection alone.
fn expect_at_the_edge(rt: &impl Abort, alloc: Global, board: &Board) -> Result<(), Fail> {
    assert!(rt; board.nets() > 0);
    let made = wire_from_the_edge(alloc, board)?;
    let list = violations(alloc, board, &made)?;
    let wire = Owned {
        owner: Some(NetId(0)),
        area: Rect::new(-1, 4, 6, 6),
    };
    assert_eq!(rt; list.as_slice(), [Violation::Outline(TOP, wire)].as_slice());
    Ok(())
}

#[test]
fn a_wire_leaves_the_board(rt: HostRuntime) -> Result<(), Fail> {
    let text = text_with(rt.alloc(), "")?;
    on_board(
        rt.alloc(),
        &text,
        &|board: &Board| expect_at_the_edge(&rt, rt.alloc(), board),
    )
}

ghost use Rattle.std.specs.Prelude.{◌≡◌, ◌++◌, OnOk, All, length};
ghost use Rattle.std.specs.List.{flat_map};
ghost use Rattle.route_law.specs.Regular.{IsRegularNode, IsRegularLeg, IsRegularConn, IsKindOf};
ghost use Rattle.reply_text.specs.Texts.{conn_line, at_line, wire_line, via_line, leg_text, conn_text};

use crate::words::{push_cost, push_count, push_name, push_node};
use board_model::{Board, Conn, Leg};
use geo_rect::{KindId, List, NoMemory, Node};

#[tactic(auto, unfolding(crate::specs::Texts::conn_line))]
fn push_conn_line(text: &mut List<u8>, number: u64, cost: u128, legs: u64) -> Result<(), NoMemory>
    ensures { OnOk result (text.new ≡ text.old ++ conn_line number cost legs) }
{
    push_count(text, b"conn ", number)?;
    push_cost(text, b" ", cost)?;
    push_count(text, b" ", legs)?;
    text.extend_from_slice(b"\n")
}

#[tactic(auto, unfolding(crate::specs::Texts::at_line))]
fn push_at_line(text: &mut List<u8>, board: &Board, start: Node) -> Result<(), NoMemory>
    requires { IsRegularNode board.now.parts start }
    ensures { OnOk result (text.new ≡ text.old ++ at_line board.now.parts start) }
{
    text.extend_from_slice(b"at")?;
    push_node(text, board, start)?;
    text.extend_from_slice(b"\n")
}

#[tactic(auto, unfolding(crate::specs::Texts::wire_line))]
fn push_wire_line(text: &mut List<u8>, board: &Board, to: Node) -> Result<(), NoMemory>
    requires { IsRegularNode board.now.parts to }
    ensures { OnOk result (text.new ≡ text.old ++ wire_line board.now.parts to) }
{
    text.extend_from_slice(b"to")?;
    push_node(text, board, to)?;
    text.extend_from_slice(b"\n")
}

#[tactic(auto, unfolding(crate::specs::Texts::via_line))]
fn push_via_line(text: &mut List<u8>, board: &Board, kind: KindId, to: Node) -> Result<(), NoMemory>
    requires kind { IsKindOf board.now.parts kind }
    requires node { IsRegularNode board.now.parts to }
    ensures { OnOk result (text.new ≡ text.old ++ via_line board.now.parts kind to) }
{
    push_name(text, b"via ", board.kind_name(kind))?;
    push_node(text, board, to)?;
    text.extend_from_slice(b"\n")
}

fn push_leg(text: &mut List<u8>, board: &Board, leg: Leg) -> Result<(), NoMemory>
    requires { IsRegularLeg board.now.parts leg }
    ensures { OnOk result (text.new ≡ text.old ++ leg_text board.now.parts leg) }
{
    match leg {
        Leg::Wire(to) => push_wire_line(text, board, to),
        Leg::Via(kind, to) => push_via_line(text, board, kind, to),
    }
}

fn push_legs(text: &mut List<u8>, board: &Board, legs: &[Leg]) -> Result<(), NoMemory>
    requires { All (IsRegularLeg board.now.parts) legs.now }
    ensures { OnOk result (text.new ≡ text.old ++ flat_map (leg_text board.now.parts) legs.now) }
{
    for leg in legs {
        push_leg(text, board, *leg)?;
    }
    Ok(())
}

/// Adds the lines of a connection of this number.
#[tactic(auto, unfolding(crate::specs::Texts::conn_text))]
pub fn push_conn(
    text: &mut List<u8>,
    board: &Board,
    number: u64,
    conn: &Conn,
) -> Result<(), NoMemory>
    requires { IsRegularConn board.now.parts conn.now }
    ensures { OnOk result (text.new ≡ text.old ++ conn_text board.now.parts number conn.now) }
{
    push_conn_line(text, number, conn.cost, conn.legs.len() as u64)?;
    push_at_line(text, board, conn.start)?;
    push_legs(text, board, conn.legs.as_slice())
}

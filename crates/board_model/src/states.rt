//! The shapes of a board and of what is made on it, as one list.

ghost use Rattle.std.specs.Prelude.{◌≡◌, ◌++◌, ◌<◌, length, map, All, IfOk, OnOk};
ghost use Rattle.std.specs.List.{flat_map};
ghost use Rattle.board_model.specs.Known.{IsKnown};
ghost use Rattle.board_model.specs.Shapes.{block_shape, pin_shapes, conn_shapes, state_shapes};
ghost use Rattle.board_model.specs.WellFormed.{IsWellFormed, AreWellFormed};

use crate::conn_shapes::{push_conn, push_layers};
use crate::made::{Conn, Made};
use crate::shapes::Shape;
use board_parts::{Block, Board, Pin};
use geo_rect::{List, NetId, NoMemory};
use std::alloc::Global;

/// The shapes of the board with the connections that are made, in their order: blockages, then pins
/// on each of their layers, both in the order of the text, then the connections, net by net.
pub fn all_shapes(alloc: Global, board: &Board, made: &Made) -> Result<List<Shape>, NoMemory>
    requires nets { length made.now.lists ≡ length board.now.parts.net_names }
    requires well_formed { AreWellFormed board.now.parts made.now.lists }
    ensures shapes { IfOk result (λ shapes. shapes ≡ state_shapes board.now.parts made.now.lists) }
    ensures known { IfOk result (λ shapes. All (IsKnown board.now.parts) shapes) }
{
    let mut shapes = List::new(alloc);
    push_blocks(&mut shapes, board.blocks())?;
    push_pins(&mut shapes, board.pins())?;
    for net in 0..board.nets() {
        push_conns(&mut shapes, board, NetId(net), made.conns(NetId(net)))?;
    }
    Ok(shapes)
}

/// Adds the shape of each blockage.
fn push_blocks(shapes: &mut List<Shape>, blocks: &[Block]) -> Result<(), NoMemory>
    ensures { OnOk result (shapes.new ≡ shapes.old ++ map block_shape blocks.now) }
{
    for block in blocks {
        shapes.push(Shape {
            area: block.area,
            layer: block.layer,
            owner: None,
        })?;
    }
    Ok(())
}

/// Adds the shapes of each pin.
fn push_pins(shapes: &mut List<Shape>, pins: &[Pin]) -> Result<(), NoMemory>
    ensures { OnOk result (shapes.new ≡ shapes.old ++ flat_map pin_shapes pins.now) }
{
    for pin in pins {
        push_layers(shapes, pin.net, pin.area, pin.first, pin.last)?;
    }
    Ok(())
}

/// Adds the shapes of each connection of a net.
fn push_conns(
    shapes: &mut List<Shape>,
    board: &Board,
    net: NetId,
    conns: &[Conn],
) -> Result<(), NoMemory>
    requires net { net.0 < length board.now.parts.net_names }
    requires well_formed { All (IsWellFormed board.now.parts) conns.now }
    ensures { OnOk result
        (shapes.new ≡ shapes.old ++ flat_map (conn_shapes board.now.parts net) conns.now) }
{
    for conn in conns {
        push_conn(shapes, board, net, conn)?;
    }
    Ok(())
}

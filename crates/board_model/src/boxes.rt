//! The boxes of layers between which a net's next connection is looked for.

ghost use Rattle.std.specs.Prelude.{◌≡◌, ◌++◌, ◌+◌, ◌<◌, ◌≤◌, length, map, take, All, IfOk, OnOk};
ghost use Rattle.std.specs.List.{flat_map};
ghost use Rattle.board_model.specs.Boxes.{spot_on, pin_boxes, leg_boxes, conn_boxes, source_boxes, target_boxes};
ghost use Rattle.board_parts.specs.Lookup.{layers_from, pins_of};
ghost use Rattle.board_model.specs.Made.{conns_of};
ghost use Rattle.board_model.specs.WellFormed.{IsCorner, IsStep, IsWellFormed};

use crate::made::{Conn, Leg, Made};
use crate::segments::{segment, square};
use board_parts::Board;
use geo_rect::{LayerId, List, NetId, NoMemory, Node, Rect, Spot};
use std::alloc::Global;

/// Where the net's next connection may start, with `j` of its connections made: first the net's
/// first `j + 1` pins, a box for each layer, then its connections in their order, a wire as its
/// centre line and a via as its point on each layer of its kind's span; a connection without legs is
/// its start. The net has such pins, and its connections are well formed.
pub fn attach_boxes(
    alloc: Global,
    board: &Board,
    made: &Made,
    net: NetId,
) -> Result<List<Spot>, NoMemory>
    requires nets { length made.now.lists ≡ length board.now.parts.net_names }
    requires net { net.0 < length board.now.parts.net_names }
    requires pins { length (conns_of made.now.lists net) + 1 ≤ length (pins_of board.now.parts net) }
    requires well_formed { All (IsWellFormed board.now.parts) (conns_of made.now.lists net) }
    ensures { IfOk result (λ boxes. boxes ≡ source_boxes board.now.parts made.now.lists net) }
{
    let conns = made.conns(net);
    let mut boxes = List::new(alloc);
    push_pins(&mut boxes, board, net, conns.len() + 1)?;
    for conn in conns {
        push_conn(&mut boxes, board, conn)?;
    }
    Ok(boxes)
}

/// Where the net's connection may end with `j` of its connections made: the net's pin with number
/// `j`, from 0, a box for each layer.
pub fn target_boxes(
    alloc: Global,
    board: &Board,
    net: NetId,
    j: u32,
) -> Result<List<Spot>, NoMemory>
    requires made { 1 ≤ j }
    requires pin { j < length (pins_of board.now.parts net) }
    ensures { IfOk result (λ boxes. boxes ≡ target_boxes board.now.parts net j) }
{
    let pin = board.nth_pin(net, j);
    let mut boxes = List::new(alloc);
    push_layers(&mut boxes, pin.area, pin.first, pin.last)?;
    Ok(boxes)
}

/// Adds the boxes of the net's first `count` pins, or of all if it has fewer.
fn push_pins(
    boxes: &mut List<Spot>,
    board: &Board,
    net: NetId,
    count: usize,
) -> Result<(), NoMemory>
    ensures { OnOk result
        (boxes.new ≡ boxes.old ++ flat_map pin_boxes (take count (pins_of board.now.parts net))) }
{
    let mut before = 0;
    for pin in board.pins() {
        if pin.net.0 == net.0 {
            if before == count {
                return Ok(());
            }
            push_layers(boxes, pin.area, pin.first, pin.last)?;
            before += 1;
        }
    }
    Ok(())
}

/// Adds the boxes of a connection.
fn push_conn(boxes: &mut List<Spot>, board: &Board, conn: &Conn) -> Result<(), NoMemory>
    requires { IsWellFormed board.now.parts conn.now }
    ensures { OnOk result (boxes.new ≡ boxes.old ++ conn_boxes board.now.parts conn.now) }
{
    if conn.legs.is_empty() {
        return boxes.push(Spot {
            layer: conn.start.layer,
            area: square(conn.start, 0),
        });
    }
    let mut from = conn.start;
    for leg in conn.legs.as_slice() {
        push_leg(boxes, board, from, *leg)?;
        from = leg.end();
    }
    Ok(())
}

/// Adds the boxes of a leg from a node.
fn push_leg(boxes: &mut List<Spot>, board: &Board, from: Node, leg: Leg) -> Result<(), NoMemory>
    requires from { IsCorner board.now.parts from }
    requires step { IsStep board.now.parts from leg }
    ensures { OnOk result (boxes.new ≡ boxes.old ++ leg_boxes board.now.parts from leg) }
{
    match leg {
        Leg::Wire(to) => boxes.push(Spot {
            layer: to.layer,
            area: segment(from, to, 0),
        }),
        Leg::Via(kind, to) => {
            let span = board.kind(kind);
            push_layers(boxes, square(to, 0), span.first, span.last)
        }
    }
}

/// Adds the area on each layer from the first to the last.
fn push_layers(
    boxes: &mut List<Spot>,
    area: Rect,
    first: LayerId,
    last: LayerId,
) -> Result<(), NoMemory>
    ensures { OnOk result (boxes.new ≡ boxes.old ++ map (spot_on area) (layers_from first last)) }
{
    for layer in first.0..=last.0 {
        boxes.push(Spot {
            layer: LayerId(layer),
            area,
        })?;
    }
    Ok(())
}

//! The shapes of a connection: the wires and the pads of its vias.

ghost use Rattle.std.specs.Prelude.{◌≡◌, ◌++◌, ◌<◌, length, map, IfOk, OnOk};
ghost use Rattle.board_parts.specs.Lookup.{kind_of, layers_from};
ghost use Rattle.board_model.specs.Shapes.{place_of, net_shape, via_shape, leg_shapes, conn_shapes};
ghost use Rattle.board_model.specs.WellFormed.{IsPlace, IsCorner, IsStep, IsWellFormed};

use crate::made::{Conn, Leg};
use crate::segments::{segment, square};
use crate::shapes::Shape;
use board_parts::Board;
use geo_rect::{KindId, LayerId, List, NetId, NoMemory, Node, Rect};
use std::alloc::Global;

/// The shapes of a connection of a net, leg by leg: of a wire its rectangle, of a via its pad on
/// each layer of its kind's span. The connection is well formed.
pub fn shapes_of(
    alloc: Global,
    board: &Board,
    net: NetId,
    conn: &Conn,
) -> Result<List<Shape>, NoMemory>
    requires net { net.0 < length board.now.parts.net_names }
    requires well_formed { IsWellFormed board.now.parts conn.now }
    ensures { IfOk result (λ shapes. shapes ≡ conn_shapes board.now.parts net conn.now) }
{
    let mut shapes = List::new(alloc);
    push_conn(&mut shapes, board, net, conn)?;
    Ok(shapes)
}

/// Adds the shapes of the connection.
pub fn push_conn(
    shapes: &mut List<Shape>,
    board: &Board,
    net: NetId,
    conn: &Conn,
) -> Result<(), NoMemory>
    requires net { net.0 < length board.now.parts.net_names }
    requires well_formed { IsWellFormed board.now.parts conn.now }
    ensures { OnOk result (shapes.new ≡ shapes.old ++ conn_shapes board.now.parts net conn.now) }
{
    let mut from = conn.start;
    for leg in conn.legs.as_slice() {
        push_leg(shapes, board, net, from, *leg)?;
        from = leg.end();
    }
    Ok(())
}

/// Adds the shapes of a leg from a node.
fn push_leg(
    shapes: &mut List<Shape>,
    board: &Board,
    net: NetId,
    from: Node,
    leg: Leg,
) -> Result<(), NoMemory>
    requires net { net.0 < length board.now.parts.net_names }
    requires from { IsCorner board.now.parts from }
    requires step { IsStep board.now.parts from leg }
    ensures { OnOk result (shapes.new ≡ shapes.old ++ leg_shapes board.now.parts net from leg) }
{
    let class = board.class_of(net);
    match leg {
        Leg::Wire(to) => shapes.push(Shape {
            area: segment(from, to, board.rule(to.layer, class).half),
            layer: to.layer,
            owner: Some(net),
        }),
        Leg::Via(kind, to) => push_pads(shapes, board, net, kind, to),
    }
}

/// Adds the pads of a via of a net, one on each layer of its kind's span.
fn push_pads(
    shapes: &mut List<Shape>,
    board: &Board,
    net: NetId,
    kind: KindId,
    to: Node,
) -> Result<(), NoMemory>
    requires net { net.0 < length board.now.parts.net_names }
    requires kind { kind.0 < length board.now.parts.kinds }
    requires place { IsPlace (place_of to) }
    ensures { OnOk result
        (shapes.new ≡ shapes.old ++ map (via_shape board.now.parts net kind (place_of to)) (layers_from (kind_of board.now.parts kind).first (kind_of board.now.parts kind).last)) }
{
    let class = board.class_of(net);
    let span = board.kind(kind);
    for layer in span.first.0..=span.last.0 {
        let layer = LayerId(layer);
        shapes.push(Shape {
            area: square(to, board.pad_on(kind, class, layer)),
            layer,
            owner: Some(net),
        })?;
    }
    Ok(())
}

/// Adds the shapes of a net's area on each layer from the first to the last.
pub fn push_layers(
    shapes: &mut List<Shape>,
    net: NetId,
    area: Rect,
    first: LayerId,
    last: LayerId,
) -> Result<(), NoMemory>
    ensures { OnOk result
        (shapes.new ≡ shapes.old ++ map (net_shape net area) (layers_from first last)) }
{
    for layer in first.0..=last.0 {
        shapes.push(Shape {
            area,
            layer: LayerId(layer),
            owner: Some(net),
        })?;
    }
    Ok(())
}

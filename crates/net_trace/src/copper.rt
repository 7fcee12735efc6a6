//! The pieces of copper of a state. All coordinates are whole micrometres.

ghost use Rattle.std.specs.Prelude.{◌≡◌, ◌++◌, ◌∷◌, [], ◌<◌, length, map, All, IfOk, OnOk};
ghost use Rattle.std.specs.List.{flat_map};
ghost use Rattle.board_model.specs.Boxes.{spot_on, pin_boxes};
ghost use Rattle.board_parts.specs.Lookup.{layers_from};
ghost use Rattle.board_model.specs.Shapes.{leg_shapes};
ghost use Rattle.board_model.specs.WellFormed.{IsCorner, IsStep, IsWellFormed, AreWellFormed};
ghost use Rattle.net_trace.specs.Pieces.{spot_of, pin_piece, leg_piece, conn_pieces, pieces_of};

use board_model::{Board, Conn, Leg, Made, Pin, Shape, shapes_of};
use geo_rect::{LayerId, List, NetId, NoMemory, Node, Rect, Spot};
use std::alloc::Global;

/// A piece of copper of a net: a pin, a wire or a via.
#[derive(Drop)]
pub struct Piece {
    pub net: NetId,
    /// The first and the last layer on which it lies.
    pub first: LayerId,
    pub last: LayerId,
    /// Its rectangle on each of these layers, in micrometres.
    pub area: List<Spot>,
}

/// The pieces of a board with the connections that are made: each pin in the order of the text, then
/// each leg of each connection, net by net. The connections are well formed.
pub fn pieces(alloc: Global, board: &Board, made: &Made) -> Result<List<Piece>, NoMemory>
    requires nets { length made.now.lists ≡ length board.now.parts.net_names }
    requires well_formed { AreWellFormed board.now.parts made.now.lists }
    ensures { IfOk result (λ pieces. pieces ≡ pieces_of board.now.parts made.now.lists) }
{
    let mut pieces = List::new(alloc);
    push_pins(alloc, &mut pieces, board.pins())?;
    for net in 0..board.nets() {
        push_conns(
            alloc,
            &mut pieces,
            board,
            NetId(net),
            made.conns(NetId(net)),
        )?;
    }
    Ok(pieces)
}

/// Adds the piece of each pin.
fn push_pins(alloc: Global, pieces: &mut List<Piece>, pins: &[Pin]) -> Result<(), NoMemory>
    ensures { OnOk result (pieces.new ≡ pieces.old ++ map pin_piece pins.now) }
{
    for pin in pins {
        pieces.push(Piece {
            net: pin.net,
            first: pin.first,
            last: pin.last,
            area: pin_area(alloc, *pin)?,
        })?;
    }
    Ok(())
}

/// The area of a pin on each of its layers.
fn pin_area(alloc: Global, pin: Pin) -> Result<List<Spot>, NoMemory>
    ensures { IfOk result (λ spots. spots ≡ pin_boxes pin) }
{
    let mut spots = List::new(alloc);
    push_layers(&mut spots, pin.area, pin.first, pin.last)?;
    Ok(spots)
}

/// Adds the area on each layer from the first to the last.
fn push_layers(
    spots: &mut List<Spot>,
    area: Rect,
    first: LayerId,
    last: LayerId,
) -> Result<(), NoMemory>
    ensures { OnOk result
        (spots.new ≡ spots.old ++ map (spot_on area) (layers_from first last)) }
{
    for layer in first.0..=last.0 {
        spots.push(Spot {
            layer: LayerId(layer),
            area,
        })?;
    }
    Ok(())
}

/// Adds the pieces of each connection of a net.
fn push_conns(
    alloc: Global,
    pieces: &mut List<Piece>,
    board: &Board,
    net: NetId,
    conns: &[Conn],
) -> Result<(), NoMemory>
    requires net { net.0 < length board.now.parts.net_names }
    requires well_formed { All (IsWellFormed board.now.parts) conns.now }
    ensures { OnOk result
        (pieces.new ≡ pieces.old ++ flat_map (conn_pieces board.now.parts net) conns.now) }
{
    for conn in conns {
        push_conn(alloc, pieces, board, net, conn)?;
    }
    Ok(())
}

/// Adds the pieces of a connection, leg by leg.
fn push_conn(
    alloc: Global,
    pieces: &mut List<Piece>,
    board: &Board,
    net: NetId,
    conn: &Conn,
) -> Result<(), NoMemory>
    requires net { net.0 < length board.now.parts.net_names }
    requires well_formed { IsWellFormed board.now.parts conn.now }
    ensures { OnOk result (pieces.new ≡ pieces.old ++ conn_pieces board.now.parts net conn.now) }
{
    let mut from = conn.start;
    for leg in conn.legs.as_slice() {
        pieces.push(leg_piece(alloc, board, net, from, *leg)?)?;
        from = leg.end();
    }
    Ok(())
}

/// The piece of a leg from a node.
fn leg_piece(
    alloc: Global,
    board: &Board,
    net: NetId,
    from: Node,
    leg: Leg,
) -> Result<Piece, NoMemory>
    requires net { net.0 < length board.now.parts.net_names }
    requires from { IsCorner board.now.parts from }
    requires step { IsStep board.now.parts from leg }
    ensures { IfOk result (λ piece. piece ≡ leg_piece board.now.parts net from leg) }
{
    let shapes = leg_shapes(alloc, board, net, from, leg)?;
    let area = spots_of(alloc, shapes.as_slice())?;
    match leg {
        Leg::Wire(to) => Ok(Piece {
            net,
            first: to.layer,
            last: to.layer,
            area,
        }),
        Leg::Via(kind, _) => {
            let span = board.kind(kind);
            Ok(Piece {
                net,
                first: span.first,
                last: span.last,
                area,
            })
        }
    }
}

/// The shapes of a leg from a node: those of the connection that has this leg alone.
fn leg_shapes(
    alloc: Global,
    board: &Board,
    net: NetId,
    from: Node,
    leg: Leg,
) -> Result<List<Shape>, NoMemory>
    requires net { net.0 < length board.now.parts.net_names }
    requires from { IsCorner board.now.parts from }
    requires step { IsStep board.now.parts from leg }
    ensures { IfOk result (λ shapes. shapes ≡ leg_shapes board.now.parts net from leg) }
{
    let mut legs = List::new(alloc);
    legs.push(leg)?;
    let alone = Conn {
        start: from,
        legs,
        cost: 0,
    };
    shapes_of(alloc, board, net, &alone)
}

/// Where the shapes are.
fn spots_of(alloc: Global, shapes: &[Shape]) -> Result<List<Spot>, NoMemory>
    ensures { IfOk result (λ spots. spots ≡ map spot_of shapes.now) }
{
    let mut spots = List::new(alloc);
    for shape in shapes {
        spots.push(Spot {
            layer: shape.layer,
            area: shape.area,
        })?;
    }
    Ok(spots)
}

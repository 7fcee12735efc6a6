//! Taking a net's connections away.

ghost use Rattle.std.specs.Prelude.{◌≡◌, ◌<◌, length, All, IfOk};
ghost use Rattle.std.specs.List.{flat_map};
ghost use Rattle.board_model.specs.Made.{without_conns};
ghost use Rattle.board_model.specs.Shapes.{conn_shapes};
ghost use Rattle.board_model.specs.WellFormed.{IsWellFormed};
ghost use Rattle.session_core.specs.Sessions.{IsSession, IsSitting};

use board_model::{Board, Conn, Made, Shape, all_shapes, shapes_of};
use geo_rect::{List, NetId, NoMemory};
use plane_core::Plane;
use plane_set::PlaneSet;
use rip_up::remove;
use std::alloc::Global;

/// Removes the connections of the net, and their shapes from the planes. Where there are no planes
/// yet, nothing is made, and nothing changes.
pub fn rip_if_made<P: Plane>(
    alloc: Global,
    board: &Board,
    made: &mut Made,
    planes: Option<PlaneSet<P>>,
    net: NetId,
) -> Result<Option<PlaneSet<P>>, NoMemory>
    requires session { IsSession board.now.parts made.old.lists planes }
    requires net { net.0 < length board.now.parts.net_names }
    ensures lists { IfOk result (λ _. made.new.lists ≡ without_conns made.old.lists net) }
    ensures session { IfOk result (λ held. IsSession board.now.parts made.new.lists held) }
{
    match planes {
        Some(planes) => Ok(Some(rip(alloc, board, made, planes, net)?)),
        None => Ok(None),
    }
}

/// Removes the connections of the net, and their shapes from the planes.
pub fn rip<P: Plane>(
    alloc: Global,
    board: &Board,
    made: &mut Made,
    planes: PlaneSet<P>,
    net: NetId,
) -> Result<PlaneSet<P>, NoMemory>
    requires sitting { IsSitting board.now.parts made.old.lists planes }
    requires net { net.0 < length board.now.parts.net_names }
    ensures lists { IfOk result (λ _. made.new.lists ≡ without_conns made.old.lists net) }
    ensures sitting { IfOk result (λ set. IsSitting board.now.parts made.new.lists set) }
{
    let gone = shapes_of_conns(alloc, board, net, made.conns(net))?;
    made.clear(net);
    let stay = all_shapes(alloc, board, made)?;
    remove(alloc, board, planes, gone.as_slice(), stay.as_slice())
}

/// The shapes of connections of a net, in their order.
pub fn shapes_of_conns(
    alloc: Global,
    board: &Board,
    net: NetId,
    conns: &[Conn],
) -> Result<List<Shape>, NoMemory>
    requires net { net.0 < length board.now.parts.net_names }
    requires well_formed { All (IsWellFormed board.now.parts) conns.now }
    ensures { IfOk result (λ shapes. shapes ≡ flat_map (conn_shapes board.now.parts net) conns.now) }
{
    let mut shapes = List::new(alloc);
    for conn in conns {
        let more = shapes_of(alloc, board, net, conn)?;
        shapes.extend_from_slice(more.as_slice())?;
    }
    Ok(shapes)
}

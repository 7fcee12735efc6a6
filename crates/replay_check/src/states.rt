//! A state under way: what the replies so far have made, and planes that stand for it.

ghost use Rattle.std.specs.Prelude.{◌≡◌, ◌<◌, length, All, IfOk};
ghost use Rattle.std.specs.List.{flat_map};
ghost use Rattle.board_model.specs.Made.{conns_of, with_conn, without_conns};
ghost use Rattle.board_model.specs.Shapes.{conn_shapes};
ghost use Rattle.board_model.specs.WellFormed.{IsWellFormed};
ghost use Rattle.route_law.specs.Steps.{nothing_made};
ghost use Rattle.replay_check.specs.States.{IsBoardConn, IsUnderWay};

use board_model::{Board, Conn, Made, Shape, all_shapes, shapes_of};
use geo_rect::{List, NetId, NoMemory};
use plane_core::Plane;
use plane_set::PlaneSet;
use rip_up::remove;
use std::alloc::Global;
use wire_merge::merge;

/// What the replies so far have made, and the planes of that.
#[derive(Drop)]
pub struct UnderWay<P: Plane> {
    pub made: Made,
    pub planes: PlaneSet<P>,
}

impl<P: Plane> UnderWay<P> {
    /// Nothing is made.
    pub fn start(alloc: Global, board: &Board) -> Result<UnderWay<P>, NoMemory>
        ensures nothing { IfOk result (λ s. s.made.lists ≡ nothing_made board.now.parts) }
        ensures state { IfOk result (λ s. IsUnderWay board.now.parts s.made.lists s.planes) }
    {
        let made = Made::none(alloc, board)?;
        let planes = PlaneSet::build(alloc, board)?;
        Ok(UnderWay { made, planes })
    }

    /// The state with one more connection of the net. After `NoMemory` the state is gone.
    pub fn with(
        self,
        alloc: Global,
        board: &Board,
        net: NetId,
        conn: &Conn,
    ) -> Result<UnderWay<P>, NoMemory>
        requires state { IsUnderWay board.now.parts self.made.lists self.planes }
        requires net { net.0 < length board.now.parts.net_names }
        requires well_formed { IsWellFormed board.now.parts conn.now }
        requires on_board { IsBoardConn board.now.parts conn.now }
        ensures made { IfOk result (λ s. s.made.lists ≡ with_conn self.made.lists net conn.now) }
        ensures state { IfOk result (λ s. IsUnderWay board.now.parts s.made.lists s.planes) }
    {
        let UnderWay { mut made, planes } = self;
        let shapes = shapes_of(alloc, board, net, conn)?;
        let planes = merge(alloc, board, planes, shapes.as_slice())?;
        made.append(net, copy_conn(alloc, conn)?)?;
        Ok(UnderWay { made, planes })
    }

    /// The state without the connections of the net. After `NoMemory` the state is gone.
    pub fn without(self, alloc: Global, board: &Board, net: NetId) -> Result<UnderWay<P>, NoMemory>
        requires state { IsUnderWay board.now.parts self.made.lists self.planes }
        requires net { net.0 < length board.now.parts.net_names }
        ensures made { IfOk result (λ s. s.made.lists ≡ without_conns self.made.lists net) }
        ensures state { IfOk result (λ s. IsUnderWay board.now.parts s.made.lists s.planes) }
    {
        let UnderWay { mut made, planes } = self;
        let gone = net_shapes(alloc, board, net, made.conns(net))?;
        made.clear(net);
        let stay = all_shapes(alloc, board, &made)?;
        let planes = remove(alloc, board, planes, gone.as_slice(), stay.as_slice())?;
        Ok(UnderWay { made, planes })
    }
}

/// The same connection once more.
pub fn copy_conn(alloc: Global, conn: &Conn) -> Result<Conn, NoMemory>
    ensures { IfOk result (λ c. c ≡ conn.now) }
{
    Ok(Conn {
        start: conn.start,
        legs: List::from_slice(alloc, conn.legs.as_slice())?,
        cost: conn.cost,
    })
}

/// The shapes of connections of a net, connection by connection. They are well formed.
fn net_shapes(
    alloc: Global,
    board: &Board,
    net: NetId,
    conns: &[Conn],
) -> Result<List<Shape>, NoMemory>
    requires net { net.0 < length board.now.parts.net_names }
    requires well_formed { All (IsWellFormed board.now.parts) conns.now }
    ensures { IfOk result (λ shapes. shapes ≡ flat_map (conn_shapes board.now.parts net) conns.now) }
{
    let mut all = List::new(alloc);
    for conn in conns {
        let shapes = shapes_of(alloc, board, net, conn)?;
        all.extend_from_slice(shapes.as_slice())?;
    }
    Ok(all)
}

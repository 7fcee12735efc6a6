//! One turn of routing: a net's next connection is made, or has no route.

ghost use Rattle.std.specs.Prelude.{◌≡◌, ◌<◌, length, IfOk};
ghost use Rattle.board_parts.specs.Lookup.{pins_of};
ghost use Rattle.board_model.specs.Made.{with_conn};
ghost use Rattle.route_law.specs.Routing.{next_number};
ghost use Rattle.session_core.specs.Adopting.{IsNextWalk};
ghost use Rattle.session_core.specs.Attempts.{IsTurn};
ghost use Rattle.session_core.specs.Sessions.{IsSitting};

use crate::attempts::{Attempt, next_of};
use board_model::{Board, Conn, Made, shapes_of};
use geo_rect::{List, NetId, NoMemory};
use plane_core::Plane;
use plane_set::PlaneSet;
use route_law::{Fail, Made1};
use std::alloc::Global;
use wire_merge::merge;

/// What a turn leaves: the planes, and the next connection where it has no route.
#[derive(Drop)]
pub struct Turn<P: Plane> {
    pub planes: PlaneSet<P>,
    pub none: Option<Fail>,
}

/// Makes the net's next connection, which has this number, from 1: adds it to what is made, to the
/// planes and to the list. Nothing changes where it has no route.
pub fn make_next<P: Plane>(
    alloc: Global,
    board: &Board,
    made: &mut Made,
    planes: PlaneSet<P>,
    net: NetId,
    number: u32,
    list: &mut List<Made1>,
) -> Result<Turn<P>, NoMemory>
    requires sitting { IsSitting board.now.parts made.old.lists planes }
    requires net { net.0 < length board.now.parts.net_names }
    requires number { number ≡ next_number made.old.lists net }
    requires pin { number < length (pins_of board.now.parts net) }
    ensures turn { IfOk result (λ turn. IsTurn board.now.parts net made.old.lists list.old turn.none made.new.lists list.new) }
    ensures sitting { IfOk result (λ turn. IsSitting board.now.parts made.new.lists turn.planes) }
{
    match next_of(alloc, board, made, &planes, net, number)? {
        Attempt::Joined(next) => {
            let planes = keep(alloc, board, made, planes, net, &next.conn)?;
            list.push(next)?;
            Ok(Turn { planes, none: None })
        }
        Attempt::Stuck(fail) => Ok(Turn {
            planes,
            none: Some(fail),
        }),
    }
}

/// Adds a connection of the net to what is made, and its shapes to the planes.
pub fn keep<P: Plane>(
    alloc: Global,
    board: &Board,
    made: &mut Made,
    planes: PlaneSet<P>,
    net: NetId,
    conn: &Conn,
) -> Result<PlaneSet<P>, NoMemory>
    requires sitting { IsSitting board.now.parts made.old.lists planes }
    requires net { net.0 < length board.now.parts.net_names }
    requires next { IsNextWalk board.now.parts made.old.lists net conn.now }
    ensures lists { IfOk result (λ _. made.new.lists ≡ with_conn made.old.lists net conn.now) }
    ensures sitting { IfOk result (λ set. IsSitting board.now.parts made.new.lists set) }
{
    let shapes = shapes_of(alloc, board, net, conn)?;
    let planes = merge(alloc, board, planes, shapes.as_slice())?;
    made.append(net, copy_of(alloc, conn)?)?;
    Ok(planes)
}

/// The same connection once more.
pub fn copy_of(alloc: Global, conn: &Conn) -> Result<Conn, NoMemory>
    ensures { IfOk result (λ copy. copy ≡ conn.now) }
{
    Ok(Conn {
        start: conn.start,
        legs: List::from_slice(alloc, conn.legs.as_slice())?,
        cost: conn.cost,
    })
}

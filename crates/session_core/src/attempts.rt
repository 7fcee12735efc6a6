//! The search for a net's next connection.

ghost use Rattle.std.specs.Prelude.{◌≡◌, ◌<◌, length, All, IfOk};
ghost use Rattle.board_parts.specs.Lookup.{pins_of};
ghost use Rattle.plane_set.specs.Standing.{HasPlanes};
ghost use Rattle.route_law.specs.Routing.{next_number};
ghost use Rattle.strip_moves.specs.Boxes.{IsBoardBox};
ghost use Rattle.strip_moves.specs.Grounds.{ground_of};
ghost use Rattle.session_core.specs.Attempts.{IsAttempt, IsAttemptOn};
ghost use Rattle.session_core.specs.Sessions.{IsSitting};

use board_model::{Board, Made, attach_boxes, target_boxes};
use geo_rect::{NetId, NoMemory, Spot};
use path_trace::trace;
use plane_core::Plane;
use plane_set::PlaneSet;
use route_law::{Fail, Made1};
use std::alloc::Global;
use tile_search::{Found, search};

/// What came of the search for a net's next connection.
#[derive(Drop)]
pub enum Attempt {
    /// The connection, which is not appended yet.
    Joined(Made1),
    /// There is no walk to the net's next pin.
    Stuck(Fail),
}

/// Searches for the net's next connection, which has this number, from 1. The net has a pin of that
/// number, from 0.
pub fn next_of<P: Plane>(
    alloc: Global,
    board: &Board,
    made: &Made,
    planes: &PlaneSet<P>,
    net: NetId,
    number: u32,
) -> Result<Attempt, NoMemory>
    requires sitting { IsSitting board.now.parts made.now.lists planes.now }
    requires net { net.0 < length board.now.parts.net_names }
    requires number { number ≡ next_number made.now.lists net }
    requires pin { number < length (pins_of board.now.parts net) }
    ensures { IfOk result (IsAttempt board.now.parts made.now.lists net) }
{
    let sources = attach_boxes(alloc, board, made, net)?;
    let targets = target_boxes(alloc, board, net, number)?;
    join(
        alloc,
        board,
        planes,
        net,
        number,
        sources.as_slice(),
        targets.as_slice(),
    )
}

/// Searches for a cheapest walk of the net from a source box to a target box, as its connection of
/// this number. The source boxes and the target boxes lie on the board, and there is a target box.
fn join<P: Plane>(
    alloc: Global,
    board: &Board,
    planes: &PlaneSet<P>,
    net: NetId,
    number: u32,
    sources: &[Spot],
    targets: &[Spot],
) -> Result<Attempt, NoMemory>
    requires planes { HasPlanes board.now.parts planes.now }
    requires net { net.0 < length board.now.parts.net_names }
    requires sources { All (IsBoardBox board.now.parts) sources.now }
    requires target { 0 < length targets.now }
    requires targets { All (IsBoardBox board.now.parts) targets.now }
    ensures { IfOk result (IsAttemptOn board.now.parts (ground_of board.now.parts planes.now net) sources.now targets.now number) }
{
    match search(alloc, board, planes, net, sources, targets)? {
        Found::Path {
            entry,
            end,
            cert,
            ..
        } => {
            let conn = trace(
                alloc, board, planes, net, sources, targets, &cert, entry, end,
            )?;
            Ok(Attempt::Joined(Made1 {
                number: number as u64,
                conn,
                cert,
            }))
        }
        Found::NoRoute { cert } => Ok(Attempt::Stuck(Fail {
            number: number as u64,
            cert,
        })),
    }
}

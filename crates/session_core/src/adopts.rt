//! Connections from elsewhere that a session takes up.

ghost use Rattle.std.specs.Prelude.{◌≡◌, ◌++◌, ◌<◌, length, slice_set, All, IfOk, OnOk};
ghost use Rattle.board_model.specs.Made.{conns_of};
ghost use Rattle.board_model.specs.WellFormed.{IsWellFormed};
ghost use Rattle.plane_set.specs.Standing.{PlaneTable};
ghost use Rattle.session_core.specs.Adopting.{IsVerdict, IsTakenOne, AreTaken, AreAdopted};
ghost use Rattle.session_core.specs.Sessions.{IsSitting};

use crate::rips::{rip, shapes_of_conns};
use crate::turns::{copy_of, keep};
use board_model::{Board, Conn, Made, attach_boxes, copy_conns, target_boxes};
use geo_rect::{NetId, NoMemory};
use plane_core::Plane;
use plane_set::PlaneSet;
use std::alloc::Global;
use walk_check::bad_corner;
use wire_merge::merge;

/// What came of connections that a session was to take up.
#[derive(Clone, Copy, Debug, PartialEq, Eq)]
pub enum Adopted {
    /// All of them are made now.
    Kept,
    /// Nothing has changed: the connection of this number, from 0, is the first that is none, and
    /// this is its first bad corner. Corner 0 is its start, which is bad also where the net lacks no
    /// connection; corner `k` the node in which leg `k` ends, from 1; and one more than the last
    /// stands for its cost.
    Refused { conn: u64, corner: u64 },
}

/// What came of connections that were to be taken up, and the planes that this leaves.
#[derive(Drop)]
pub struct Adoption<P: Plane> {
    pub planes: PlaneSet<P>,
    pub outcome: Adopted,
}

/// What came of one connection, the corner at which it is refused, and the planes that this leaves.
#[derive(Drop)]
struct OneTaken<P: Plane> {
    planes: PlaneSet<P>,
    bad: Option<u64>,
}

/// Appends the connections to those of the net, where each is a walk to the net's next pin with its
/// true cost in the state with those before it. Where one is not, nothing changes.
pub fn adopt_conns<P: Plane>(
    alloc: Global,
    board: &Board,
    made: &mut Made,
    planes: PlaneSet<P>,
    net: NetId,
    conns: &[Conn],
) -> Result<Adoption<P>, NoMemory>
    requires sitting { IsSitting board.now.parts made.old.lists planes }
    requires net { net.0 < length board.now.parts.net_names }
    ensures adopted { IfOk result (λ done. AreAdopted board.now.parts made.old.lists net conns.now done.outcome made.new.lists) }
    ensures sitting { IfOk result (λ done. IsSitting board.now.parts made.new.lists done.planes) }
{
    let before = copy_conns(alloc, made.conns(net))?;
    let Adoption { planes, outcome } = take_conns(alloc, board, made, planes, net, conns)?;
    match outcome {
        Adopted::Kept => Ok(Adoption { planes, outcome }),
        Adopted::Refused { .. } => {
            let planes = give_back(alloc, board, made, planes, net, before.as_slice())?;
            Ok(Adoption { planes, outcome })
        }
    }
}

/// Appends the connections to those of the net, up to the first that is refused.
fn take_conns<P: Plane>(
    alloc: Global,
    board: &Board,
    made: &mut Made,
    planes: PlaneSet<P>,
    net: NetId,
    conns: &[Conn],
) -> Result<Adoption<P>, NoMemory>
    requires sitting { IsSitting board.now.parts made.old.lists planes }
    requires net { net.0 < length board.now.parts.net_names }
    ensures taken { IfOk result (λ done. AreTaken board.now.parts made.old.lists net conns.now done.outcome made.new.lists) }
    ensures sitting { IfOk result (λ done. IsSitting board.now.parts made.new.lists done.planes) }
{
    let mut planes = planes;
    let mut number = 0;
    for conn in conns {
        let OneTaken { planes: after, bad } = take_conn(alloc, board, made, planes, net, conn)?;
        planes = after;
        if let Some(corner) = bad {
            let outcome = Adopted::Refused {
                conn: number,
                corner,
            };
            return Ok(Adoption { planes, outcome });
        }
        number += 1;
    }
    Ok(Adoption {
        planes,
        outcome: Adopted::Kept,
    })
}

/// Appends the connection to those of the net, unless it is refused.
fn take_conn<P: Plane>(
    alloc: Global,
    board: &Board,
    made: &mut Made,
    planes: PlaneSet<P>,
    net: NetId,
    conn: &Conn,
) -> Result<OneTaken<P>, NoMemory>
    requires sitting { IsSitting board.now.parts made.old.lists planes }
    requires net { net.0 < length board.now.parts.net_names }
    ensures taken { IfOk result (λ one. IsTakenOne board.now.parts made.old.lists net conn.now one.bad made.new.lists) }
    ensures sitting { IfOk result (λ one. IsSitting board.now.parts made.new.lists one.planes) }
{
    match refusal_of(alloc, board, made, &planes, net, conn)? {
        Some(corner) => Ok(OneTaken {
            planes,
            bad: Some(corner),
        }),
        None => {
            let planes = keep(alloc, board, made, planes, net, conn)?;
            Ok(OneTaken { planes, bad: None })
        }
    }
}

/// The corner at which the connection is refused, `None` where it is a walk to the net's next pin.
fn refusal_of<P: Plane>(
    alloc: Global,
    board: &Board,
    made: &Made,
    planes: &PlaneSet<P>,
    net: NetId,
    conn: &Conn,
) -> Result<Option<u64>, NoMemory>
    requires sitting { IsSitting board.now.parts made.now.lists planes.now }
    requires net { net.0 < length board.now.parts.net_names }
    ensures { IfOk result (IsVerdict board.now.parts made.now.lists net conn.now) }
{
    let pins = board.pin_count(net);
    let number = made.conns(net).len() as u32 + 1;
    if number >= pins {
        return Ok(Some(0));
    }
    let sources = attach_boxes(alloc, board, made, net)?;
    let targets = target_boxes(alloc, board, net, number)?;
    bad_corner(
        alloc,
        board,
        planes,
        net,
        sources.as_slice(),
        targets.as_slice(),
        conn,
    )
}

/// Gives the net these connections in place of those that it has.
fn give_back<P: Plane>(
    alloc: Global,
    board: &Board,
    made: &mut Made,
    planes: PlaneSet<P>,
    net: NetId,
    before: &[Conn],
) -> Result<PlaneSet<P>, NoMemory>
    requires sitting { IsSitting board.now.parts made.old.lists planes }
    requires net { net.0 < length board.now.parts.net_names }
    requires well_formed { All (IsWellFormed board.now.parts) before.now }
    ensures lists { IfOk result (λ _. made.new.lists ≡ slice_set made.old.lists net.0 before.now) }
    ensures sitting { IfOk result (λ set. (first : PlaneTable)
        → IsSitting board.now.parts made.new.lists first
        → IsSitting board.now.parts made.new.lists set) }
{
    let planes = rip(alloc, board, made, planes, net)?;
    let shapes = shapes_of_conns(alloc, board, net, before)?;
    let planes = merge(alloc, board, planes, shapes.as_slice())?;
    append_all(alloc, made, net, before)?;
    Ok(planes)
}

/// Appends the connections to those of the net.
fn append_all(alloc: Global, made: &mut Made, net: NetId, conns: &[Conn]) -> Result<(), NoMemory>
    requires net { net.0 < length made.old.lists }
    ensures { OnOk result (made.new.lists ≡ slice_set made.old.lists net.0 (conns_of made.old.lists net ++ conns.now)) }
{
    for conn in conns {
        made.append(net, copy_of(alloc, conn)?)?;
    }
    Ok(())
}

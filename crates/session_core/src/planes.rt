//! Planes for the first command that needs them.

ghost use Rattle.std.specs.Prelude.{IfOk, List as Items};
ghost use Rattle.board_model.specs.declared.made.Conn.{Conn as Connection};
ghost use Rattle.session_core.specs.Sessions.{IsSession, IsSitting};

use board_model::Board;
use geo_rect::NoMemory;
use plane_core::Plane;
use plane_set::PlaneSet;
use std::alloc::Global;

/// The planes of a session: those that it has, or new ones of the board where it has none yet.
pub fn ready<P: Plane>(
    alloc: Global,
    board: &Board,
    planes: Option<PlaneSet<P>>,
) -> Result<PlaneSet<P>, NoMemory>
    ensures { IfOk result (λ set. (lists : Items (Items Connection))
        → IsSession board.now.parts lists planes
        → IsSitting board.now.parts lists set) }
{
    match planes {
        Some(planes) => Ok(planes),
        None => PlaneSet::build(alloc, board),
    }
}

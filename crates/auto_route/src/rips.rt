//! A fresh start.

ghost use Rattle.std.specs.Prelude.{◌≡◌, ◌<◌, length, IfOk};
ghost use Rattle.board_model.specs.Made.{without_conns};
ghost use Rattle.route_law.specs.Steps.{nothing_made};

use board_model::Command;
use geo_rect::{NetId, NoMemory};
use plane_core::Plane;
use session_core::Session;
use std::alloc::Global;

/// Removes the connections of every net.
pub fn rip_all<P: Plane>(alloc: Global, s: Session<P>) -> Result<Session<P>, NoMemory>
    ensures board { IfOk result (λ a. a.parts ≡ s.parts) }
    ensures nothing { IfOk result (λ a. a.lists ≡ nothing_made s.parts) }
{
    // What is made has a list for each net.
    let _made = s.made();
    let nets = s.board().nets();
    let mut session = s;
    for number in 0..nets {
        session = rip(alloc, session, NetId(number))?;
    }
    Ok(session)
}

/// Removes the connections of the net.
fn rip<P: Plane>(alloc: Global, s: Session<P>, net: NetId) -> Result<Session<P>, NoMemory>
    requires net { net.0 < length s.parts.net_names }
    ensures board { IfOk result (λ a. a.parts ≡ s.parts) }
    ensures lists { IfOk result (λ a. a.lists ≡ without_conns s.lists net) }
{
    let (session, _) = s.apply(alloc, &Command::Rip(net))?;
    Ok(session)
}

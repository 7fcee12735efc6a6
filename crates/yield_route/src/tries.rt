//! Giving nets back the connections that they had.

ghost use Rattle.std.specs.Prelude.{◌≡◌, length, All, IfOk};
ghost use Rattle.route_law.specs.Regular.{IsNetOf};
ghost use Rattle.yield_route.specs.Named.{IsAsideOf, IsBackOf};
ghost use Rattle.yield_route.specs.Outcomes.{back_of, IsNumbered};
ghost use Rattle.yield_route.specs.Yielding.{AreBack, IsBack};

use crate::asides::Aside;
use crate::told::Back;
use board_model::Conn;
use geo_rect::{List, NetId, NoMemory};
use plane_core::Plane;
use session_core::{Adopted, Session};
use std::alloc::Global;

/// Gives each of the nets, in order, its connections back where all of them are walks one after
/// another, and tells what came of each.
pub fn give_back<P: Plane>(
    alloc: Global,
    first: Session<P>,
    asides: &[Aside],
) -> Result<(Session<P>, List<Back>), NoMemory>
    requires nets { All (IsAsideOf first.parts) asides.now }
    ensures back { IfOk result (λ a. AreBack first.parts first.lists asides.now a.1 a.0.lists) }
    ensures board { IfOk result (λ a. a.0.parts ≡ first.parts) }
    ensures regular { IfOk result (λ a. All (IsBackOf first.parts) a.1) }
{
    let mut s = first;
    let mut told = List::new(alloc);
    for aside in asides {
        let (next, back) = give_one(alloc, s, aside.net, aside.conns.as_slice())?;
        s = next;
        told.push(back)?;
    }
    Ok((s, told))
}

/// Gives the net these connections, which it had, where all of them are walks one after another.
fn give_one<P: Plane>(
    alloc: Global,
    s: Session<P>,
    net: NetId,
    conns: &[Conn],
) -> Result<(Session<P>, Back), NoMemory>
    requires net { IsNetOf s.parts net }
    ensures back { IfOk result (λ a. IsBack s.parts s.lists net conns.now a.1 a.0.lists) }
    ensures board { IfOk result (λ a. a.0.parts ≡ s.parts) }
    ensures regular { IfOk result (λ a. IsBackOf s.parts a.1) }
{
    let (s, outcome) = s.adopt(alloc, net, conns)?;
    Ok((s, back_of(net, conns, outcome)))
}

/// What is told of the net, by what came of its connections.
fn back_of(net: NetId, conns: &[Conn], outcome: Adopted) -> Back
    requires numbered { IsNumbered (length conns.now) outcome }
    ensures { result ≡ back_of net (length conns.now) outcome }
{
    let count = conns.len() as u64;
    match outcome {
        Adopted::Kept => Back::Kept(net, count),
        Adopted::Refused { conn, .. } => Back::Out(net, conn + 1),
    }
}

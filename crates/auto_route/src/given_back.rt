//! The connections of a round, given back to the nets.

ghost use Rattle.std.specs.Prelude.{◌≡◌, map, IfOk};
ghost use Rattle.route_law.specs.declared.replies.Made1.{Made1 as TheMade};
ghost use Rattle.route_law.specs.Routing.{IsRouted};
ghost use Rattle.route_law.specs.Steps.{nothing_made};
ghost use Rattle.auto_route.specs.Rounds.{AreRouted};
ghost use Rattle.auto_route.specs.States.{after_net, last_state};

use crate::rips::rip_all;
use board_model::Conn;
use geo_rect::{List, NoMemory};
use plane_core::Plane;
use route_law::{Made1, Routed};
use session_core::{Adopted, Session};
use std::alloc::Global;

/// Removes all connections, and then gives each net those that were made for it in the round, in the
/// order of the round.
pub fn give_back<P: Plane>(
    alloc: Global,
    s: Session<P>,
    round: &[Routed],
) -> Result<Session<P>, NoMemory>
    requires routed { AreRouted s.parts (nothing_made s.parts) round.now }
    ensures board { IfOk result (λ a. a.parts ≡ s.parts) }
    ensures lists { IfOk result (λ a. a.lists ≡ last_state s.parts round.now) }
{
    let mut session = rip_all(alloc, s)?;
    for routed in round {
        session = give_net(alloc, session, routed)?;
    }
    Ok(session)
}

/// Gives a net the connections that were made for it from this state. None of them is refused.
fn give_net<P: Plane>(alloc: Global, s: Session<P>, routed: &Routed) -> Result<Session<P>, NoMemory>
    requires routed { IsRouted s.parts s.lists routed.now (after_net s.lists routed.now) }
    ensures board { IfOk result (λ a. a.parts ≡ s.parts) }
    ensures lists { IfOk result (λ a. a.lists ≡ after_net s.lists routed.now) }
{
    // What is made is a state, in which each net has as many connections as it needs at most.
    let _made = s.made();
    let conns = conns_of(alloc, routed.made.as_slice())?;
    let (session, adopted) = s.adopt(alloc, routed.net, conns.as_slice())?;
    match adopted {
        Adopted::Kept => Ok(session),
        Adopted::Refused { .. } => unreachable!(),
    }
}

/// The connections that were made, without their certificates.
fn conns_of(alloc: Global, made: &[Made1]) -> Result<List<Conn>, NoMemory>
    ensures { IfOk result (λ conns. conns ≡ map (λ (m : TheMade). m.conn) made.now) }
{
    let mut conns = List::new(alloc);
    for one in made {
        conns.push(Conn {
            start: one.conn.start,
            legs: List::from_slice(alloc, one.conn.legs.as_slice())?,
            cost: one.conn.cost,
        })?;
    }
    Ok(conns)
}

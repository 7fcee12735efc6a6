//! One round: every net is routed once, from a fresh start.

ghost use Rattle.std.specs.Prelude.{◌≡◌, ◌<◌, length, All, IfOk};
ghost use Rattle.board_parts.specs.declared.commands.Command.TheVariants as command;
ghost use Rattle.route_law.specs.Regular.{IsNetOf, IsRegularRouted};
ghost use Rattle.route_law.specs.Routing.{IsRouted};
ghost use Rattle.route_law.specs.Steps.{command_of};
ghost use Rattle.auto_route.specs.Rounds.{IsRound};
ghost use Rattle.auto_route.specs.States.{after_net, last_state};

use crate::rips::rip_all;
use board_model::Command;
use geo_rect::{List, NetId, NoMemory};
use plane_core::Plane;
use route_law::{Reply, Routed};
use session_core::Session;
use std::alloc::Global;

/// Removes all connections, and then routes the nets of the order, one after another.
pub fn play<P: Plane>(
    alloc: Global,
    s: Session<P>,
    order: &[NetId],
) -> Result<(Session<P>, List<Routed>), NoMemory>
    requires known { All (IsNetOf s.parts) order.now }
    ensures board { IfOk result (λ a. a.0.parts ≡ s.parts) }
    ensures round { IfOk result (λ a. IsRound s.parts order.now a.1) }
    ensures lists { IfOk result (λ a. a.0.lists ≡ last_state s.parts a.1) }
    ensures regular { IfOk result (λ a. All (IsRegularRouted s.parts) a.1) }
{
    let mut session = rip_all(alloc, s)?;
    let mut round = List::new(alloc);
    for net in order {
        let (after, routed) = route(alloc, session, *net)?;
        session = after;
        round.push(routed)?;
    }
    Ok((session, round))
}

/// Makes the connections that the net lacks, and tells what came of it.
fn route<P: Plane>(
    alloc: Global,
    s: Session<P>,
    net: NetId,
) -> Result<(Session<P>, Routed), NoMemory>
    requires net { net.0 < length s.parts.net_names }
    ensures board { IfOk result (λ a. a.0.parts ≡ s.parts) }
    ensures net { IfOk result (λ a. a.1.net ≡ net) }
    ensures routed { IfOk result (λ a. IsRouted s.parts s.lists a.1 (after_net s.lists a.1)) }
    ensures lists { IfOk result (λ a. a.0.lists ≡ after_net s.lists a.1) }
    ensures regular { IfOk result (λ a. IsRegularRouted s.parts a.1) }
{
    let (session, reply) = s.apply(alloc, &Command::Route(net))?;
    Ok((session, routed_of(net, reply)))
}

/// What came of the net, as the reply to its routing tells.
fn routed_of(net: NetId, reply: Reply) -> Routed
    requires { command.Route net ≡ command_of reply }
    ensures { reply ≡ Reply.Route result }
{
    match reply {
        Reply::Route(routed) => routed,
        _ => unreachable!(),
    }
}

//! The steps of a session by which a net is ripped up and a net is routed.

ghost use Rattle.std.specs.Prelude.{◌≡◌, IfOk};
ghost use Rattle.board_parts.specs.declared.commands.Command.TheVariants as command;
ghost use Rattle.route_law.specs.declared.replies.Reply.TheVariants as answer;
ghost use Rattle.route_law.specs.Regular.{IsNetOf, IsRegularRouted};
ghost use Rattle.route_law.specs.Steps.{IsStep};
ghost use Rattle.yield_route.specs.Yielding.{IsRipReply, IsRouteReply, rip_reply};

use crate::told::Ripped;
use board_model::Command;
use geo_rect::{NetId, NoMemory};
use plane_core::Plane;
use route_law::{Reply, Routed};
use session_core::Session;
use std::alloc::Global;

/// Removes the connections of the net, and tells how many there were.
pub fn rip_net<P: Plane>(
    alloc: Global,
    s: Session<P>,
    net: NetId,
) -> Result<(Session<P>, Ripped), NoMemory>
    requires net { IsNetOf s.parts net }
    ensures step { IfOk result (λ a. IsStep s.parts s.lists (command.Rip net) (rip_reply a.1) a.0.lists) }
    ensures board { IfOk result (λ a. a.0.parts ≡ s.parts) }
    ensures net { IfOk result (λ a. a.1.net ≡ net) }
{
    let (s, reply) = s.apply(alloc, &Command::Rip(net))?;
    Ok((s, ripped_in(&reply)))
}

/// Makes the connections that the net lacks, and tells what came of it.
pub fn route_net<P: Plane>(
    alloc: Global,
    s: Session<P>,
    net: NetId,
) -> Result<(Session<P>, Routed), NoMemory>
    requires net { IsNetOf s.parts net }
    ensures step { IfOk result (λ a. IsStep s.parts s.lists (command.Route net) (answer.Route a.1) a.0.lists) }
    ensures board { IfOk result (λ a. a.0.parts ≡ s.parts) }
    ensures regular { IfOk result (λ a. IsRegularRouted s.parts a.1) }
{
    let (s, reply) = s.apply(alloc, &Command::Route(net))?;
    Ok((s, routed_in(reply)))
}

/// What was removed, in the reply to `rip`.
fn ripped_in(reply: &Reply) -> Ripped
    requires { IsRipReply reply.now }
    ensures { reply.now ≡ rip_reply result }
{
    match reply {
        Reply::Rip(net, count) => Ripped {
            net: *net,
            count: *count,
        },
        _ => unreachable!(),
    }
}

/// What came of the net, in the reply to `route`.
fn routed_in(reply: Reply) -> Routed
    requires { IsRouteReply reply }
    ensures { reply ≡ answer.Route result }
{
    match reply {
        Reply::Route(routed) => routed,
        _ => unreachable!(),
    }
}

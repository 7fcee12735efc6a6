//! What each command does, and its reply.

ghost use Rattle.std.specs.Prelude.{◌<◌, length, IfOk};
ghost use Rattle.board_parts.specs.Commands.{IsCommandOf};
ghost use Rattle.board_parts.specs.declared.commands.Command.TheVariants as command;
ghost use Rattle.route_law.specs.Steps.{IsStep};
ghost use Rattle.session_core.specs.Sessions.{IsSession};

use crate::looks::{items_of, wire_strips};
use crate::planes::ready;
use crate::rips::rip_if_made;
use crate::routes::{AllRouted, OneRouted, route_all, route_net};
use board_model::{Board, Command, Made};
use geo_rect::{ClassId, LayerId, NetId, NoMemory};
use plane_core::Plane;
use plane_set::PlaneSet;
use route_law::Reply;
use rule_check::violations;
use std::alloc::Global;

/// The reply to a command, and the planes that it leaves, where they were needed already.
#[derive(Drop)]
pub struct Answered<P: Plane> {
    pub planes: Option<PlaneSet<P>>,
    pub reply: Reply,
}

/// Does what the command says to what is made and to the planes, and tells the reply. The first
/// command that needs planes builds them.
pub fn answer<P: Plane>(
    alloc: Global,
    board: &Board,
    made: &mut Made,
    planes: Option<PlaneSet<P>>,
    c: &Command,
) -> Result<Answered<P>, NoMemory>
    requires session { IsSession board.now.parts made.old.lists planes }
    requires known { IsCommandOf board.now.parts c.now }
    ensures step { IfOk result (λ done. IsStep board.now.parts made.old.lists c.now done.reply made.new.lists) }
    ensures session { IfOk result (λ done. IsSession board.now.parts made.new.lists done.planes) }
{
    match *c {
        Command::Route(net) => answer_route(alloc, board, made, planes, net),
        Command::All => answer_all(alloc, board, made, planes),
        Command::Rip(net) => answer_rip(alloc, board, made, planes, net),
        Command::Show(net) => answer_show(alloc, board, made, planes, net),
        Command::Rules => answer_rules(alloc, board, made, planes),
        Command::Strips(l, class) => answer_strips(alloc, board, made, planes, l, class),
    }
}

/// Makes the connections that the net lacks.
fn answer_route<P: Plane>(
    alloc: Global,
    board: &Board,
    made: &mut Made,
    planes: Option<PlaneSet<P>>,
    net: NetId,
) -> Result<Answered<P>, NoMemory>
    requires session { IsSession board.now.parts made.old.lists planes }
    requires net { net.0 < length board.now.parts.net_names }
    ensures step { IfOk result (λ done. IsStep board.now.parts made.old.lists (command.Route net) done.reply made.new.lists) }
    ensures session { IfOk result (λ done. IsSession board.now.parts made.new.lists done.planes) }
{
    let planes = ready(alloc, board, planes)?;
    let OneRouted { planes, routed } = route_net(alloc, board, made, planes, net)?;
    Ok(Answered {
        planes: Some(planes),
        reply: Reply::Route(routed),
    })
}

/// Makes the connections that all nets lack.
fn answer_all<P: Plane>(
    alloc: Global,
    board: &Board,
    made: &mut Made,
    planes: Option<PlaneSet<P>>,
) -> Result<Answered<P>, NoMemory>
    requires session { IsSession board.now.parts made.old.lists planes }
    ensures step { IfOk result (λ done. IsStep board.now.parts made.old.lists command.All done.reply made.new.lists) }
    ensures session { IfOk result (λ done. IsSession board.now.parts made.new.lists done.planes) }
{
    let planes = ready(alloc, board, planes)?;
    let AllRouted { planes, nets } = route_all(alloc, board, made, planes)?;
    Ok(Answered {
        planes: Some(planes),
        reply: Reply::All(nets),
    })
}

/// Removes the connections of the net.
fn answer_rip<P: Plane>(
    alloc: Global,
    board: &Board,
    made: &mut Made,
    planes: Option<PlaneSet<P>>,
    net: NetId,
) -> Result<Answered<P>, NoMemory>
    requires session { IsSession board.now.parts made.old.lists planes }
    requires net { net.0 < length board.now.parts.net_names }
    ensures step { IfOk result (λ done. IsStep board.now.parts made.old.lists (command.Rip net) done.reply made.new.lists) }
    ensures session { IfOk result (λ done. IsSession board.now.parts made.new.lists done.planes) }
{
    let count = made.conns(net).len() as u64;
    let planes = rip_if_made(alloc, board, made, planes, net)?;
    Ok(Answered {
        planes,
        reply: Reply::Rip(net, count),
    })
}

/// Lists the connections of the net.
fn answer_show<P: Plane>(
    alloc: Global,
    board: &Board,
    made: &Made,
    planes: Option<PlaneSet<P>>,
    net: NetId,
) -> Result<Answered<P>, NoMemory>
    requires session { IsSession board.now.parts made.now.lists planes }
    requires net { net.0 < length board.now.parts.net_names }
    ensures step { IfOk result (λ done. IsStep board.now.parts made.now.lists (command.Show net) done.reply made.now.lists) }
    ensures session { IfOk result (λ done. IsSession board.now.parts made.now.lists done.planes) }
{
    let needed = board.pin_count(net).saturating_sub(1) as u64;
    let items = items_of(alloc, made.conns(net))?;
    Ok(Answered {
        planes,
        reply: Reply::Show(net, needed, items),
    })
}

/// Lists the violations.
fn answer_rules<P: Plane>(
    alloc: Global,
    board: &Board,
    made: &Made,
    planes: Option<PlaneSet<P>>,
) -> Result<Answered<P>, NoMemory>
    requires session { IsSession board.now.parts made.now.lists planes }
    ensures step { IfOk result (λ done. IsStep board.now.parts made.now.lists command.Rules done.reply made.now.lists) }
    ensures session { IfOk result (λ done. IsSession board.now.parts made.now.lists done.planes) }
{
    let found = violations(alloc, board, made)?;
    Ok(Answered {
        planes,
        reply: Reply::Rules(found),
    })
}

/// Lists the strips of the wire plane of a class on a layer.
fn answer_strips<P: Plane>(
    alloc: Global,
    board: &Board,
    made: &Made,
    planes: Option<PlaneSet<P>>,
    l: LayerId,
    class: ClassId,
) -> Result<Answered<P>, NoMemory>
    requires session { IsSession board.now.parts made.now.lists planes }
    requires layer { l.0 < length board.now.parts.layers }
    requires class { class.0 < length board.now.parts.classes }
    ensures step { IfOk result (λ done. IsStep board.now.parts made.now.lists (command.Strips l class) done.reply made.now.lists) }
    ensures session { IfOk result (λ done. IsSession board.now.parts made.now.lists done.planes) }
{
    let planes = ready(alloc, board, planes)?;
    let strips = wire_strips(alloc, board, &planes, l, class)?;
    Ok(Answered {
        planes: Some(planes),
        reply: Reply::Strips(l, class, strips),
    })
}

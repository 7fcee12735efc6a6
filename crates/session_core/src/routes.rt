//! Routing: the connections that a net lacks, and those that all nets lack.

ghost use Rattle.std.specs.Prelude.{◌≡◌, ◌<◌, length, IfOk};
ghost use Rattle.route_law.specs.Routing.{IsRouted, AreRoutedFrom};
ghost use Rattle.session_core.specs.Sessions.{IsSitting};

use crate::turns::{Turn, make_next};
use board_model::{Board, Made};
use geo_rect::{List, NetId, NoMemory};
use plane_core::Plane;
use plane_set::PlaneSet;
use route_law::Routed;
use std::alloc::Global;

/// What came of routing a net, and the planes that this leaves.
#[derive(Drop)]
pub struct OneRouted<P: Plane> {
    pub planes: PlaneSet<P>,
    pub routed: Routed,
}

/// What came of routing each net, and the planes that this leaves.
#[derive(Drop)]
pub struct AllRouted<P: Plane> {
    pub planes: PlaneSet<P>,
    pub nets: List<Routed>,
}

/// Makes the connections that the net lacks, one after the other, until none is missing or the next
/// one has no route.
pub fn route_net<P: Plane>(
    alloc: Global,
    board: &Board,
    made: &mut Made,
    planes: PlaneSet<P>,
    net: NetId,
) -> Result<OneRouted<P>, NoMemory>
    requires sitting { IsSitting board.now.parts made.old.lists planes }
    requires net { net.0 < length board.now.parts.net_names }
    ensures net { IfOk result (λ done. done.routed.net ≡ net) }
    ensures routed { IfOk result (λ done. IsRouted board.now.parts made.old.lists done.routed made.new.lists) }
    ensures sitting { IfOk result (λ done. IsSitting board.now.parts made.new.lists done.planes) }
{
    let pins = board.pin_count(net);
    let first = made.conns(net).len() as u32 + 1;
    let missing = pins.saturating_sub(first) as u64;
    let mut planes = planes;
    let mut list = List::new(alloc);
    for number in first..pins {
        let Turn {
            planes: after,
            none,
        } = make_next(alloc, board, made, planes, net, number, &mut list)?;
        planes = after;
        if none.is_some() {
            let routed = Routed {
                net,
                missing,
                made: list,
                none,
            };
            return Ok(OneRouted { planes, routed });
        }
    }
    let routed = Routed {
        net,
        missing,
        made: list,
        none: None,
    };
    Ok(OneRouted { planes, routed })
}

/// Does so for each net, in the order of the text. A net without a route does not keep the next ones
/// from theirs.
pub fn route_all<P: Plane>(
    alloc: Global,
    board: &Board,
    made: &mut Made,
    planes: PlaneSet<P>,
) -> Result<AllRouted<P>, NoMemory>
    requires sitting { IsSitting board.now.parts made.old.lists planes }
    ensures nets { IfOk result (λ done. length done.nets ≡ length board.now.parts.net_names) }
    ensures routed { IfOk result (λ done. AreRoutedFrom board.now.parts 0 made.old.lists done.nets made.new.lists) }
    ensures sitting { IfOk result (λ done. IsSitting board.now.parts made.new.lists done.planes) }
{
    let mut planes = planes;
    let mut nets = List::new(alloc);
    for number in 0..board.nets() {
        let OneRouted {
            planes: after,
            routed,
        } = route_net(alloc, board, made, planes, NetId(number))?;
        planes = after;
        nets.push(routed)?;
    }
    Ok(AllRouted { planes, nets })
}

//! The connections of nets, kept aside.

ghost use Rattle.std.specs.Prelude.{◌≡◌, ◌<◌, length, map, take, All, IfOk};
ghost use Rattle.board_model.specs.Made.{conns_of};
ghost use Rattle.yield_route.specs.Named.{IsListed};
ghost use Rattle.yield_route.specs.Yielding.{aside_of};

use board_model::{Conn, Made, copy_conns};
use geo_rect::{List, NetId, NoMemory};
use std::alloc::Global;

/// A net, and the connections that it had.
#[derive(Drop)]
pub struct Aside {
    pub net: NetId,
    pub conns: List<Conn>,
}

/// The connections of each of the nets, in order.
pub fn put_aside(alloc: Global, made: &Made, nets: &[NetId]) -> Result<List<Aside>, NoMemory>
    requires nets { All (IsListed made.now.lists) nets.now }
    ensures { IfOk result (λ asides. asides ≡ map (aside_of made.now.lists) nets.now) }
{
    let mut asides = List::new(alloc);
    for net in nets {
        let conns = copy_conns(alloc, made.conns(*net))?;
        asides.push(Aside { net: *net, conns })?;
    }
    Ok(asides)
}

//! A net routed through others, from the first step to the last.

ghost use Rattle.std.specs.Prelude.{◌≡◌, All, IfOk};
ghost use Rattle.route_law.specs.Kept.{IsState};
ghost use Rattle.route_law.specs.Regular.{IsNetOf};
ghost use Rattle.route_law.specs.Steps.{IsRunFrom};
ghost use Rattle.yield_route.specs.Named.{IsRegularThrough, IsRippedOf};
ghost use Rattle.yield_route.specs.Yielding.{rip_replies, rips_of, IsThroughRun};

use crate::asides::put_aside;
use crate::steps::{rip_net, route_net};
use crate::told::{Ripped, Through};
use crate::tries::give_back;
use geo_rect::{List, NetId, NoMemory};
use plane_core::Plane;
use session_core::Session;
use std::alloc::Global;

/// Routes the net through the others: removes the connections of each of them, makes those that the
/// net lacks, and then gives each of the others, in order, its old connections back, where all of them
/// are walks of it still, with what was given back before them. All these nets are in the board, and
/// they are meant to be different ones. What is given back may be dearer now than need be. After
/// `NoMemory` the session is gone.
pub fn through<P: Plane>(
    alloc: Global,
    s: Session<P>,
    net: NetId,
    others: &[NetId],
) -> Result<(Session<P>, Through), NoMemory>
    requires net { IsNetOf s.parts net }
    requires others { All (IsNetOf s.parts) others.now }
    ensures run { IfOk result (λ a. IsThroughRun s.parts s.lists net others.now a.1 a.0.lists) }
    ensures board { IfOk result (λ a. a.0.parts ≡ s.parts) }
    ensures kept { IfOk result (λ a. IsState s.parts a.0.lists) }
    ensures regular { IfOk result (λ a. IsRegularThrough s.parts a.1) }
{
    let asides = put_aside(alloc, s.made(), others)?;
    let (s, ripped) = rip_each(alloc, s, others)?;
    let (s, routed) = route_net(alloc, s, net)?;
    let (s, back) = give_back(alloc, s, asides.as_slice())?;
    let _made = s.made();
    let told = Through {
        ripped,
        routed,
        back,
    };
    Ok((s, told))
}

/// Removes the connections of each of the nets, in order, and tells how many there were.
fn rip_each<P: Plane>(
    alloc: Global,
    first: Session<P>,
    nets: &[NetId],
) -> Result<(Session<P>, List<Ripped>), NoMemory>
    requires nets { All (IsNetOf first.parts) nets.now }
    ensures run { IfOk result (λ a. IsRunFrom first.parts first.lists (rips_of nets.now) (rip_replies a.1) a.0.lists) }
    ensures board { IfOk result (λ a. a.0.parts ≡ first.parts) }
    ensures regular { IfOk result (λ a. All (IsRippedOf first.parts) a.1) }
{
    let mut s = first;
    let mut told = List::new(alloc);
    for net in nets {
        let (next, ripped) = rip_net(alloc, s, *net)?;
        s = next;
        told.push(ripped)?;
    }
    Ok((s, told))
}

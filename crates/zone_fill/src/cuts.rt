//! What a zone has of strips.

ghost use Rattle.std.specs.Prelude.{IfOk, IfSome, IfNone};
ghost use Rattle.plane_core.specs.Strips.{IsInOrder};
ghost use Rattle.zone_fill.specs.Cuts.{IsOpenStrip, IsOpenPart, AreOpenParts};

use geo_rect::{List, NetId, NoMemory, Rect, meet};
use plane_core::Strip;
use std::alloc::Global;
use strip_moves::admits;

/// What the zone has of those strips that the net may pass, in their order.
pub fn open_parts(
    alloc: Global,
    strips: &[Strip],
    net: NetId,
    zone: Rect,
) -> Result<List<Rect>, NoMemory>
    requires { IsInOrder strips.now }
    ensures { IfOk result (λ parts. AreOpenParts net zone strips.now parts) }
{
    let mut parts = List::new(alloc);
    for strip in strips {
        if let Some(part) = open_part(*strip, net, zone) {
            parts.push(part)?;
        }
    }
    Ok(parts)
}

/// What the zone has of a strip, if the net may pass it and it has a point of the zone.
fn open_part(strip: Strip, net: NetId, zone: Rect) -> Option<Rect>
    ensures some { IfSome result (λ part. IsOpenPart net zone strip part) }
    ensures none { IfNone result (¬ IsOpenStrip net zone strip) }
{
    if !admits(strip.label, net) {
        return None;
    }
    meet(zone, strip.area)
}

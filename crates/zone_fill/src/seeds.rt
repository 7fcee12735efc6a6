//! The parts in which a flood begins: those with a point of a shape of the net.

ghost use Rattle.std.specs.Prelude.{◌≡◌, ◌↔◌, IsTrue, Some, IfOk};
ghost use Rattle.zone_fill.specs.Seeds.{IsSeedOf, HasSeed, AreSeeds};

use board_model::Shape;
use geo_rect::{LayerId, NetId, NoMemory, Rect};
use plane_core::meets;
use std::alloc::Global;

/// For each part whether it has a point of a shape of the net on the layer.
pub fn seeds_of(
    alloc: Global,
    parts: &[Rect],
    shapes: &[Shape],
    net: NetId,
    layer: LayerId,
) -> Result<Vec<bool>, NoMemory>
    ensures { IfOk result (λ seeds. AreSeeds shapes.now net layer parts.now seeds.items) }
{
    let mut seeds = Vec::new(alloc);
    for part in parts {
        seeds.push(has_seed(*part, shapes, net, layer))?;
    }
    Ok(seeds)
}

/// Whether the part has a point of a shape of the net on the layer.
fn has_seed(part: Rect, shapes: &[Shape], net: NetId, layer: LayerId) -> bool
    ensures { IsTrue result ↔ HasSeed shapes.now net layer part }
{
    for shape in shapes {
        if is_seed(*shape, part, net, layer) {
            return true;
        }
    }
    false
}

/// Whether the shape is the net's, on the layer, and has a point of the part.
fn is_seed(shape: Shape, part: Rect, net: NetId, layer: LayerId) -> bool
    ensures { IsTrue result ↔ IsSeedOf part net layer shape }
{
    if shape.layer.0 != layer.0 {
        return false;
    }
    if !is_owned_by(shape.owner, net) {
        return false;
    }
    meets(shape.area, part)
}

/// Whether the owner is the net.
fn is_owned_by(owner: Option<NetId>, net: NetId) -> bool
    ensures { IsTrue result ↔ (owner ≡ Some net) }
{
    match owner {
        None => false,
        Some(other) => other.0 == net.0,
    }
}

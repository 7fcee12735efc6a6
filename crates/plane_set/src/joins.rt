//! One more shape in a plane.

ghost use Rattle.std.specs.Prelude.{◌≡◌, IfOk, IfSome, IfNone};
ghost use Rattle.geo_rect.specs.declared.shapes.Point.{Point};
ghost use Rattle.geo_rect.specs.Plane.{HasPoint, LiesIn};
ghost use Rattle.board_model.specs.Labels.{joined};
ghost use Rattle.plane_core.specs.Choice.{Meets};
ghost use Rattle.plane_core.specs.Labels.{label_of, IsPlane};
ghost use Rattle.plane_set.specs.Joins.{HaveInCommon, IsJoined, IsPieceJoined};

use geo_rect::{Label, NetId, NoMemory, Rect, meet};
use plane_core::{Plane, Strip};
use std::alloc::Global;

/// Gives each point of `area`, a part of the domain, the label that it has with one more shape of
/// this owner. After `NoMemory` the plane is gone.
pub fn paint_shape<P: Plane>(
    alloc: Global,
    plane: P,
    area: Rect,
    owner: Option<NetId>,
) -> Result<P, NoMemory>
    requires inside { LiesIn area (P.region plane) }
    ensures region { IfOk result (λ new. P.region new ≡ P.region plane) }
    ensures labels { IfOk result (λ new. IsJoined (P.region plane) area owner (label_of (P.strips plane)) (label_of (P.strips new))) }
    ensures canonical { IfOk result (λ new. IsPlane (P.region new) (P.strips new)) }
{
    let _domain = plane.domain();
    let found = plane.strips_in(alloc, area)?;
    let mut painted = plane;
    for strip in found.as_slice() {
        painted = join_strip(alloc, painted, area, *strip, owner)?;
    }
    Ok(painted)
}

/// Gives each point of the strip that lies in `area` its label with one more shape of this owner.
fn join_strip<P: Plane>(
    alloc: Global,
    plane: P,
    area: Rect,
    strip: Strip,
    owner: Option<NetId>,
) -> Result<P, NoMemory>
    requires inside { LiesIn area (P.region plane) }
    requires meets { Meets strip.area area }
    requires labelled { (p : Point) → HaveInCommon area strip.area p → label_of (P.strips plane) p ≡ strip.label }
    requires canonical { IsPlane (P.region plane) (P.strips plane) }
    ensures region { IfOk result (λ new. P.region new ≡ P.region plane) }
    ensures labels { IfOk result (λ new. IsPieceJoined (P.region plane) area strip.area strip.label owner (label_of (P.strips plane)) (label_of (P.strips new))) }
    ensures canonical { IfOk result (λ new. IsPlane (P.region new) (P.strips new)) }
{
    let Some(label) = changed_label(strip.label, owner) else {
        return Ok(plane);
    };
    let Some(piece) = meet(area, strip.area) else {
        return Ok(plane);
    };
    plane.paint(alloc, piece, label)
}

/// The label with one more shape of this owner; `None` where it stays as it is.
fn changed_label(label: Label, owner: Option<NetId>) -> Option<Label>
    ensures some { IfSome result (λ new. new ≡ joined label owner) }
    ensures none { IfNone result (joined label owner ≡ label) }
{
    match (label, owner) {
        (Label::Free, None) => Some(Label::Many),
        (Label::Free, Some(net)) => Some(Label::One(net)),
        (Label::One(_), None) => Some(Label::Many),
        (Label::One(net), Some(other)) => {
            if net.0 == other.0 {
                return None;
            }
            Some(Label::Many)
        }
        (Label::Many, _) => None,
    }
}

ghost use Rattle.std.specs.Prelude.{◌≡◌, ◌∷◌, [], List, Contains, IfOk};
ghost use Rattle.geo_rect.specs.declared.ids.Label.TheVariants.{Free};
ghost use Rattle.geo_rect.specs.declared.shapes.Point.{Point};
ghost use Rattle.geo_rect.specs.declared.shapes.Rect.{Rect};
ghost use Rattle.geo_rect.specs.Plane.{HasPoint, LiesIn};
ghost use Rattle.plane_core.specs.declared.strips.Strip.{Strip};
ghost use Rattle.plane_core.specs.Choice.{IsChoice, Meets};
ghost use Rattle.plane_core.specs.Labels.{label_of, IsPainted, IsPlane, IsSmall};
ghost use Rattle.plane_core.specs.Sides.{IsBeside};
ghost use Rattle.plane_core.specs.Strips.{IsHeld};

use crate::sides::Side;
use crate::strips::{Strip, Strips};
use geo_rect::{Label, NoMemory, Point, Rect};
use std::alloc::Global;

/// A rectangle of whole points, each with a label, kept as its maximal horizontal strips.
pub trait Plane: Sized + Drop {
    /// The rectangle whose points have labels.
    ghost region: { Self → Rect };

    /// The strips, by their lowest row and then by their leftmost column.
    ghost strips: { Self → List Strip };

    /// The plane over `domain` in which each point is free. Coordinates lie between -2^24 and 2^24.
    fn new(alloc: Global, domain: Rect) -> Result<Self, NoMemory>
        requires { IsSmall domain }
        ensures region { IfOk result (λ plane. region plane ≡ domain) }
        ensures strips { IfOk result (λ plane. strips plane ≡ record { area = domain; label = Free } ∷ []) };

    /// The rectangle whose points have labels.
    fn domain(&self) -> Rect
        ensures domain { result ≡ region self.now }
        ensures small { IsSmall (region self.now) }
        ensures canonical { IsPlane (region self.now) (strips self.now) };

    /// The strip that has the point `p` of the domain.
    fn strip_at(&self, p: Point) -> Strip
        requires { HasPoint (region self.now) p }
        ensures has_point { HasPoint result.area p }
        ensures listed { Contains (strips self.now) result }
        ensures label { label_of (strips self.now) p ≡ result.label }
        ensures small { IsSmall (region self.now) }
        ensures canonical { IsPlane (region self.now) (strips self.now) };

    /// The strips that have a point of `area`, a part of the domain, in order.
    fn strips_in(&self, alloc: Global, area: Rect) -> Result<Strips, NoMemory>
        requires { LiesIn area (region self.now) }
        ensures found { IfOk result (λ found. IsChoice (strips self.now) (λ s. Meets s.area area) found) }
        ensures covered { IfOk result (λ found. (p : Point) → HasPoint area p → IsHeld found p) };

    /// The strips that have a point one step past the edge of the strip `t` on this side, in order.
    fn beside(&self, alloc: Global, t: Strip, side: Side) -> Result<Strips, NoMemory>
        requires { Contains (strips self.now) t }
        ensures { IfOk result (λ found. IsChoice (strips self.now) (λ s. IsBeside side t.area s.area) found) };

    /// Gives each point of `area`, a part of the domain, the label. Each other point keeps its own.
    /// After `NoMemory` the plane is gone.
    fn paint(self, alloc: Global, area: Rect, label: Label) -> Result<Self, NoMemory>
        requires { LiesIn area (region self) }
        ensures region { IfOk result (λ plane. region plane ≡ region self) }
        ensures labels { IfOk result (λ plane. IsPainted (region self) area label (label_of (strips self)) (label_of (strips plane))) }
        ensures canonical { IfOk result (λ plane. IsPlane (region plane) (strips plane)) };
}

//! Where a shape, or the area of a keep-out, keeps the middles of wires and vias away.

ghost use Rattle.std.specs.Prelude.{◌≡◌, ◌<◌, ◌↔◌, length, pos};
ghost use Rattle.geo_rect.specs.declared.shapes.Point.{Point};
ghost use Rattle.geo_rect.specs.Plane.{HasPoint, IsBounded, IsTooClose, square};
ghost use Rattle.board_model.specs.Known.{IsKnown, IsNearOrigin};
ghost use Rattle.board_parts.specs.Lookup.{rule_of, pad_on, kind_of};
ghost use Rattle.board_model.specs.Labels.{Hits, IsInSpan, wire_plane, via_plane};
ghost use Rattle.board_parts.specs.Rules.{IsMeasure, IsOnBoard};

use board_model::{Board, Shape};
use geo_rect::{ClassId, KindId, LayerId, Rect, grown};

/// The points at which a wire of class `c` on layer `l`, the shape's layer, is too close to `s`.
pub fn wire_grow(board: &Board, l: LayerId, c: ClassId, s: &Shape) -> Rect
    requires class { c.0 < length board.now.parts.classes }
    requires known { IsKnown board.now.parts s.now }
    requires layer { s.now.layer ≡ l }
    ensures hits { (p : Point)
        → HasPoint result p ↔ Hits (wire_plane board.now.parts l c) p s.now }
    ensures bounded { IsBounded result }
{
    let half = board.rule(l, c).half;
    let gap = board.gap_to(l, c, s.owner);
    kept_away(s.area, half, gap)
}

/// The points at which a via of kind `k` of class `c` has a pad too close to `s`, whose layer is one
/// of the kind's span.
pub fn via_grow(board: &Board, k: KindId, c: ClassId, s: &Shape) -> Rect
    requires kind { k.0 < length board.now.parts.kinds }
    requires class { c.0 < length board.now.parts.classes }
    requires known { IsKnown board.now.parts s.now }
    requires span { IsInSpan (kind_of board.now.parts k) s.now.layer }
    ensures hits { (p : Point)
        → HasPoint result p ↔ Hits (via_plane board.now.parts k c) p s.now }
    ensures bounded { IsBounded result }
{
    let pad = board.pad_on(k, c, s.layer);
    let gap = board.gap_to(s.layer, c, s.owner);
    kept_away(s.area, pad, gap)
}

/// The points at which a wire of class `c` on layer `l` is too close to an area that is kept free of
/// wires there.
pub fn wire_keep(board: &Board, l: LayerId, c: ClassId, area: Rect) -> Rect
    requires layer { l.0 < length board.now.parts.layers }
    requires class { c.0 < length board.now.parts.classes }
    requires area { IsOnBoard board.now.parts.width board.now.parts.height area }
    ensures points { (p : Point) → HasPoint result p
        ↔ IsTooClose (square p (rule_of board.now.parts l c).half) area (pos 1) }
    ensures bounded { IsBounded result }
{
    let half = board.rule(l, c).half;
    kept_away(area, half, 1)
}

/// The points at which a via of kind `k` of class `c` has a pad on layer `l`, one of the kind's span,
/// that is too close to an area that is kept free of vias there.
pub fn via_keep(board: &Board, k: KindId, c: ClassId, l: LayerId, area: Rect) -> Rect
    requires kind { k.0 < length board.now.parts.kinds }
    requires class { c.0 < length board.now.parts.classes }
    requires span { IsInSpan (kind_of board.now.parts k) l }
    requires area { IsOnBoard board.now.parts.width board.now.parts.height area }
    ensures points { (p : Point) → HasPoint result p
        ↔ IsTooClose (square p (pad_on board.now.parts k c l)) area (pos 1) }
    ensures bounded { IsBounded result }
{
    let pad = board.pad_on(k, c, l);
    kept_away(area, pad, 1)
}

/// The points whose square of this half width is too close to the area for the gap.
fn kept_away(area: Rect, half: i32, gap: i32) -> Rect
    requires area { IsNearOrigin area }
    requires half { IsMeasure half }
    requires gap { IsMeasure gap }
    ensures points { (p : Point)
        → HasPoint result p ↔ IsTooClose (square p half) area gap }
    ensures bounded { IsBounded result }
{
    grown(area, half + gap)
}

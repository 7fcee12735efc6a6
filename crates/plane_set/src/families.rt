//! What the planes of wires and those of vias have alike: a row for each layer or kind, and in it
//! one plane for each class.

ghost use Rattle.std.specs.Prelude.{◌≡◌, ◌<◌, ◌↔◌, length, IfSome, IfNone};
ghost use Rattle.geo_rect.specs.declared.shapes.Point.{Point};
ghost use Rattle.geo_rect.specs.Plane.{HasPoint};
ghost use Rattle.board_model.specs.Known.{IsKnown};
ghost use Rattle.board_model.specs.Labels.{Hits, Shuts, wire_plane, via_plane};
ghost use Rattle.board_parts.specs.Rules.{IsKeepout, IsMeasure};
ghost use Rattle.plane_set.specs.Families.{rows_in, rule_in};

use board_model::{Board, Keepout, Shape};
use geo_rect::{ClassId, KindId, LayerId, Rect};
use grow_rules::{via_grow, via_keep, wire_grow, wire_keep};

/// The planes of wires, a row for each layer, or those of vias, a row for each kind.
#[derive(Clone, Copy)]
pub enum Family {
    Wires,
    Vias,
}

impl Family {
    /// The number of rows.
    pub fn rows(self, board: &Board) -> u32
        ensures { result ≡ rows_in board.now.parts self }
    {
        match self {
            Family::Wires => board.layers(),
            Family::Vias => board.kinds(),
        }
    }

    /// Half the width of the widest square round a point of the plane of class `c`, in micrometres.
    pub fn widest(self, board: &Board, row: u32, c: ClassId) -> i32
        requires row { row < rows_in board.now.parts self }
        requires class { c.0 < length board.now.parts.classes }
        ensures widest { result ≡ (rule_in board.now.parts self row c).widest }
        ensures measure { IsMeasure result }
    {
        match self {
            Family::Wires => board.rule(LayerId(row), c).half,
            Family::Vias => board.pad(KindId(row), c).max(board.inner(KindId(row), c)),
        }
    }

    /// The points of the plane of class `c` that the shape hits; `None` where it counts not at all.
    pub fn hit_area(self, board: &Board, row: u32, c: ClassId, s: &Shape) -> Option<Rect>
        requires row { row < rows_in board.now.parts self }
        requires class { c.0 < length board.now.parts.classes }
        requires known { IsKnown board.now.parts s.now }
        ensures some { IfSome result (λ r. (p : Point)
            → HasPoint r p ↔ Hits (rule_in board.now.parts self row c) p s.now) }
        ensures none { IfNone result ((p : Point)
            → Hits (rule_in board.now.parts self row c) p s.now → ⊥) }
    {
        match self {
            Family::Wires => wire_area(board, LayerId(row), c, s),
            Family::Vias => via_area(board, KindId(row), c, s),
        }
    }

    /// The points of the plane of class `c` that the keep-out shuts; `None` where it counts not at all.
    pub fn shut_area(self, board: &Board, row: u32, c: ClassId, keepout: &Keepout) -> Option<Rect>
        requires row { row < rows_in board.now.parts self }
        requires class { c.0 < length board.now.parts.classes }
        requires known { IsKeepout board.now.parts keepout.now }
        ensures some { IfSome result (λ r. (p : Point)
            → HasPoint r p ↔ Shuts (rule_in board.now.parts self row c) p keepout.now) }
        ensures none { IfNone result ((p : Point)
            → Shuts (rule_in board.now.parts self row c) p keepout.now → ⊥) }
    {
        match self {
            Family::Wires => wire_shut(board, LayerId(row), c, keepout),
            Family::Vias => via_shut(board, KindId(row), c, keepout),
        }
    }
}

fn wire_area(board: &Board, l: LayerId, c: ClassId, s: &Shape) -> Option<Rect>
    requires class { c.0 < length board.now.parts.classes }
    requires known { IsKnown board.now.parts s.now }
    ensures some { IfSome result (λ r. (p : Point)
        → HasPoint r p ↔ Hits (wire_plane board.now.parts l c) p s.now) }
    ensures none { IfNone result ((p : Point)
        → Hits (wire_plane board.now.parts l c) p s.now → ⊥) }
{
    if s.layer.0 != l.0 {
        return None;
    }
    Some(wire_grow(board, s.layer, c, s))
}

fn via_area(board: &Board, k: KindId, c: ClassId, s: &Shape) -> Option<Rect>
    requires kind { k.0 < length board.now.parts.kinds }
    requires class { c.0 < length board.now.parts.classes }
    requires known { IsKnown board.now.parts s.now }
    ensures some { IfSome result (λ r. (p : Point)
        → HasPoint r p ↔ Hits (via_plane board.now.parts k c) p s.now) }
    ensures none { IfNone result ((p : Point)
        → Hits (via_plane board.now.parts k c) p s.now → ⊥) }
{
    let kind = board.kind(k);
    if s.layer.0 < kind.first.0 {
        return None;
    }
    if s.layer.0 > kind.last.0 {
        return None;
    }
    Some(via_grow(board, k, c, s))
}

fn wire_shut(board: &Board, l: LayerId, c: ClassId, keepout: &Keepout) -> Option<Rect>
    requires class { c.0 < length board.now.parts.classes }
    requires known { IsKeepout board.now.parts keepout.now }
    ensures some { IfSome result (λ r. (p : Point)
        → HasPoint r p ↔ Shuts (wire_plane board.now.parts l c) p keepout.now) }
    ensures none { IfNone result ((p : Point)
        → Shuts (wire_plane board.now.parts l c) p keepout.now → ⊥) }
{
    if !keepout.wires {
        return None;
    }
    if keepout.layer.0 != l.0 {
        return None;
    }
    Some(wire_keep(board, keepout.layer, c, keepout.area))
}

fn via_shut(board: &Board, k: KindId, c: ClassId, keepout: &Keepout) -> Option<Rect>
    requires kind { k.0 < length board.now.parts.kinds }
    requires class { c.0 < length board.now.parts.classes }
    requires known { IsKeepout board.now.parts keepout.now }
    ensures some { IfSome result (λ r. (p : Point)
        → HasPoint r p ↔ Shuts (via_plane board.now.parts k c) p keepout.now) }
    ensures none { IfNone result ((p : Point)
        → Shuts (via_plane board.now.parts k c) p keepout.now → ⊥) }
{
    if keepout.wires {
        return None;
    }
    let kind = board.kind(k);
    if keepout.layer.0 < kind.first.0 {
        return None;
    }
    if keepout.layer.0 > kind.last.0 {
        return None;
    }
    Some(via_keep(board, k, c, keepout.layer, keepout.area))
}

//! What follows from the definition of a pour. These functions do nothing: their contracts are the laws.

ghost use Rattle.std.specs.Prelude.{◌≡◌, ◌↔◌, List};
ghost use Rattle.geo_rect.specs.declared.ids.LayerId.{LayerId};
ghost use Rattle.geo_rect.specs.declared.ids.NetId.{NetId};
ghost use Rattle.geo_rect.specs.declared.shapes.Point.{Point};
ghost use Rattle.geo_rect.specs.declared.shapes.Rect.{Rect};
ghost use Rattle.board_parts.specs.declared.parts.BoardParts.{BoardParts};
ghost use Rattle.board_model.specs.declared.shapes.Shape.{Shape};
ghost use Rattle.plane_set.specs.Joins.{IsInOneOf};
ghost use Rattle.zone_fill.specs.Pour.{IsReached, IsPour};
ghost use Rattle.zone_fill.specs.Rules.{KeepsRules};

/// The boxes of a pour have exactly the reached points.
pub fn a_pour_has_the_reached_points()
    ensures { (b : BoardParts) (shapes : List Shape) (n : NetId) (l : LayerId) (zone : Rect) (boxes : List Rect) (p : Point)
        → IsPour b shapes n l zone boxes → IsReached b shapes n l zone p ↔ IsInOneOf boxes p }
{}

/// Round each reached point, the square of the half width of the net's class keeps the outline, the gap to every
/// shape that is not the net's, and the keep-outs.
pub fn reached_points_keep_the_rules()
    ensures { (b : BoardParts) (shapes : List Shape) (n : NetId) (l : LayerId) (zone : Rect) (p : Point)
        → IsReached b shapes n l zone p → KeepsRules b shapes n l p }
{}

/// There is one pour: two lists of boxes that are it are equal.
pub fn there_is_one_pour()
    ensures { (b : BoardParts) (shapes : List Shape) (n : NetId) (l : LayerId) (zone : Rect) (xs ys : List Rect)
        → IsPour b shapes n l zone xs → IsPour b shapes n l zone ys → xs ≡ ys }
{}

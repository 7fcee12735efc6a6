//! Laws of the labels. Each function does nothing: its contract is the law. Proofs cite the lemmas
//! of `proofs/LabelLaws.antt`.

ghost use Rattle.std.specs.Prelude.{◌≡◌, ◌↔◌, ◌<◌, Bool, true, false, pos, length, List, [], ◌∷◌, ◌++◌, filter, Contains};
ghost use Rattle.geo_rect.specs.declared.ids.ClassId.{ClassId};
ghost use Rattle.geo_rect.specs.declared.ids.KindId.{KindId};
ghost use Rattle.geo_rect.specs.declared.ids.LayerId.{LayerId};
ghost use Rattle.geo_rect.specs.declared.ids.NetId.{NetId};
ghost use Rattle.geo_rect.specs.declared.ids.Node.{Node};
ghost use Rattle.geo_rect.specs.declared.shapes.Point.{Point};
ghost use Rattle.geo_rect.specs.Plane.{IsTooClose, square};
ghost use Rattle.board_parts.specs.declared.parts.BoardParts.{BoardParts};
ghost use Rattle.board_parts.specs.declared.parts.Keepout.{Keepout};
ghost use Rattle.board_model.specs.declared.shapes.Shape.{Shape};
ghost use Rattle.board_parts.specs.Rules.{IsBoard, IsOnBoard};
ghost use Rattle.board_parts.specs.Lookup.{rule_of, pad_on, kind_of, class_of};
ghost use Rattle.board_model.specs.Shapes.{place_of};
ghost use Rattle.board_parts.specs.Gaps.{gap_to};
ghost use Rattle.board_model.specs.Labels.{PlaneRule, wire_plane, via_plane, IsInSpan, Hits, Shuts, FitsBoard, IsAllowed, joined, label_among, IsFree, IsLeftTo, IsTakenBy, IsBarred, IsPassable, IsViaPassable};

use geo_rect::Label;

/// When a shape hits a point: it is on the plane's layer, or on one of the kind's span, and the
/// square of a wire, or of the pad on that layer, is too close to it for the gap on that layer.
pub fn hits_are_squares_too_close()
    ensures wire { (b : BoardParts) (l : LayerId) (c : ClassId) (p : Point) (s : Shape)
        → Hits (wire_plane b l c) p s
        ↔ ((s.layer ≡ l)
        × IsTooClose (square p (rule_of b l c).half) s.area (gap_to b l c s.owner)) }
    ensures via { (b : BoardParts) (k : KindId) (c : ClassId) (p : Point) (s : Shape)
        → Hits (via_plane b k c) p s
        ↔ (IsInSpan (kind_of b k) s.layer
        × IsTooClose (square p (pad_on b k c s.layer)) s.area (gap_to b s.layer c s.owner)) }
{}

/// When a keep-out shuts a point: it is for wires and on the plane's layer, or for vias and on a layer
/// of the kind's span, and the square of a wire, or of the pad on that layer, is too close to it for a
/// gap of 1.
pub fn keepouts_shut_squares()
    ensures wire { (b : BoardParts) (l : LayerId) (c : ClassId) (p : Point) (k : Keepout)
        → Shuts (wire_plane b l c) p k
        ↔ (((k.wires ≡ true) × (k.layer ≡ l))
        × IsTooClose (square p (rule_of b l c).half) k.area (pos 1)) }
    ensures via { (b : BoardParts) (kind : KindId) (c : ClassId) (p : Point) (k : Keepout)
        → Shuts (via_plane b kind c) p k
        ↔ (((k.wires ≡ false) × IsInSpan (kind_of b kind) k.layer)
        × IsTooClose (square p (pad_on b kind c k.layer)) k.area (pos 1)) }
{}

/// The squares of a via lie in the board exactly where that on each layer of its span does.
pub fn each_square_fits()
    ensures { (b : BoardParts) (k : KindId) (c : ClassId) (p : Point)
        → IsBoard b → k.0 < length b.kinds → c.0 < length b.classes
        → FitsBoard b (via_plane b k c) p
        ↔ ((l : LayerId) → IsInSpan (kind_of b k) l
        → IsOnBoard b.width b.height (square p (pad_on b k c l))) }
{}

/// What each label says, both ways.
pub fn labels_say_what_hits()
    ensures free { (b : BoardParts) (r : PlaneRule) (shapes : List Shape) (p : Point)
        → (label_among b r shapes p ≡ Label.Free) ↔ IsFree b r shapes p }
    ensures one { (b : BoardParts) (r : PlaneRule) (shapes : List Shape) (p : Point) (n : NetId)
        → (label_among b r shapes p ≡ Label.One n) ↔ IsTakenBy b r shapes p n }
    ensures many { (b : BoardParts) (r : PlaneRule) (shapes : List Shape) (p : Point)
        → (label_among b r shapes p ≡ Label.Many) ↔ IsBarred b r shapes p }
{}

/// A label depends on which shapes there are, and not on their order or number; and of these only
/// on the ones that hit the point.
pub fn labels_ignore_order()
    ensures members { (b : BoardParts) (r : PlaneRule) (xs ys : List Shape) (p : Point)
        → ((s : Shape) → Contains xs s ↔ Contains ys s)
        → label_among b r xs p ≡ label_among b r ys p }
    ensures hits { (b : BoardParts) (r : PlaneRule) (xs ys : List Shape) (p : Point)
        → ((s : Shape) → Hits r p s → Contains xs s ↔ Contains ys s)
        → label_among b r xs p ≡ label_among b r ys p }
{}

/// How a label grows shape by shape.
pub fn labels_take_shapes()
    ensures bare { (b : BoardParts) (r : PlaneRule) (p : Point)
        → IsAllowed b r p → label_among b r [] p ≡ Label.Free }
    ensures shut { (b : BoardParts) (r : PlaneRule) (p : Point)
        → ¬ IsAllowed b r p → label_among b r [] p ≡ Label.Many }
    ensures hit { (b : BoardParts) (r : PlaneRule) (shapes : List Shape) (s : Shape) (p : Point)
        → Hits r p s
        → label_among b r (shapes ++ s ∷ []) p ≡ joined (label_among b r shapes p) s.owner }
    ensures missed { (b : BoardParts) (r : PlaneRule) (shapes : List Shape) (s : Shape) (p : Point)
        → ¬ Hits r p s → label_among b r (shapes ++ s ∷ []) p ≡ label_among b r shapes p }
{}

/// Shapes that leave a list change no label at the points that they miss.
pub fn labels_forget_shapes()
    ensures { (b : BoardParts) (r : PlaneRule) (keep : Shape → Bool) (shapes : List Shape)
        → (p : Point)
        → ((s : Shape) → Contains shapes s → keep s ≡ false → ¬ Hits r p s)
        → label_among b r (filter keep shapes) p ≡ label_among b r shapes p }
{}

/// A node or a via's place is passable for a net exactly where it is left to the net.
pub fn passable_is_left_to_the_net()
    ensures wire { (b : BoardParts) (shapes : List Shape) (n : NetId) (v : Node)
        → IsPassable b shapes n v
        ↔ IsLeftTo b (wire_plane b v.layer (class_of b n)) shapes (place_of v) n }
    ensures via { (b : BoardParts) (shapes : List Shape) (n : NetId) (k : KindId) (p : Point)
        → IsViaPassable b shapes n k p
        ↔ IsLeftTo b (via_plane b k (class_of b n)) shapes p n }
{}

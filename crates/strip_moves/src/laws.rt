//! What the planes of a state are to a net. The function does nothing: its contract is the law.
ghost use Rattle.std.specs.Prelude.{◌<◌, ◌↔◌, List, length};
ghost use Rattle.geo_rect.specs.declared.ids.KindId.{KindId};
ghost use Rattle.geo_rect.specs.declared.ids.NetId.{NetId};
ghost use Rattle.geo_rect.specs.declared.ids.Node.{Node};
ghost use Rattle.geo_rect.specs.declared.shapes.Point.{Point};
ghost use Rattle.geo_rect.specs.Plane.{HasPoint};
ghost use Rattle.board_parts.specs.declared.parts.BoardParts.{BoardParts};
ghost use Rattle.board_model.specs.declared.shapes.Shape.{Shape};
ghost use Rattle.board_model.specs.Labels.{IsPassable, IsViaPassable};
ghost use Rattle.board_parts.specs.Rules.{IsBoard};
ghost use Rattle.plane_set.specs.Standing.{PlaneTable, HasPlanes, StandsFor};
ghost use Rattle.route_law.specs.Boards.{IsGroundOf};
ghost use Rattle.route_law.specs.Ground.{IsGround, IsPassableNode, IsPassableVia};
ghost use Rattle.strip_moves.specs.Grounds.{board_area, ground_of, IsBoardNode};

/// The planes of a state are a ground for each net of the board; and where they stand for some
/// shapes, it is the ground that these shapes leave: the net may pass there just what they leave to it.
pub fn planes_are_a_ground()
    ensures ground { (b : BoardParts) (set : PlaneTable) (n : NetId) → IsBoard b → n.0 < length b.net_names
        → HasPlanes b set → IsGround (ground_of b set n) }
    ensures nodes { (b : BoardParts) (shapes : List Shape) (set : PlaneTable) (n : NetId) (v : Node) → IsBoard b
        → n.0 < length b.net_names → StandsFor b shapes set → IsBoardNode b v
        → IsPassableNode (ground_of b set n) v ↔ IsPassable b shapes n v }
    ensures vias { (b : BoardParts) (shapes : List Shape) (set : PlaneTable) (n : NetId) (k : KindId) (p : Point) → IsBoard b
        → n.0 < length b.net_names → StandsFor b shapes set → k.0 < length b.kinds → HasPoint (board_area b) p
        → IsPassableVia (ground_of b set n) k p ↔ IsViaPassable b shapes n k p }
    ensures of_shapes { (b : BoardParts) (shapes : List Shape) (set : PlaneTable) (n : NetId) → IsBoard b
        → n.0 < length b.net_names → StandsFor b shapes set → IsGroundOf b shapes n (ground_of b set n) }
{}

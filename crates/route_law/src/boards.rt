//! What the ground of a net is on a board. The function does nothing: its contract is the law.
ghost use Rattle.std.specs.Prelude.{◌<◌, ◌↔◌, List, length};
ghost use Rattle.geo_rect.specs.declared.ids.KindId.{KindId};
ghost use Rattle.geo_rect.specs.declared.ids.NetId.{NetId};
ghost use Rattle.geo_rect.specs.declared.ids.Node.{Node};
ghost use Rattle.geo_rect.specs.declared.shapes.Point.{Point};
ghost use Rattle.board_parts.specs.declared.parts.BoardParts.{BoardParts};
ghost use Rattle.board_model.specs.declared.shapes.Shape.{Shape};
ghost use Rattle.board_model.specs.Labels.{IsPassable, IsViaPassable};
ghost use Rattle.route_law.specs.Boards.{IsGroundOf};
ghost use Rattle.route_law.specs.Ground.{Ground, IsPassableNode, IsPassableVia};

/// Over the ground of a net, the nodes and the places of vias that the net may pass are those that it
/// may pass on the board among the shapes.
pub fn a_ground_is_passable_where_its_board_is()
    ensures nodes { (b : BoardParts) (shapes : List Shape) (n : NetId) (g : Ground) (v : Node) → IsGroundOf b shapes n g
        → IsPassableNode g v ↔ ((v.layer.0 < length b.layers) × IsPassable b shapes n v) }
    ensures vias { (b : BoardParts) (shapes : List Shape) (n : NetId) (g : Ground) (k : KindId) (p : Point) → IsGroundOf b shapes n g
        → IsPassableVia g k p ↔ ((k.0 < length b.kinds) × IsViaPassable b shapes n k p) }
{}

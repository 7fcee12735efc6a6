//! What the definitions of moves give whoever looks for all of them. These functions do nothing:
//! their contracts are the laws.
ghost use Rattle.std.specs.Prelude.{◌≡◌, ℕ};
ghost use Rattle.geo_rect.specs.declared.ids.KindId.{KindId};
ghost use Rattle.geo_rect.specs.declared.ids.Spot.{Spot};
ghost use Rattle.geo_rect.specs.declared.shapes.Rect.{Rect};
ghost use Rattle.plane_core.specs.declared.sides.Side.{Side};
ghost use Rattle.plane_core.specs.Choice.{Meets};
ghost use Rattle.plane_core.specs.Sides.{IsBeside};
ghost use Rattle.route_law.specs.Ground.{Ground, IsGround, IsWireStrip};
ghost use Rattle.route_law.specs.Moves.{Arrival, IsEdgeMove, IsViaMove};
ghost use Rattle.route_law.specs.Right.{IsStart};

/// Where a start or a move goes decides what arrives there: its front and its cost.
pub fn moves_are_determined_by_where_they_go()
    ensures start { (g : Ground) (box : Spot) (a b : Arrival) → IsStart g box a → IsStart g box b → a.strip ≡ b.strip → a ≡ b }
    ensures edge { (g : Ground) (from a b : Arrival) → IsEdgeMove g from a → IsEdgeMove g from b → a.strip ≡ b.strip → a ≡ b }
    ensures via { (g : Ground) (k : KindId) (from a b : Arrival) (first : IsViaMove g k from a) (second : IsViaMove g k from b)
        → a.layer ≡ b.layer → a.strip ≡ b.strip → first.via_strip ≡ second.via_strip → a ≡ b }
{}

/// The edge moves of an arrival go to just the other passable strips that stand beside its own.
pub fn edge_moves_go_to_each_strip_beside()
    ensures beside { (g : Ground) (a b : Arrival) → IsGround g → IsWireStrip g a.layer a.strip → IsEdgeMove g a b
        → (side : Side) × IsBeside side a.strip b.strip }
    ensures each { (g : Ground) (a : Arrival) (u : Rect) (side : Side) → IsGround g → IsWireStrip g a.layer a.strip
        → IsWireStrip g a.layer u → IsBeside side a.strip u → (b : Arrival) × (b.strip ≡ u) × IsEdgeMove g a b }
{}

/// A via move goes through a strip that meets the arrival's own, and to one that meets what the two share.
pub fn via_moves_go_where_strips_meet()
    ensures through { (g : Ground) (k : KindId) (a b : Arrival) (move : IsViaMove g k a b) → Meets move.via_strip a.strip }
    ensures onto { (g : Ground) (k : KindId) (a b : Arrival) (move : IsViaMove g k a b) → Meets b.strip move.is_common.shared }
{}

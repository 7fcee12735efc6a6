//! What the definitions of walks and connections give. These functions do nothing: their contracts
//! are the laws.
ghost use Rattle.std.specs.Prelude.{◌≡◌, ◌+◌, ◌++◌, List};
ghost use Rattle.geo_rect.specs.declared.ids.Node.{Node};
ghost use Rattle.geo_rect.specs.declared.shapes.Rect.{Rect};
ghost use Rattle.geo_rect.specs.Plane.{HasPoint};
ghost use Rattle.board_model.specs.declared.made.Conn.{Conn};
ghost use Rattle.board_model.specs.declared.made.Leg.{Leg};
ghost use Rattle.board_model.specs.declared.made.Leg.TheVariants.{Wire};
ghost use Rattle.board_model.specs.Shapes.{place_of};
ghost use Rattle.route_law.specs.Connections.{steps_of, steps_of_leg, cost_of_legs, IsStraight};
ghost use Rattle.route_law.specs.Ground.{Ground, IsGround, IsWireStrip};
ghost use Rattle.route_law.specs.Walks.{IsWalk, last_node, walk_cost};

/// A walk that starts where another one ends goes on from it, and their costs add up.
pub fn walks_join_end_to_end()
    ensures walk { (g : Ground) (v : Node) (first second : List Leg) → IsWalk g v first → IsWalk g (last_node v first) second
        → IsWalk g v (first ++ second) }
    ensures end { (v : Node) (first second : List Leg) → last_node v (first ++ second) ≡ last_node (last_node v first) second }
    ensures cost { (g : Ground) (first second : List Leg) → walk_cost g (first ++ second) ≡ walk_cost g first + walk_cost g second }
{}

/// A straight wire within a strip that the net may pass is a walk to its end.
pub fn a_wire_within_a_strip_is_a_walk()
    ensures walk { (g : Ground) (t : Rect) (v w : Node) → IsGround g → IsWireStrip g v.layer t → IsStraight v w
        → HasPoint t (place_of v) → HasPoint t (place_of w) → IsWalk g v (steps_of_leg v (Wire w)) }
    ensures end { (v w : Node) → IsStraight v w → last_node v (steps_of_leg v (Wire w)) ≡ w }
{}

/// The steps of a connection cost what its legs do: a wire its length, a via what its kind is charged.
pub fn a_connection_costs_its_legs()
    ensures { (g : Ground) (c : Conn) → walk_cost g (steps_of c) ≡ cost_of_legs g c.start c.legs }
{}

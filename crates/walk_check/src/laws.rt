//! What the definition of bad corners gives. The function does nothing: its contract is the law.

ghost use Rattle.std.specs.Prelude.{ℕ, ◌↔◌, List};
ghost use Rattle.geo_rect.specs.declared.ids.NetId.{NetId};
ghost use Rattle.geo_rect.specs.declared.ids.Spot.{Spot};
ghost use Rattle.board_model.specs.declared.made.Conn.{Conn};
ghost use Rattle.board_parts.specs.declared.parts.BoardParts.{BoardParts};
ghost use Rattle.plane_set.specs.Standing.{PlaneTable};
ghost use Rattle.walk_check.specs.Corners.{HasPlaces, IsGoodCorner};
ghost use Rattle.route_law.specs.Joins.{IsConnection};
ghost use Rattle.strip_moves.specs.Grounds.{ground_of};

/// A connection is a walk of the net with its true cost exactly where each of its corners is good.
pub fn a_connection_has_no_bad_corner()
    ensures { (b : BoardParts) (set : PlaneTable) (n : NetId) (sources targets : List Spot) (conn : Conn) → HasPlaces conn
        → IsConnection b (ground_of b set n) conn sources targets ↔ ((k : ℕ) → IsGoodCorner b (ground_of b set n) conn sources targets k) }
{}

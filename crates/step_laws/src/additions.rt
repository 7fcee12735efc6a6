//! What the shapes of a state are after a connection is made, and after a net's connections are
//! removed. The function does nothing: its contract is the law.
ghost use Rattle.std.specs.Prelude.{◌<◌, ◌↔◌, ◌⊎◌, List, length, Contains};
ghost use Rattle.std.specs.List.{flat_map};
ghost use Rattle.geo_rect.specs.declared.ids.NetId.{NetId};
ghost use Rattle.board_model.specs.declared.made.Conn.{Conn};
ghost use Rattle.board_parts.specs.declared.parts.BoardParts.{BoardParts};
ghost use Rattle.board_model.specs.declared.shapes.Shape.{Shape};
ghost use Rattle.board_model.specs.Made.{conns_of, with_conn, without_conns};
ghost use Rattle.board_model.specs.Shapes.{conn_shapes, state_shapes};

/// A connection that is made brings its own shapes and no others, and the connections of a net that
/// are removed take with them their own shapes and no others.
pub fn connections_bring_their_shapes()
    ensures made { (b : BoardParts) (lists : List (List Conn)) (n : NetId) (c : Conn) (s : Shape) → n.0 < length lists
        → Contains (state_shapes b (with_conn lists n c)) s
        ↔ (Contains (state_shapes b lists) s ⊎ Contains (conn_shapes b n c) s) }
    ensures removed { (b : BoardParts) (lists : List (List Conn)) (n : NetId) (s : Shape) → n.0 < length lists
        → Contains (state_shapes b lists) s
        ↔ (Contains (state_shapes b (without_conns lists n)) s ⊎ Contains (flat_map (conn_shapes b n) (conns_of lists n)) s) }
{}

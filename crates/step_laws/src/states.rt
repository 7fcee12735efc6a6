//! That each step keeps the rules of the board. The function does nothing: its contract is the law.
ghost use Rattle.std.specs.Prelude.{◌<◌, List, length, All};
ghost use Rattle.geo_rect.specs.declared.ids.NetId.{NetId};
ghost use Rattle.board_parts.specs.declared.commands.Command.{Command};
ghost use Rattle.board_model.specs.declared.made.Conn.{Conn};
ghost use Rattle.board_parts.specs.declared.parts.BoardParts.{BoardParts};
ghost use Rattle.board_parts.specs.Commands.{IsCommandOf};
ghost use Rattle.board_model.specs.Made.{conns_of, with_conn, without_conns};
ghost use Rattle.board_parts.specs.Rules.{IsBoard};
ghost use Rattle.route_law.specs.declared.replies.Made1.{Made1};
ghost use Rattle.route_law.specs.declared.replies.Reply.{Reply};
ghost use Rattle.route_law.specs.Kept.{IsState};
ghost use Rattle.route_law.specs.Routing.{IsNextConnection, conns_needed};
ghost use Rattle.route_law.specs.Steps.{IsStep, IsRunFrom};

/// From a state, where the rules are kept, a net's next connection, the removal of a net's
/// connections, each command of the board, and each run of such commands lead to a state again.
pub fn steps_keep_the_rules()
    ensures next { (b : BoardParts) (lists : List (List Conn)) (n : NetId) (m : Made1) → IsBoard b → IsState b lists
        → n.0 < length b.net_names → length (conns_of lists n) < conns_needed b n → IsNextConnection b lists n m
        → IsState b (with_conn lists n m.conn) }
    ensures removed { (b : BoardParts) (lists : List (List Conn)) (n : NetId) → IsBoard b → IsState b lists
        → n.0 < length b.net_names → IsState b (without_conns lists n) }
    ensures step { (b : BoardParts) (old new : List (List Conn)) (c : Command) (r : Reply) → IsBoard b → IsState b old
        → IsCommandOf b c → IsStep b old c r new → IsState b new }
    ensures run { (b : BoardParts) (old new : List (List Conn)) (cs : List Command) (rs : List Reply) → IsBoard b → IsState b old
        → All (IsCommandOf b) cs → IsRunFrom b old cs rs new → IsState b new }
{}

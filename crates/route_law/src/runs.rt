//! How the routing of a net, of all nets, and a run of commands go on. The functions do nothing: their
//! contracts are the laws.
ghost use Rattle.std.specs.Prelude.{◌≡◌, ◌+◌, ◌<◌, ◌++◌, ℕ, List, [], ◌∷◌, length};
ghost use Rattle.geo_rect.specs.declared.ids.NetId.{NetId};
ghost use Rattle.board_parts.specs.declared.commands.Command.{Command};
ghost use Rattle.board_model.specs.declared.made.Conn.{Conn};
ghost use Rattle.board_parts.specs.declared.parts.BoardParts.{BoardParts};
ghost use Rattle.board_model.specs.Made.{with_conn};
ghost use Rattle.board_parts.specs.Rules.{IsBoard};
ghost use Rattle.route_law.specs.declared.replies.Made1.{Made1};
ghost use Rattle.route_law.specs.declared.replies.Reply.{Reply};
ghost use Rattle.route_law.specs.declared.replies.Routed.{Routed};
ghost use Rattle.route_law.specs.Kept.{IsState};
ghost use Rattle.route_law.specs.Routing.{IsNextConnection, AreMadeInTurn, IsRouted, AreRoutedFrom, net_at};
ghost use Rattle.route_law.specs.Steps.{IsRunFrom, IsStep, nothing_made};

/// One more connection, net or command goes on from where those before it ended.
pub fn runs_go_on()
    ensures connections { (b : BoardParts) (n : NetId) (old mid : List (List Conn)) (ms : List Made1) (m : Made1)
        → AreMadeInTurn b old n ms mid → IsNextConnection b mid n m
        → AreMadeInTurn b old n (ms ++ m ∷ []) (with_conn mid n m.conn) }
    ensures nets { (b : BoardParts) (n : ℕ) (old mid new : List (List Conn)) (rs : List Routed) (r : Routed)
        → AreRoutedFrom b n old rs mid → r.net ≡ net_at (n + length rs) → IsRouted b mid r new
        → AreRoutedFrom b n old (rs ++ r ∷ []) new }
    ensures commands { (b : BoardParts) (old mid new : List (List Conn)) (cs ds : List Command) (rs ss : List Reply)
        → IsRunFrom b old cs rs mid → IsRunFrom b mid ds ss new
        → IsRunFrom b old (cs ++ ds) (rs ++ ss) new }
    ensures command { (b : BoardParts) (old mid new : List (List Conn)) (cs : List Command) (c : Command) (rs : List Reply) (r : Reply)
        → IsRunFrom b old cs rs mid → IsStep b mid c r new
        → IsRunFrom b old (cs ++ c ∷ []) (rs ++ r ∷ []) new }
{}

/// Nothing made is a state, which keeps the rules.
pub fn nothing_made_is_a_state()
    ensures { (b : BoardParts) → IsBoard b → IsState b (nothing_made b) }
{}

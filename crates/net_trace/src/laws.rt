//! What holds of the reports of states. The functions do nothing: their contracts are the laws.

ghost use Rattle.std.specs.Prelude.{ℕ, ◌≡◌, ◌≢◌, List, [], length, Contains};
ghost use Rattle.geo_rect.specs.declared.ids.NetId.{NetId};
ghost use Rattle.board_parts.specs.declared.commands.Command.{Command};
ghost use Rattle.board_parts.specs.declared.parts.BoardParts.{BoardParts};
ghost use Rattle.board_parts.specs.Rules.{IsBoard};
ghost use Rattle.board_model.specs.declared.made.Conn.{Conn};
ghost use Rattle.board_model.specs.Made.{conns_of};
ghost use Rattle.route_law.specs.declared.replies.Reply.{Reply};
ghost use Rattle.route_law.specs.Kept.{IsState};
ghost use Rattle.route_law.specs.Routing.{conns_needed};
ghost use Rattle.route_law.specs.Steps.{IsRunFrom, nothing_made};
ghost use Rattle.net_trace.specs.declared.traced.OpenNet.{OpenNet};
ghost use Rattle.net_trace.specs.declared.traced.Traced.{Traced};
ghost use Rattle.net_trace.specs.Joined.{ArePinsJoined, KeepPinsApart};
ghost use Rattle.net_trace.specs.Report.{IsReport};
ghost use Rattle.net_trace.specs.Texts.{IsTraceText};

/// In each state to which a run of commands leads, the pins of a net that lacks no connection are
/// joined, and the report does not list the net as open.
pub fn a_net_that_lacks_nothing_is_not_open()
    ensures joined { (b : BoardParts) (cs : List Command) (rs : List Reply) (lists : List (List Conn)) (n : NetId) → IsBoard b
        → IsRunFrom b (nothing_made b) cs rs lists → length (conns_of lists n) ≡ conns_needed b n
        → ArePinsJoined b lists n }
    ensures not_open { (b : BoardParts) (cs : List Command) (rs : List Reply) (lists : List (List Conn)) (n : NetId) (traced : Traced) (o : OpenNet) → IsBoard b
        → IsRunFrom b (nothing_made b) cs rs lists → length (conns_of lists n) ≡ conns_needed b n
        → IsReport b lists traced → Contains traced.opens o → o.net ≢ n }
{}

/// In each state that keeps the rules, no nets are shorted where no two pins of different nets touch.
pub fn nets_are_shorted_by_pins_alone()
    ensures { (b : BoardParts) (lists : List (List Conn)) (traced : Traced) → IsBoard b → IsState b lists
        → KeepPinsApart b → IsReport b lists traced → traced.shorts ≡ [] }
{}

/// A state has one report, and one text of it.
pub fn a_state_has_one_report()
    ensures report { (b : BoardParts) (lists : List (List Conn)) (r s : Traced) → IsReport b lists r → IsReport b lists s → r ≡ s }
    ensures text { (b : BoardParts) (lists : List (List Conn)) (xs ys : List ℕ) → IsTraceText b lists xs → IsTraceText b lists ys → xs ≡ ys }
{}

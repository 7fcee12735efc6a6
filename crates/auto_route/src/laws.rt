//! What holds of rounds. The function does nothing: its contract is the law.

ghost use Rattle.std.specs.Prelude.{List, All};
ghost use Rattle.board_parts.specs.declared.parts.BoardParts.{BoardParts};
ghost use Rattle.route_law.specs.declared.replies.Routed.{Routed};
ghost use Rattle.auto_route.specs.Rounds.{AreRounds, RoutesEachNetOnce};

/// Each round routes every net of the board exactly once.
pub fn each_round_routes_every_net_once()
    ensures { (b : BoardParts) (rounds : List (List Routed)) → AreRounds b rounds → All (RoutesEachNetOnce b) rounds }
{}

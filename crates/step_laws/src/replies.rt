//! That each reply can be written and read back. The function does nothing: its contract is the law.
ghost use Rattle.std.specs.Prelude.{List};
ghost use Rattle.board_parts.specs.declared.commands.Command.{Command};
ghost use Rattle.board_model.specs.declared.made.Conn.{Conn};
ghost use Rattle.board_parts.specs.declared.parts.BoardParts.{BoardParts};
ghost use Rattle.board_parts.specs.Commands.{IsCommandOf};
ghost use Rattle.board_parts.specs.Rules.{IsBoard};
ghost use Rattle.route_law.specs.declared.replies.Reply.{Reply};
ghost use Rattle.route_law.specs.Kept.{IsState};
ghost use Rattle.route_law.specs.Regular.{IsRegular};
ghost use Rattle.route_law.specs.Steps.{IsStep};

/// What a reply names is in the board, its coordinates are not negative, and its numbers agree with
/// one another, wherever a command of the board is answered in a state that keeps the rules.
pub fn replies_are_regular()
    ensures { (b : BoardParts) (old new : List (List Conn)) (c : Command) (r : Reply) → IsBoard b → IsState b old
        → IsCommandOf b c → IsStep b old c r new → IsRegular b r }
{}

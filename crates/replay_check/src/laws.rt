//! What the end of a replay says. The function does nothing: its contract is the law.

ghost use Rattle.std.specs.Prelude.{◌≡◌, ℕ, List};
ghost use Rattle.board_parts.specs.declared.commands.Command.{Command};
ghost use Rattle.board_parts.specs.declared.parts.BoardParts.{BoardParts};
ghost use Rattle.route_law.specs.declared.replies.Reply.{Reply};
ghost use Rattle.route_law.specs.Steps.{IsFirstWrong, IsRun};

/// Replies of which one is wrong, is missing or is one too many are those of no run, and one
/// reply alone is the first such.
pub fn a_wrong_reply_is_no_run()
    ensures no_run { (b : BoardParts) (commands : List Command) (replies : List Reply) (n : ℕ)
        → IsFirstWrong b commands replies n → IsRun b commands replies → ⊥ }
    ensures one { (b : BoardParts) (commands : List Command) (replies : List Reply) (m n : ℕ)
        → IsFirstWrong b commands replies m → IsFirstWrong b commands replies n → m ≡ n }
{}

ghost use Rattle.std.specs.Prelude.{◌≡◌, ◌≤◌, List, Ok, All, length};
ghost use Rattle.board_parts.specs.declared.commands.Command.{Command};
ghost use Rattle.board_parts.specs.declared.limits.TheConstants.{MAX_COMMANDS};
ghost use Rattle.board_parts.specs.declared.parts.BoardParts.{BoardParts};
ghost use Rattle.board_parts.specs.Commands.{IsCommandOf};
ghost use Rattle.board_parts.specs.Rules.{IsBoard};
ghost use Rattle.board_reader.specs.Reading.{reading};
ghost use Rattle.board_text.specs.declared.spelling.Version.TheVariants.{First, Second};
ghost use Rattle.board_text.specs.Spelled.{spelled, told_of, IsOfFirstVersion};

/// The text of a board and of commands that name what the board has says that board and those
/// commands: in the second version for every board, in the first for those that fit it.
pub fn a_spelled_board_is_read()
    ensures second { (b : BoardParts) (cs : List Command)
        → IsBoard b → All (IsCommandOf b) cs → length cs ≤ MAX_COMMANDS → reading (spelled Second b cs) ≡ Ok (told_of b cs) }
    ensures first { (b : BoardParts) (cs : List Command)
        → IsBoard b → IsOfFirstVersion b → All (IsCommandOf b) cs → length cs ≤ MAX_COMMANDS → reading (spelled First b cs) ≡ Ok (told_of b cs) }
{}

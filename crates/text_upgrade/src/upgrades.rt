ghost use Rattle.std.specs.Prelude.{◌≡◌, ◌≤◌, All, IfOk, Ok, length};
ghost use Rattle.board_parts.specs.Commands.{IsCommandOf};
ghost use Rattle.board_parts.specs.Rules.{IsBoard};
ghost use Rattle.board_parts.specs.declared.limits.TheConstants.{MAX_COMMANDS};
ghost use Rattle.board_reader.specs.Contract.{told_by};
ghost use Rattle.board_reader.specs.Reading.{reading, Told};
ghost use Rattle.text_upgrade.specs.Upgraded.{upgraded};

use board_reader::Input;
use board_text::{Version, spell};
use geo_rect::{List, NoMemory};
use std::alloc::Global;

/// The text of the second version of a board and commands. Each gap of two classes that is not the
/// greater of their rules' gaps has a line `clear`, and each inner pad that is not the pad a line
/// `inner`; all else is written as it is, in one order.
pub fn upgrade(alloc: Global, input: &Input) -> Result<List<u8>, NoMemory>
    requires { All (IsCommandOf input.now.board.parts) input.now.commands }
    ensures { IfOk result (λ text. text ≡ upgraded (told_by input.now)) }
{
    spell(
        alloc,
        Version::Second,
        &input.board,
        input.commands.as_slice(),
    )
}

/// An upgraded text is read as the same board and the same commands.
pub fn an_upgraded_text_is_read()
    ensures { (told : Told) → IsBoard told.parts → All (IsCommandOf told.parts) told.commands
        → length told.commands ≤ MAX_COMMANDS → reading (upgraded told) ≡ Ok told }
{}

ghost use Rattle.std.specs.Prelude.{◌≡◌, ◌≤◌, IfOk, Ok};
ghost use Rattle.board_reader.specs.Reading.{reading};
ghost use Rattle.board_text.specs.Spelled.{told_of};
ghost use Rattle.board_gen.specs.Generated.{generated, generated_board, asked};

use crate::parts::parts;
use board_model::{Board, Command};
use board_text::{Version, spell};
use geo_rect::{List, NoMemory};
use std::alloc::Global;

/// The generated board of `n` nets.
fn board(alloc: Global, n: u32) -> Result<Board, NoMemory>
    requires some { 1 ≤ n }
    requires few { n ≤ 2000 }
    ensures { IfOk result (λ b. b.parts ≡ generated_board n) }
{
    let parts = parts(alloc, n)?;
    Board::build(alloc, parts)
}

/// The text of the generated board of `n` nets, from 1 to 2,000, and of the commands `all` and
/// `rules`.
#[tactic(auto, unfolding(crate::specs::Generated::generated))]
pub fn generate(alloc: Global, n: u32) -> Result<List<u8>, NoMemory>
    requires some { 1 ≤ n }
    requires few { n ≤ 2000 }
    ensures text { IfOk result (λ text. text ≡ generated n) }
    ensures read { IfOk result (λ text. reading text ≡ Ok (told_of (generated_board n) asked)) }
{
    let board = board(alloc, n)?;
    let commands = [Command::All, Command::Rules];
    spell(alloc, Version::First, &board, &commands)
}

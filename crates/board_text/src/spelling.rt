ghost use Rattle.std.specs.Prelude.{◌≡◌, ◌++◌, [], All, IfOk, OnOk};
ghost use Rattle.board_parts.specs.Commands.{IsCommandOf};
ghost use Rattle.board_reader.specs.declared.forms.Form.TheVariants as form;
ghost use Rattle.board_text.specs.Spelled.{line, board_line, wire_lines, clear_lines, via_lines, item_lines, spelled};

use crate::clears::push_clears;
use crate::commands::push_commands;
use crate::items::push_items;
use crate::vias::push_vias;
use crate::wires::{push_board, push_wires};
use board_model::{Board, Command};
use geo_rect::{List, NoMemory};
use std::alloc::Global;

/// The version of a board text.
#[derive(Clone, Copy)]
pub enum Version {
    /// For boards of at most 1,048,576 micrometres a side, in which two classes keep the greater of
    /// their rules' gaps.
    First,
    /// For every board.
    Second,
}

/// Adds the lines from the first to the line `end`.
#[tactic(auto, unfolding(crate::specs::Spelled::line))]
fn push_parts(text: &mut List<u8>, version: Version, board: &Board) -> Result<(), NoMemory>
    ensures { OnOk result
        (text.new ≡ text.old ++ board_line version board.now.parts ++ wire_lines board.now.parts ++ clear_lines board.now.parts ++ via_lines board.now.parts ++ item_lines board.now.parts ++ line form.End []) }
{
    push_board(text, version, board)?;
    push_wires(text, board)?;
    push_clears(text, board)?;
    push_vias(text, board)?;
    push_items(text, board)?;
    text.extend_from_slice(b"end\n")
}

/// The text of a board and of commands, in bytes.
#[tactic(auto, unfolding(crate::specs::Spelled::spelled))]
pub fn spell(
    alloc: Global,
    version: Version,
    board: &Board,
    commands: &[Command],
) -> Result<List<u8>, NoMemory>
    requires { All (IsCommandOf board.now.parts) commands.now }
    ensures { IfOk result (λ text. text ≡ spelled version board.now.parts commands.now) }
{
    let mut text = List::new(alloc);
    push_parts(&mut text, version, board)?;
    push_commands(&mut text, board, commands)?;
    Ok(text)
}

ghost use Rattle.std.specs.Prelude.{◌≡◌, ◌++◌, ◌<◌, ◌∷◌, [], length, OnOk, All, codes};
ghost use Rattle.std.specs.List.{flat_map};
ghost use Rattle.board_parts.specs.Commands.{IsCommandOf};
ghost use Rattle.board_reader.specs.declared.forms.Form.TheVariants as form;
ghost use Rattle.board_parts.specs.Lookup.{net_name, layer_name, class_name};
ghost use Rattle.board_text.specs.Spelled.{line, spaced, command_line};

use crate::words::push_word;
use board_model::{Board, Command};
use geo_rect::{ClassId, LayerId, List, NetId, NoMemory};

/// Adds a line of these words and then the name of a net.
fn push_for_net(text: &mut List<u8>, board: &Board, word: &[u8], n: NetId) -> Result<(), NoMemory>
    requires { n.0 < length board.now.parts.net_names }
    ensures { OnOk result (text.new ≡ text.old ++ word.now ++ spaced (net_name board.now.parts n) ++ codes "\n") }
{
    text.extend_from_slice(word)?;
    push_word(text, board.net_name(n))?;
    text.extend_from_slice(b"\n")
}

#[tactic(auto, unfolding(crate::specs::Spelled::line))]
fn push_strips(text: &mut List<u8>, board: &Board, l: LayerId, c: ClassId) -> Result<(), NoMemory>
    requires layer { l.0 < length board.now.parts.layers }
    requires class { c.0 < length board.now.parts.classes }
    ensures { OnOk result
        (text.new ≡ text.old ++ line form.Strips (layer_name board.now.parts l ∷ class_name board.now.parts c ∷ [])) }
{
    text.extend_from_slice(b"strips")?;
    push_word(text, board.layer_name(l))?;
    push_word(text, board.class_name(c))?;
    text.extend_from_slice(b"\n")
}

#[tactic(auto, unfolding(crate::specs::Spelled::line))]
fn push_command(text: &mut List<u8>, board: &Board, command: Command) -> Result<(), NoMemory>
    requires { IsCommandOf board.now.parts command }
    ensures { OnOk result (text.new ≡ text.old ++ command_line board.now.parts command) }
{
    match command {
        Command::Route(n) => push_for_net(text, board, b"route", n),
        Command::All => text.extend_from_slice(b"all\n"),
        Command::Rip(n) => push_for_net(text, board, b"rip", n),
        Command::Show(n) => push_for_net(text, board, b"show", n),
        Command::Rules => text.extend_from_slice(b"rules\n"),
        Command::Strips(l, c) => push_strips(text, board, l, c),
    }
}

/// Adds a line for each command.
pub fn push_commands(
    text: &mut List<u8>,
    board: &Board,
    commands: &[Command],
) -> Result<(), NoMemory>
    requires { All (IsCommandOf board.now.parts) commands.now }
    ensures { OnOk result (text.new ≡ text.old ++ flat_map (command_line board.now.parts) commands.now) }
{
    for command in commands {
        push_command(text, board, *command)?;
    }
    Ok(())
}

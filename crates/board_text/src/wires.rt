ghost use Rattle.std.specs.Prelude.{◌≡◌, ◌++◌, ◌<◌, length, OnOk};
ghost use Rattle.std.specs.Fmt.{signed_decimal};
ghost use Rattle.std.specs.List.{flat_map, range_with_len};
ghost use Rattle.board_parts.specs.Lookup.{layer_at};
ghost use Rattle.board_text.specs.Spelled.{spaced, version_word, board_line, layer_line, class_line, rule_line, rule_lines, wire_lines};

use crate::spelling::Version;
use crate::words::{push_length, push_word};
use board_model::{Board, Rule};
use geo_rect::{ClassId, LayerId, List, NoMemory, Text};

/// How the first line writes the version.
fn version_word(version: Version) -> &'static str
    ensures { result.now ≡ version_word version }
{
    match version {
        Version::First => "1",
        Version::Second => "2",
    }
}

/// Adds the width and the height of the board, each behind a space.
fn push_size(text: &mut List<u8>, board: &Board) -> Result<(), NoMemory>
    ensures { OnOk result (text.new ≡ text.old ++ spaced (signed_decimal board.now.parts.width) ++ spaced (signed_decimal board.now.parts.height)) }
{
    push_length(text, board.width())?;
    push_length(text, board.height())
}

/// Adds the first line.
#[tactic(auto, unfolding(crate::specs::Spelled::line))]
pub fn push_board(text: &mut List<u8>, version: Version, board: &Board) -> Result<(), NoMemory>
    ensures { OnOk result (text.new ≡ text.old ++ board_line version board.now.parts) }
{
    text.extend_from_slice(b"board")?;
    push_word(text, version_word(version))?;
    push_word(text, board.name())?;
    push_size(text, board)?;
    text.extend_from_slice(b"\n")
}

#[tactic(auto, unfolding(crate::specs::Spelled::line))]
fn push_layer(text: &mut List<u8>, name: &str) -> Result<(), NoMemory>
    ensures { OnOk result (text.new ≡ text.old ++ layer_line name.now) }
{
    text.extend_from_slice(b"layer")?;
    push_word(text, name)?;
    text.extend_from_slice(b"\n")
}

fn push_layers(text: &mut List<u8>, names: &[Text]) -> Result<(), NoMemory>
    ensures { OnOk result (text.new ≡ text.old ++ flat_map layer_line names.now) }
{
    for name in names {
        push_layer(text, name.as_str())?;
    }
    Ok(())
}

#[tactic(auto, unfolding(crate::specs::Spelled::line))]
fn push_class(text: &mut List<u8>, name: &str) -> Result<(), NoMemory>
    ensures { OnOk result (text.new ≡ text.old ++ class_line name.now) }
{
    text.extend_from_slice(b"class")?;
    push_word(text, name)?;
    text.extend_from_slice(b"\n")
}

fn push_classes(text: &mut List<u8>, names: &[Text]) -> Result<(), NoMemory>
    ensures { OnOk result (text.new ≡ text.old ++ flat_map class_line names.now) }
{
    for name in names {
        push_class(text, name.as_str())?;
    }
    Ok(())
}

/// Adds what a rule asks for, each number behind a space.
fn push_measures(text: &mut List<u8>, rule: Rule) -> Result<(), NoMemory>
    ensures { OnOk result (text.new ≡ text.old ++ spaced (signed_decimal rule.half) ++ spaced (signed_decimal rule.gap)) }
{
    push_length(text, rule.half)?;
    push_length(text, rule.gap)
}

#[tactic(auto, unfolding(crate::specs::Spelled::line))]
fn push_rule(text: &mut List<u8>, board: &Board, l: LayerId, c: ClassId) -> Result<(), NoMemory>
    requires layer { l.0 < length board.now.parts.layers }
    requires class { c.0 < length board.now.parts.classes }
    ensures { OnOk result (text.new ≡ text.old ++ rule_line board.now.parts l c) }
{
    text.extend_from_slice(b"rule")?;
    push_word(text, board.layer_name(l))?;
    push_word(text, board.class_name(c))?;
    push_measures(text, board.rule(l, c))?;
    text.extend_from_slice(b"\n")
}

/// Adds the lines of the rules of a layer.
fn push_layer_rules(text: &mut List<u8>, board: &Board, l: LayerId) -> Result<(), NoMemory>
    requires { l.0 < length board.now.parts.layers }
    ensures { OnOk result (text.new ≡ text.old ++ rule_lines board.now.parts l) }
{
    let classes = board.classes();
    for class in 0..classes {
        push_rule(text, board, l, ClassId(class))?;
    }
    Ok(())
}

fn push_rules(text: &mut List<u8>, board: &Board) -> Result<(), NoMemory>
    ensures { OnOk result
        (text.new ≡ text.old ++ flat_map (λ l. rule_lines board.now.parts (layer_at l)) (range_with_len 0 (length board.now.parts.layers))) }
{
    let layers = board.layers();
    for layer in 0..layers {
        push_layer_rules(text, board, LayerId(layer))?;
    }
    Ok(())
}

/// Adds the lines of the layers, of the classes, and of the rules by layers and classes.
#[tactic(auto, unfolding(crate::specs::Spelled::wire_lines))]
pub fn push_wires(text: &mut List<u8>, board: &Board) -> Result<(), NoMemory>
    ensures { OnOk result (text.new ≡ text.old ++ wire_lines board.now.parts) }
{
    push_layers(text, board.parts.layers.as_slice())?;
    push_classes(text, board.parts.classes.as_slice())?;
    push_rules(text, board)
}

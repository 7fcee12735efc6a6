ghost use Rattle.std.specs.Prelude.{◌≡◌, ◌++◌, ◌∷◌, [], ◌<◌, length, OnOk};
ghost use Rattle.std.specs.Fmt.{signed_decimal};
ghost use Rattle.board_parts.specs.Lookup.{layer_name, class_name};
ghost use Rattle.board_reader.specs.declared.forms.Form.TheVariants as form;
ghost use Rattle.board_text.specs.Spelled.{line, greater_gap, clear_line, class_clear_lines, layer_clear_lines, clear_lines};

use crate::words::{push_length, push_word};
use board_model::Board;
use geo_rect::{ClassId, LayerId, List, NoMemory};

/// The greater of the gaps that the rules of two classes give on a layer, in micrometres.
fn greater_gap(board: &Board, l: LayerId, c: ClassId, d: ClassId) -> i32
    requires layer { l.0 < length board.now.parts.layers }
    requires first { c.0 < length board.now.parts.classes }
    requires second { d.0 < length board.now.parts.classes }
    ensures { result ≡ greater_gap board.now.parts l c d }
{
    let first = board.rule(l, c);
    let second = board.rule(l, d);
    first.gap.max(second.gap)
}

/// Adds the line that gives two classes a gap on a layer, in micrometres.
#[tactic(auto, unfolding(crate::specs::Spelled::line))]
fn push_gap(
    text: &mut List<u8>,
    board: &Board,
    l: LayerId,
    c: ClassId,
    d: ClassId,
    gap: i32,
) -> Result<(), NoMemory>
    requires layer { l.0 < length board.now.parts.layers }
    requires first { c.0 < length board.now.parts.classes }
    requires second { d.0 < length board.now.parts.classes }
    ensures { OnOk result
        (text.new ≡ text.old ++ line form.Clear (layer_name board.now.parts l ∷ class_name board.now.parts c ∷ class_name board.now.parts d ∷ signed_decimal gap ∷ [])) }
{
    text.extend_from_slice(b"clear")?;
    push_word(text, board.layer_name(l))?;
    push_word(text, board.class_name(c))?;
    push_word(text, board.class_name(d))?;
    push_length(text, gap)?;
    text.extend_from_slice(b"\n")
}

/// Adds the line of the gap of two classes on a layer, where it is not the greater of their rules'
/// gaps.
fn push_clear(
    text: &mut List<u8>,
    board: &Board,
    l: LayerId,
    c: ClassId,
    d: ClassId,
) -> Result<(), NoMemory>
    requires layer { l.0 < length board.now.parts.layers }
    requires first { c.0 < length board.now.parts.classes }
    requires second { d.0 < length board.now.parts.classes }
    ensures { OnOk result (text.new ≡ text.old ++ clear_line board.now.parts l c d) }
{
    let gap = board.gap(l, c, d);
    if gap == greater_gap(board, l, c, d) {
        return Ok(());
    }
    push_gap(text, board, l, c, d, gap)
}

/// Adds those lines of a class with itself and with each class after it.
fn push_class_clears(
    text: &mut List<u8>,
    board: &Board,
    l: LayerId,
    c: ClassId,
) -> Result<(), NoMemory>
    requires layer { l.0 < length board.now.parts.layers }
    requires class { c.0 < length board.now.parts.classes }
    ensures { OnOk result (text.new ≡ text.old ++ class_clear_lines board.now.parts l c) }
{
    let classes = board.classes();
    for second in c.0..classes {
        push_clear(text, board, l, c, ClassId(second))?;
    }
    Ok(())
}

/// Adds those lines of a layer.
fn push_layer_clears(text: &mut List<u8>, board: &Board, l: LayerId) -> Result<(), NoMemory>
    requires { l.0 < length board.now.parts.layers }
    ensures { OnOk result (text.new ≡ text.old ++ layer_clear_lines board.now.parts l) }
{
    let classes = board.classes();
    for first in 0..classes {
        push_class_clears(text, board, l, ClassId(first))?;
    }
    Ok(())
}

/// Adds, layer by layer, the lines of the gaps of two classes that are not the greater of their
/// rules' gaps.
#[tactic(auto, unfolding(crate::specs::Spelled::clear_lines))]
pub fn push_clears(text: &mut List<u8>, board: &Board) -> Result<(), NoMemory>
    ensures { OnOk result (text.new ≡ text.old ++ clear_lines board.now.parts) }
{
    let layers = board.layers();
    for layer in 0..layers {
        push_layer_clears(text, board, LayerId(layer))?;
    }
    Ok(())
}

ghost use Rattle.std.specs.Prelude.{◌≡◌, ◌++◌, ◌<◌, OnOk, All, length};
ghost use Rattle.std.specs.List.{flat_map};
ghost use Rattle.route_law.specs.Regular.{IsLayerOf, IsRegularLabel, IsRegularStrip};
ghost use Rattle.reply_text.specs.Texts.{label_text, strip_text, strips_line};

use crate::words::{push_area, push_count, push_name};
use board_model::Board;
use geo_rect::{ClassId, Label, LayerId, List, NoMemory};
use plane_core::Strip;

fn push_label(text: &mut List<u8>, board: &Board, label: Label) -> Result<(), NoMemory>
    requires { IsRegularLabel board.now.parts label }
    ensures { OnOk result (text.new ≡ text.old ++ label_text board.now.parts label) }
{
    match label {
        Label::Free => text.extend_from_slice(b"free"),
        Label::One(net) => push_name(text, b"one ", board.net_name(net)),
        Label::Many => text.extend_from_slice(b"many"),
    }
}

#[tactic(auto, unfolding(crate::specs::Texts::strip_text))]
fn push_strip(text: &mut List<u8>, board: &Board, strip: &Strip) -> Result<(), NoMemory>
    requires { IsRegularStrip board.now.parts strip.now }
    ensures { OnOk result (text.new ≡ text.old ++ strip_text board.now.parts strip.now) }
{
    push_label(text, board, strip.label)?;
    push_area(text, strip.area)?;
    text.extend_from_slice(b"\n")
}

#[tactic(auto, unfolding(crate::specs::Texts::strips_line))]
fn push_strips_line(
    text: &mut List<u8>,
    board: &Board,
    l: LayerId,
    c: ClassId,
    strips: u64,
) -> Result<(), NoMemory>
    requires layer { IsLayerOf board.now.parts l }
    requires class { c.0 < length board.now.parts.classes }
    ensures { OnOk result (text.new ≡ text.old ++ strips_line board.now.parts l c strips) }
{
    push_name(text, b"strips ", board.layer_name(l))?;
    push_name(text, b" ", board.class_name(c))?;
    push_count(text, b" ", strips)?;
    text.extend_from_slice(b"\n")
}

fn push_each_strip(text: &mut List<u8>, board: &Board, strips: &[Strip]) -> Result<(), NoMemory>
    requires { All (IsRegularStrip board.now.parts) strips.now }
    ensures { OnOk result (text.new ≡ text.old ++ flat_map (strip_text board.now.parts) strips.now) }
{
    for strip in strips {
        push_strip(text, board, strip)?;
    }
    Ok(())
}

/// Adds the lines of the reply to `strips`.
pub fn push_strips(
    text: &mut List<u8>,
    board: &Board,
    l: LayerId,
    c: ClassId,
    strips: &[Strip],
) -> Result<(), NoMemory>
    requires layer { IsLayerOf board.now.parts l }
    requires class { c.0 < length board.now.parts.classes }
    requires strips { All (IsRegularStrip board.now.parts) strips.now }
    ensures { OnOk result
        (text.new ≡ text.old ++ strips_line board.now.parts l c (length strips.now) ++ flat_map (strip_text board.now.parts) strips.now) }
{
    push_strips_line(text, board, l, c, strips.len() as u64)?;
    push_each_strip(text, board, strips)
}

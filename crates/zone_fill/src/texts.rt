//! The text that tells a pour.

ghost use Rattle.std.specs.Prelude.{◌≡◌, ◌++◌, ◌<◌, length, IfOk, OnOk};
ghost use Rattle.std.specs.List.{flat_map};
ghost use Rattle.zone_fill.specs.Texts.{fill_line, box_line, fill_text};

use board_model::Board;
use geo_rect::{LayerId, List, NetId, NoMemory, Rect};
use reply_text::{push_area, push_count, push_name};
use std::alloc::Global;

/// The text that tells the boxes of a pour of the net on the layer: a line with how many there are, and a line for
/// each, in micrometres.
#[tactic(auto, unfolding(crate::specs::Texts::fill_text))]
pub fn fill_text(
    alloc: Global,
    board: &Board,
    net: NetId,
    layer: LayerId,
    boxes: &[Rect],
) -> Result<List<u8>, NoMemory>
    requires net { net.0 < length board.now.parts.net_names }
    requires layer { layer.0 < length board.now.parts.layers }
    ensures { IfOk result (λ text. text ≡ fill_text board.now.parts net layer boxes.now) }
{
    let mut text = List::new(alloc);
    push_fill_line(&mut text, board, net, layer, boxes.len() as u64)?;
    push_boxes(&mut text, boxes)?;
    Ok(text)
}

/// Adds the first line.
#[tactic(auto, unfolding(crate::specs::Texts::fill_line))]
fn push_fill_line(
    text: &mut List<u8>,
    board: &Board,
    net: NetId,
    layer: LayerId,
    boxes: u64,
) -> Result<(), NoMemory>
    requires net { net.0 < length board.now.parts.net_names }
    requires layer { layer.0 < length board.now.parts.layers }
    ensures { OnOk result (text.new ≡ text.old ++ fill_line board.now.parts net layer boxes) }
{
    push_name(text, b"fill ", board.net_name(net))?;
    push_name(text, b" ", board.layer_name(layer))?;
    push_count(text, b" ", boxes)?;
    text.extend_from_slice(b"\n")
}

/// Adds a line for each box.
fn push_boxes(text: &mut List<u8>, boxes: &[Rect]) -> Result<(), NoMemory>
    ensures { OnOk result (text.new ≡ text.old ++ flat_map box_line boxes.now) }
{
    for area in boxes {
        push_box(text, *area)?;
    }
    Ok(())
}

/// Adds the line of a box.
#[tactic(auto, unfolding(crate::specs::Texts::box_line))]
fn push_box(text: &mut List<u8>, area: Rect) -> Result<(), NoMemory>
    ensures { OnOk result (text.new ≡ text.old ++ box_line area) }
{
    text.extend_from_slice(b"box")?;
    push_area(text, area)?;
    text.extend_from_slice(b"\n")
}

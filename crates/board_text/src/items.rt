ghost use Rattle.std.specs.Prelude.{◌≡◌, ◌++◌, ◌<◌, length, OnOk, All};
ghost use Rattle.std.specs.List.{flat_map, range_with_len};
ghost use Rattle.board_parts.specs.Rules.{IsBlock, IsKeepout, IsPin};
ghost use Rattle.board_text.specs.Spelled.{spaced, place_words, block_line, kept_out, keepout_line, net_line, pin_line, item_lines, net_at};

use crate::words::{push_area, push_word};
use board_model::{Block, Board, Keepout, Pin};
use geo_rect::{List, NetId, NoMemory};

#[tactic(auto, unfolding(crate::specs::Spelled::line))]
fn push_block(text: &mut List<u8>, board: &Board, block: &Block) -> Result<(), NoMemory>
    requires { IsBlock board.now.parts block.now }
    ensures { OnOk result (text.new ≡ text.old ++ block_line board.now.parts block.now) }
{
    text.extend_from_slice(b"block")?;
    push_word(text, board.layer_name(block.layer))?;
    push_area(text, block.area)?;
    text.extend_from_slice(b"\n")
}

fn push_blocks(text: &mut List<u8>, board: &Board, blocks: &[Block]) -> Result<(), NoMemory>
    requires { All (IsBlock board.now.parts) blocks.now }
    ensures { OnOk result (text.new ≡ text.old ++ flat_map (block_line board.now.parts) blocks.now) }
{
    for block in blocks {
        push_block(text, board, block)?;
    }
    Ok(())
}

/// How a line writes what a keep-out keeps out.
fn kept_out(wires: bool) -> &'static str
    ensures { result.now ≡ kept_out wires }
{
    if wires { "wires" } else { "vias" }
}

#[tactic(auto, unfolding(crate::specs::Spelled::line))]
fn push_keepout(text: &mut List<u8>, board: &Board, keepout: &Keepout) -> Result<(), NoMemory>
    requires { IsKeepout board.now.parts keepout.now }
    ensures { OnOk result (text.new ≡ text.old ++ keepout_line board.now.parts keepout.now) }
{
    text.extend_from_slice(b"keepout")?;
    push_word(text, kept_out(keepout.wires))?;
    push_word(text, board.layer_name(keepout.layer))?;
    push_area(text, keepout.area)?;
    text.extend_from_slice(b"\n")
}

fn push_keepouts(text: &mut List<u8>, board: &Board, keepouts: &[Keepout]) -> Result<(), NoMemory>
    requires { All (IsKeepout board.now.parts) keepouts.now }
    ensures { OnOk result (text.new ≡ text.old ++ flat_map (keepout_line board.now.parts) keepouts.now) }
{
    for keepout in keepouts {
        push_keepout(text, board, keepout)?;
    }
    Ok(())
}

#[tactic(auto, unfolding(crate::specs::Spelled::line))]
fn push_net(text: &mut List<u8>, board: &Board, n: NetId) -> Result<(), NoMemory>
    requires { n.0 < length board.now.parts.net_names }
    ensures { OnOk result (text.new ≡ text.old ++ net_line board.now.parts n) }
{
    text.extend_from_slice(b"net")?;
    push_word(text, board.net_name(n))?;
    push_word(text, board.class_name(board.class_of(n)))?;
    text.extend_from_slice(b"\n")
}

fn push_nets(text: &mut List<u8>, board: &Board) -> Result<(), NoMemory>
    ensures { OnOk result
        (text.new ≡ text.old ++ flat_map (λ n. net_line board.now.parts (net_at n)) (range_with_len 0 (length board.now.parts.net_names))) }
{
    let nets = board.nets();
    for net in 0..nets {
        push_net(text, board, NetId(net))?;
    }
    Ok(())
}

/// Adds the corners of a pin and the names of its first and its last layer, each behind a space.
fn push_place(text: &mut List<u8>, board: &Board, pin: &Pin) -> Result<(), NoMemory>
    requires { IsPin board.now.parts pin.now }
    ensures { OnOk result (text.new ≡ text.old ++ flat_map spaced (place_words board.now.parts pin.now)) }
{
    push_area(text, pin.area)?;
    push_word(text, board.layer_name(pin.first))?;
    push_word(text, board.layer_name(pin.last))
}

#[tactic(auto, unfolding(crate::specs::Spelled::line))]
fn push_pin(text: &mut List<u8>, board: &Board, pin: &Pin) -> Result<(), NoMemory>
    requires { IsPin board.now.parts pin.now }
    ensures { OnOk result (text.new ≡ text.old ++ pin_line board.now.parts pin.now) }
{
    text.extend_from_slice(b"pin")?;
    push_word(text, board.net_name(pin.net))?;
    push_place(text, board, pin)?;
    text.extend_from_slice(b"\n")
}

fn push_pins(text: &mut List<u8>, board: &Board, pins: &[Pin]) -> Result<(), NoMemory>
    requires { All (IsPin board.now.parts) pins.now }
    ensures { OnOk result (text.new ≡ text.old ++ flat_map (pin_line board.now.parts) pins.now) }
{
    for pin in pins {
        push_pin(text, board, pin)?;
    }
    Ok(())
}

/// Adds the lines of the blockages, of the keep-outs, of the nets and of the pins.
#[tactic(auto, unfolding(crate::specs::Spelled::item_lines))]
pub fn push_items(text: &mut List<u8>, board: &Board) -> Result<(), NoMemory>
    ensures { OnOk result (text.new ≡ text.old ++ item_lines board.now.parts) }
{
    push_blocks(text, board, board.blocks())?;
    push_keepouts(text, board, board.keepouts())?;
    push_nets(text, board)?;
    push_pins(text, board, board.pins())
}

//! The text of what came of routing a net through others.

ghost use Rattle.std.specs.Prelude.{◌≡◌, ◌++◌, All, IfOk, OnOk};
ghost use Rattle.std.specs.List.{flat_map};
ghost use Rattle.route_law.specs.Regular.{IsNetOf};
ghost use Rattle.yield_route.specs.Named.{IsBackOf, IsRegularThrough, IsRippedOf};
ghost use Rattle.yield_route.specs.Texts.{back_text, kept_line, out_line, ripped_text, through_line, through_text};

use crate::told::{Back, Ripped, Through};
use board_model::Board;
use geo_rect::{List, NetId, NoMemory};
use reply_text::{push_count, push_name, push_rip_line, push_routed};
use std::alloc::Global;

/// The text of what came of routing the net through others, without certificates.
pub fn through_text(
    alloc: Global,
    board: &Board,
    net: NetId,
    through: &Through,
) -> Result<List<u8>, NoMemory>
    requires net { IsNetOf board.now.parts net }
    requires regular { IsRegularThrough board.now.parts through.now }
    ensures { IfOk result (λ text. text ≡ through_text board.now.parts net through.now) }
{
    let mut text = List::new(alloc);
    push_through(&mut text, board, net, through)?;
    Ok(text)
}

#[tactic(auto, unfolding(crate::specs::Texts::through_text))]
fn push_through(
    text: &mut List<u8>,
    board: &Board,
    net: NetId,
    through: &Through,
) -> Result<(), NoMemory>
    requires net { IsNetOf board.now.parts net }
    requires regular { IsRegularThrough board.now.parts through.now }
    ensures { OnOk result (text.new ≡ text.old ++ through_text board.now.parts net through.now) }
{
    push_through_line(text, board, net, through.ripped.len() as u64)?;
    push_each_ripped(text, board, through.ripped.as_slice())?;
    push_routed(text, board, &through.routed, true)?;
    push_each_back(text, board, through.back.as_slice())
}

#[tactic(auto, unfolding(crate::specs::Texts::through_line))]
fn push_through_line(
    text: &mut List<u8>,
    board: &Board,
    net: NetId,
    others: u64,
) -> Result<(), NoMemory>
    requires { IsNetOf board.now.parts net }
    ensures { OnOk result (text.new ≡ text.old ++ through_line board.now.parts net others) }
{
    push_name(text, b"through ", board.net_name(net))?;
    push_count(text, b" ", others)?;
    text.extend_from_slice(b"\n")
}

fn push_each_ripped(text: &mut List<u8>, board: &Board, ripped: &[Ripped]) -> Result<(), NoMemory>
    requires { All (IsRippedOf board.now.parts) ripped.now }
    ensures { OnOk result (text.new ≡ text.old ++ flat_map (ripped_text board.now.parts) ripped.now) }
{
    for one in ripped {
        push_rip_line(text, board, one.net, one.count)?;
    }
    Ok(())
}

fn push_each_back(text: &mut List<u8>, board: &Board, back: &[Back]) -> Result<(), NoMemory>
    requires { All (IsBackOf board.now.parts) back.now }
    ensures { OnOk result (text.new ≡ text.old ++ flat_map (back_text board.now.parts) back.now) }
{
    for one in back {
        push_back(text, board, *one)?;
    }
    Ok(())
}

fn push_back(text: &mut List<u8>, board: &Board, back: Back) -> Result<(), NoMemory>
    requires { IsBackOf board.now.parts back }
    ensures { OnOk result (text.new ≡ text.old ++ back_text board.now.parts back) }
{
    match back {
        Back::Kept(net, count) => push_kept_line(text, board, net, count),
        Back::Out(net, number) => push_out_line(text, board, net, number),
    }
}

#[tactic(auto, unfolding(crate::specs::Texts::kept_line))]
fn push_kept_line(
    text: &mut List<u8>,
    board: &Board,
    net: NetId,
    count: u64,
) -> Result<(), NoMemory>
    requires { IsNetOf board.now.parts net }
    ensures { OnOk result (text.new ≡ text.old ++ kept_line board.now.parts net count) }
{
    push_name(text, b"back ", board.net_name(net))?;
    push_count(text, b" kept ", count)?;
    text.extend_from_slice(b"\n")
}

#[tactic(auto, unfolding(crate::specs::Texts::out_line))]
fn push_out_line(
    text: &mut List<u8>,
    board: &Board,
    net: NetId,
    number: u64,
) -> Result<(), NoMemory>
    requires { IsNetOf board.now.parts net }
    ensures { OnOk result (text.new ≡ text.old ++ out_line board.now.parts net number) }
{
    push_name(text, b"back ", board.net_name(net))?;
    push_count(text, b" out ", number)?;
    text.extend_from_slice(b"\n")
}

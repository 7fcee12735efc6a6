ghost use Rattle.std.specs.Prelude.{◌≡◌, ◌++◌, All, IfOk, OnOk, length};
ghost use Rattle.std.specs.List.{flat_map};
ghost use Rattle.route_law.specs.Regular.{IsNetOf, IsRegularItem, IsRegularRouted, IsRegular};
ghost use Rattle.reply_text.specs.Texts.{all_line, item_text, rip_line, routed_text, reply_text, show_line};

use crate::conns::push_conn;
use crate::routes::push_routed;
use crate::strips::push_strips;
use crate::violations::push_rules;
use crate::words::{push_count, push_name};
use board_model::Board;
use geo_rect::{List, NetId, NoMemory};
use route_law::{Item, Reply, Routed};
use std::alloc::Global;

#[tactic(auto, unfolding(crate::specs::Texts::all_line))]
fn push_all_line(text: &mut List<u8>, nets: u64) -> Result<(), NoMemory>
    ensures { OnOk result (text.new ≡ text.old ++ all_line nets) }
{
    push_count(text, b"all ", nets)?;
    text.extend_from_slice(b"\n")
}

fn push_each_routed(
    text: &mut List<u8>,
    board: &Board,
    nets: &[Routed],
    quiet: bool,
) -> Result<(), NoMemory>
    requires { All (IsRegularRouted board.now.parts) nets.now }
    ensures { OnOk result (text.new ≡ text.old ++ flat_map (routed_text board.now.parts quiet) nets.now) }
{
    for routed in nets {
        push_routed(text, board, routed, quiet)?;
    }
    Ok(())
}

fn push_all(
    text: &mut List<u8>,
    board: &Board,
    nets: &[Routed],
    quiet: bool,
) -> Result<(), NoMemory>
    requires { All (IsRegularRouted board.now.parts) nets.now }
    ensures { OnOk result
        (text.new ≡ text.old ++ all_line (length nets.now) ++ flat_map (routed_text board.now.parts quiet) nets.now) }
{
    push_all_line(text, nets.len() as u64)?;
    push_each_routed(text, board, nets, quiet)
}

/// Adds the line that says how many connections of a net were removed.
#[tactic(auto, unfolding(crate::specs::Texts::rip_line))]
pub fn push_rip_line(
    text: &mut List<u8>,
    board: &Board,
    net: NetId,
    removed: u64,
) -> Result<(), NoMemory>
    requires { IsNetOf board.now.parts net }
    ensures { OnOk result (text.new ≡ text.old ++ rip_line board.now.parts net removed) }
{
    push_name(text, b"rip ", board.net_name(net))?;
    push_count(text, b" removed ", removed)?;
    text.extend_from_slice(b"\n")
}

#[tactic(auto, unfolding(crate::specs::Texts::show_line))]
fn push_show_line(
    text: &mut List<u8>,
    board: &Board,
    net: NetId,
    conns: u64,
    needed: u64,
) -> Result<(), NoMemory>
    requires { IsNetOf board.now.parts net }
    ensures { OnOk result (text.new ≡ text.old ++ show_line board.now.parts net conns needed) }
{
    push_name(text, b"show ", board.net_name(net))?;
    push_count(text, b" ", conns)?;
    push_count(text, b" of ", needed)?;
    text.extend_from_slice(b"\n")
}

fn push_each_item(text: &mut List<u8>, board: &Board, items: &[Item]) -> Result<(), NoMemory>
    requires { All (IsRegularItem board.now.parts) items.now }
    ensures { OnOk result (text.new ≡ text.old ++ flat_map (item_text board.now.parts) items.now) }
{
    for item in items {
        push_conn(text, board, item.number, &item.conn)?;
    }
    Ok(())
}

/// Adds the lines that list connections of a net.
pub fn push_show(
    text: &mut List<u8>,
    board: &Board,
    net: NetId,
    needed: u64,
    items: &[Item],
) -> Result<(), NoMemory>
    requires net { IsNetOf board.now.parts net }
    requires items { All (IsRegularItem board.now.parts) items.now }
    ensures { OnOk result
        (text.new ≡ text.old ++ show_line board.now.parts net (length items.now) needed ++ flat_map (item_text board.now.parts) items.now) }
{
    push_show_line(text, board, net, items.len() as u64, needed)?;
    push_each_item(text, board, items)
}

fn push_reply(text: &mut List<u8>, board: &Board, r: &Reply, quiet: bool) -> Result<(), NoMemory>
    requires { IsRegular board.now.parts r.now }
    ensures { OnOk result (text.new ≡ text.old ++ reply_text board.now.parts quiet r.now) }
{
    match r {
        Reply::Route(routed) => push_routed(text, board, routed, quiet),
        Reply::All(nets) => push_all(text, board, nets.as_slice(), quiet),
        Reply::Rip(net, removed) => push_rip_line(text, board, *net, *removed),
        Reply::Show(net, needed, items) => push_show(text, board, *net, *needed, items.as_slice()),
        Reply::Rules(found) => push_rules(text, board, found.as_slice()),
        Reply::Strips(l, c, strips) => push_strips(text, board, *l, *c, strips.as_slice()),
    }
}

/// The text of a reply; a quiet one is without certificates.
pub fn print(alloc: Global, board: &Board, r: &Reply, quiet: bool) -> Result<List<u8>, NoMemory>
    requires { IsRegular board.now.parts r.now }
    ensures { IfOk result (λ text. text ≡ reply_text board.now.parts quiet r.now) }
{
    let mut text = List::new(alloc);
    push_reply(&mut text, board, r, quiet)?;
    Ok(text)
}

//! The text of a report, line by line.

ghost use Rattle.std.specs.Prelude.{◌≡◌, ◌++◌, length, All, IfOk, OnOk};
ghost use Rattle.std.specs.List.{flat_map};
ghost use Rattle.board_model.specs.WellFormed.{AreWellFormed};
ghost use Rattle.net_trace.specs.declared.traced.OpenNet.{OpenNet as AnOpenNet};
ghost use Rattle.net_trace.specs.Named.{IsNetThere, IsGroupThere, IsShortThere, NamesWhatIsThere};
ghost use Rattle.net_trace.specs.Texts.{trace_line, group_line, open_line, short_line, report_text, IsTraceText};

use crate::traced::{Group, OpenNet, Short, Traced, report};
use board_model::{Board, Made};
use geo_rect::{List, NoMemory};
use reply_text::{push_count, push_name};
use std::alloc::Global;

/// The text of the report of a board with the connections that are made, which are well formed: how
/// many pieces and groups there are, and a line for each group, each open net and each pair of
/// shorted nets.
pub fn trace_text(alloc: Global, board: &Board, made: &Made) -> Result<List<u8>, NoMemory>
    requires nets { length made.now.lists ≡ length board.now.parts.net_names }
    requires well_formed { AreWellFormed board.now.parts made.now.lists }
    ensures { IfOk result (λ bytes. IsTraceText board.now.parts made.now.lists bytes) }
{
    let traced = report(alloc, board, made)?;
    text_of(alloc, board, &traced)
}

/// The text of a report that names what is there.
fn text_of(alloc: Global, board: &Board, traced: &Traced) -> Result<List<u8>, NoMemory>
    requires there { NamesWhatIsThere board.now.parts traced.now }
    ensures { IfOk result (λ bytes. bytes ≡ report_text board.now.parts traced.now) }
{
    let mut text = List::new(alloc);
    push_report(&mut text, board, traced)?;
    Ok(text)
}

/// Adds the text of a report.
#[tactic(auto, unfolding(crate::specs::Texts::report_text))]
fn push_report(text: &mut List<u8>, board: &Board, traced: &Traced) -> Result<(), NoMemory>
    requires there { NamesWhatIsThere board.now.parts traced.now }
    ensures { OnOk result (text.new ≡ text.old ++ report_text board.now.parts traced.now) }
{
    push_trace_line(text, traced.pieces, traced.groups.len() as u64)?;
    push_groups(text, traced.pieces, traced.groups.as_slice())?;
    push_opens(text, board, traced.opens.as_slice())?;
    push_shorts(text, board, traced.shorts.as_slice())
}

/// Adds the first line.
#[tactic(auto, unfolding(crate::specs::Texts::trace_line))]
fn push_trace_line(text: &mut List<u8>, pieces: u64, groups: u64) -> Result<(), NoMemory>
    ensures { OnOk result (text.new ≡ text.old ++ trace_line pieces groups) }
{
    push_count(text, b"trace ", pieces)?;
    push_count(text, b" groups ", groups)?;
    text.extend_from_slice(b"\n")
}

/// Adds the line of each group of so many pieces.
fn push_groups(text: &mut List<u8>, pieces: u64, groups: &[Group]) -> Result<(), NoMemory>
    requires there { All (IsGroupThere pieces) groups.now }
    ensures { OnOk result (text.new ≡ text.old ++ flat_map group_line groups.now) }
{
    for group in groups {
        push_group_line(text, pieces, *group)?;
    }
    Ok(())
}

/// Adds the line of a group of so many pieces.
#[tactic(auto, unfolding(crate::specs::Texts::group_line))]
fn push_group_line(text: &mut List<u8>, pieces: u64, group: Group) -> Result<(), NoMemory>
    requires there { IsGroupThere pieces group }
    ensures { OnOk result (text.new ≡ text.old ++ group_line group) }
{
    push_count(text, b"group ", group.first + 1)?;
    push_count(text, b" ", group.count)?;
    text.extend_from_slice(b"\n")
}

/// Adds the line of each open net.
fn push_opens(text: &mut List<u8>, board: &Board, opens: &[OpenNet]) -> Result<(), NoMemory>
    requires there { All (λ (o : AnOpenNet). IsNetThere board.now.parts o.net) opens.now }
    ensures { OnOk result (text.new ≡ text.old ++ flat_map (open_line board.now.parts) opens.now) }
{
    for open_net in opens {
        push_open_line(text, board, *open_net)?;
    }
    Ok(())
}

/// Adds the line of an open net.
#[tactic(auto, unfolding(crate::specs::Texts::open_line))]
fn push_open_line(text: &mut List<u8>, board: &Board, open_net: OpenNet) -> Result<(), NoMemory>
    requires there { IsNetThere board.now.parts open_net.net }
    ensures { OnOk result (text.new ≡ text.old ++ open_line board.now.parts open_net) }
{
    push_name(text, b"open ", board.net_name(open_net.net))?;
    push_count(text, b" ", open_net.groups)?;
    text.extend_from_slice(b"\n")
}

/// Adds the line of each pair of shorted nets.
fn push_shorts(text: &mut List<u8>, board: &Board, shorts: &[Short]) -> Result<(), NoMemory>
    requires there { All (IsShortThere board.now.parts) shorts.now }
    ensures { OnOk result (text.new ≡ text.old ++ flat_map (short_line board.now.parts) shorts.now) }
{
    for short in shorts {
        push_short_line(text, board, *short)?;
    }
    Ok(())
}

/// Adds the line of two shorted nets.
#[tactic(auto, unfolding(crate::specs::Texts::short_line))]
fn push_short_line(text: &mut List<u8>, board: &Board, short: Short) -> Result<(), NoMemory>
    requires there { IsShortThere board.now.parts short }
    ensures { OnOk result (text.new ≡ text.old ++ short_line board.now.parts short) }
{
    push_name(text, b"short ", board.net_name(short.a))?;
    push_name(text, b" ", board.net_name(short.b))?;
    text.extend_from_slice(b"\n")
}

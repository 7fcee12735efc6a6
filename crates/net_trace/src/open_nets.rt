//! The nets whose pins are in two groups or more.

ghost use Rattle.std.specs.Prelude.{◌≡◌, ◌+◌, ◌<◌, ◌≤◌, length, IfOk, OnOk};
ghost use Rattle.net_trace.specs.Report.{IsListOf, IsOpen, IsEarlierNet};
ghost use Rattle.net_trace.specs.Listing.{IsSoBelow, IsListed, net_number};

use crate::copper::Piece;
use crate::held_groups::held_groups;
use crate::traced::OpenNet;
use board_model::Board;
use geo_rect::{List, NetId, NoMemory};
use std::alloc::Global;

/// Each open net. The pins of the board are the first of the pieces.
pub fn opens_of(
    alloc: Global,
    board: &Board,
    pieces: &[Piece],
    numbers: &[u64],
) -> Result<List<OpenNet>, NoMemory>
    requires each { length numbers.now ≡ length pieces.now }
    requires pins { length board.now.parts.pins ≤ length pieces.now }
    ensures { IfOk result
        (λ opens. IsListOf IsEarlierNet (IsOpen board.now.parts pieces.now (IsListed numbers.now)) opens) }
{
    let mut opens = List::new(alloc);
    for net in 0..board.nets() {
        push_open(alloc, &mut opens, board, pieces, numbers, NetId(net))?;
    }
    Ok(opens)
}

/// Adds the net, if it is open.
fn push_open(
    alloc: Global,
    opens: &mut List<OpenNet>,
    board: &Board,
    pieces: &[Piece],
    numbers: &[u64],
    net: NetId,
) -> Result<(), NoMemory>
    requires each { length numbers.now ≡ length pieces.now }
    requires pins { length board.now.parts.pins ≤ length pieces.now }
    requires net { net.0 < length board.now.parts.net_names }
    requires opens { IsListOf IsEarlierNet (IsSoBelow net_number (IsOpen board.now.parts pieces.now (IsListed numbers.now)) net.0) opens.old }
    ensures { OnOk result
        (IsListOf IsEarlierNet (IsSoBelow net_number (IsOpen board.now.parts pieces.now (IsListed numbers.now)) (net.0 + 1)) opens.new) }
{
    let held = held_groups(alloc, pieces, numbers, net, board.pins().len())?;
    let groups = held.len() as u64;
    if groups < 2 {
        return Ok(());
    }
    opens.push(OpenNet { net, groups })
}

//! The report of what is joined on a board.

ghost use Rattle.std.specs.Prelude.{◌≡◌, ◌≤◌, length, IfOk};
ghost use Rattle.board_model.specs.WellFormed.{AreWellFormed};
ghost use Rattle.net_trace.specs.Listing.{IsListed, AreWithin};
ghost use Rattle.net_trace.specs.Named.{NamesWhatIsThere};
ghost use Rattle.net_trace.specs.Report.{IsReport, IsReportBy};

use crate::copper::{Piece, pieces};
use crate::flood::groups;
use crate::group_lists::groups_of;
use crate::open_nets::opens_of;
use crate::short_nets::shorts_of;
use board_model::{Board, Made};
use geo_rect::{List, NetId, NoMemory};
use std::alloc::Global;

/// Pieces of which each is joined to each other by a chain of touching.
#[derive(Clone, Copy)]
pub struct Group {
    /// The number of its first piece, from 0.
    pub first: u64,
    /// The number of its pieces.
    pub count: u64,
}

/// A net whose pins are not all in one group.
#[derive(Clone, Copy)]
pub struct OpenNet {
    pub net: NetId,
    /// The number of groups that hold a pin of it, 2 or more.
    pub groups: u64,
}

/// Two nets of which one group has a piece of each.
#[derive(Clone, Copy)]
pub struct Short {
    /// The earlier of the two in the order of the text.
    pub a: NetId,
    pub b: NetId,
}

/// What is joined on a board.
#[derive(Drop)]
pub struct Traced {
    /// The number of pieces.
    pub pieces: u64,
    /// All groups, in the order of their first pieces.
    pub groups: List<Group>,
    /// The open nets, in the order of the text.
    pub opens: List<OpenNet>,
    /// The pairs of shorted nets, by their earlier net and then by their later one.
    pub shorts: List<Short>,
}

/// Reports what is joined on a board with the connections that are made, which are well formed: its
/// groups of copper, the nets that are open and those that are shorted.
pub fn report(alloc: Global, board: &Board, made: &Made) -> Result<Traced, NoMemory>
    requires nets { length made.now.lists ≡ length board.now.parts.net_names }
    requires well_formed { AreWellFormed board.now.parts made.now.lists }
    ensures told { IfOk result (λ traced. IsReport board.now.parts made.now.lists traced) }
    ensures named { IfOk result (λ traced. NamesWhatIsThere board.now.parts traced) }
{
    let pieces = pieces(alloc, board, made)?;
    let numbers = groups(alloc, pieces.as_slice())?;
    report_of(alloc, board, pieces.as_slice(), numbers.as_slice())
}

/// Reports the groups of pieces, by the number of the group of each piece.
fn report_of(
    alloc: Global,
    board: &Board,
    pieces: &[Piece],
    numbers: &[u64],
) -> Result<Traced, NoMemory>
    requires within { AreWithin pieces.now numbers.now (length board.now.parts.net_names) }
    requires pins { length board.now.parts.pins ≤ length pieces.now }
    ensures { IfOk result
        (λ traced. IsReportBy board.now.parts pieces.now (IsListed numbers.now) traced) }
{
    Ok(Traced {
        pieces: pieces.len() as u64,
        groups: groups_of(alloc, numbers)?,
        opens: opens_of(alloc, board, pieces, numbers)?,
        shorts: shorts_of(alloc, board.nets(), pieces, numbers)?,
    })
}

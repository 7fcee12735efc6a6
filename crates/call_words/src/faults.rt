//! The first rule that the names and numbers of a call break on a board.

ghost use Rattle.std.specs.Prelude.{◌≡◌, ◌↔◌, ◌≤◌, pos, ◌≤ℤ◌, IsTrue, All, Contains, map, string_bytes, MatchOption};
ghost use Rattle.call_words.specs.Asked.{ReportAsked, SequelAsked};
ghost use Rattle.call_words.specs.Requests.{report_by, sequel_by};
ghost use Rattle.call_words.specs.Trials.{AreOnBoard, AreInOrder, IsSoundReport, IsReportFault, IsSoundSequel, IsSequelFault};

use crate::names::{are_apart, has_word};
use crate::requests::{Corners, Report, Sequel};
use board_parts::Board;
use board_reader::RefusalKind;

fn has_net(board: &Board, name: &str) -> bool
    ensures { IsTrue result ↔ Contains board.now.parts.net_names name.now }
{
    board.find_net(name).is_some()
}

fn has_layer(board: &Board, name: &str) -> bool
    ensures { IsTrue result ↔ Contains board.now.parts.layers name.now }
{
    board.find_layer(name).is_some()
}

fn has_nets(board: &Board, names: &[String]) -> bool
    ensures { IsTrue result ↔ All (Contains board.now.parts.net_names) (map string_bytes names.now) }
{
    for name in names {
        if !has_net(board, name.as_str()) {
            return false;
        }
    }
    true
}

/// Whether the number is at most the width or height of a board.
fn is_within(number: u128, side: i32) -> bool
    ensures { IsTrue result ↔ pos number ≤ℤ side }
{
    match u128::try_from(side) {
        Ok(side) => number <= side,
        Err(_) => false,
    }
}

fn are_on_board(board: &Board, corners: Corners) -> bool
    ensures { IsTrue result ↔ AreOnBoard board.now.parts corners }
{
    if !is_within(corners.x0, board.width()) {
        return false;
    }
    if !is_within(corners.y0, board.height()) {
        return false;
    }
    if !is_within(corners.x1, board.width()) {
        return false;
    }
    is_within(corners.y1, board.height())
}

fn are_in_order(corners: Corners) -> bool
    ensures { IsTrue result ↔ AreInOrder corners }
{
    if corners.x0 > corners.x1 {
        return false;
    }
    corners.y0 <= corners.y1
}

/// The kind of the first rule that a fill breaks.
fn filling_fault(board: &Board, net: &str, layer: &str, corners: Corners) -> Option<RefusalKind>
    ensures { MatchOption result (IsSoundReport board.now.parts (ReportAsked.Fill net.now layer.now corners))
        (IsReportFault board.now.parts (ReportAsked.Fill net.now layer.now corners)) }
{
    if !has_net(board, net) {
        return Some(RefusalKind::UnknownName);
    }
    if !has_layer(board, layer) {
        return Some(RefusalKind::UnknownName);
    }
    if !are_on_board(board, corners) {
        return Some(RefusalKind::OutOfRange);
    }
    if !are_in_order(corners) {
        return Some(RefusalKind::BadRect);
    }
    None
}

/// The kind of the first rule that a report on a layer breaks.
fn layer_fault(board: &Board, layer: &str) -> Option<RefusalKind>
    ensures { MatchOption result (IsSoundReport board.now.parts (ReportAsked.Gerber layer.now))
        (IsReportFault board.now.parts (ReportAsked.Gerber layer.now)) }
{
    if !has_layer(board, layer) {
        return Some(RefusalKind::UnknownName);
    }
    None
}

/// The kind of the first rule that a report breaks.
pub fn report_fault(board: &Board, report: Report<'_>) -> Option<RefusalKind>
    ensures { MatchOption result (IsSoundReport board.now.parts (report_by report.entry))
        (IsReportFault board.now.parts (report_by report.entry)) }
{
    match report {
        Report::Fill {
            net,
            layer,
            corners,
        } => filling_fault(board, net, layer, corners),
        Report::Gerber { layer } => layer_fault(board, layer),
        Report::Trace => None,
    }
}

/// The kind of the first rule that routing a net through others breaks.
fn through_fault(board: &Board, net: &str, others: &[String]) -> Option<RefusalKind>
    ensures { MatchOption result
        (IsSoundSequel board.now.parts (SequelAsked.Through net.now (map string_bytes others.now)))
        (IsSequelFault board.now.parts (SequelAsked.Through net.now (map string_bytes others.now))) }
{
    if !has_net(board, net) {
        return Some(RefusalKind::UnknownName);
    }
    if !has_nets(board, others) {
        return Some(RefusalKind::UnknownName);
    }
    if has_word(others, net) {
        return Some(RefusalKind::TwiceNamed);
    }
    if !are_apart(others) {
        return Some(RefusalKind::TwiceNamed);
    }
    None
}

/// The kind of the first rule that a sequel breaks.
pub fn sequel_fault(board: &Board, sequel: Sequel<'_>) -> Option<RefusalKind>
    ensures { MatchOption result (IsSoundSequel board.now.parts (sequel_by sequel.entry))
        (IsSequelFault board.now.parts (sequel_by sequel.entry)) }
{
    match sequel {
        Sequel::Through { net, others } => through_fault(board, net, others),
        Sequel::Auto { .. } => None,
    }
}

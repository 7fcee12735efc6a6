//! What a report is made on, found on the board.

ghost use Rattle.std.specs.Prelude.{◌≡◌, pos, ◌≤ℤ◌, ◌<◌, length, Contains, IfOk, OnOk, IfErr};
ghost use Rattle.board_parts.specs.Lookup.{layer_name, net_name};
ghost use Rattle.board_parts.specs.Rules.{IsOnBoard};
ghost use Rattle.call_words.specs.Requests.{report_by};
ghost use Rattle.call_words.specs.Trials.{AreOnBoard, AreInOrder, IsZone, IsSoundReport, IsReportFault, IsSubject, IsSubjectOf};

use crate::faults::report_fault;
use crate::requests::{Corners, Report};
use board_parts::Board;
use board_reader::{Refusal, RefusalKind};
use geo_rect::{LayerId, NetId, Rect};

/// What a report is made on.
#[derive(Clone, Copy)]
pub enum Subject {
    /// A pour of the net on the layer, within the zone.
    Fill {
        net: NetId,
        layer: LayerId,
        zone: Rect,
    },
    /// The copper of the layer.
    Gerber(LayerId),
    /// What is joined.
    Trace,
}

/// A refusal of the words of a call: it names line 0.
pub fn refusal_of(kind: RefusalKind) -> Refusal
    ensures line { result.line ≡ 0 }
    ensures kind { result.kind ≡ kind }
{
    Refusal { line: 0, kind }
}

/// The net of this name.
pub fn net_of(board: &Board, name: &str) -> NetId
    requires { Contains board.now.parts.net_names name.now }
    ensures name { net_name board.now.parts result ≡ name.now }
    ensures known { result.0 < length board.now.parts.net_names }
{
    match board.find_net(name) {
        Some(net) => net,
        None => unreachable!(),
    }
}

/// The layer of this name.
fn layer_of(board: &Board, name: &str) -> LayerId
    requires { Contains board.now.parts.layers name.now }
    ensures name { layer_name board.now.parts result ≡ name.now }
    ensures known { result.0 < length board.now.parts.layers }
{
    match board.find_layer(name) {
        Some(layer) => layer,
        None => unreachable!(),
    }
}

/// The number as a coordinate.
fn coordinate(number: u128, side: i32) -> i32
    requires { pos number ≤ℤ side }
    ensures { result ≡ pos number }
{
    number as i32
}

/// The rectangle with these corners.
fn zone_of(board: &Board, corners: Corners) -> Rect
    requires on_board { AreOnBoard board.now.parts corners }
    requires order { AreInOrder corners }
    ensures corners { IsZone corners result }
    ensures on_board { IsOnBoard board.now.parts.width board.now.parts.height result }
{
    Rect::new(
        coordinate(corners.x0, board.width()),
        coordinate(corners.y0, board.height()),
        coordinate(corners.x1, board.width()),
        coordinate(corners.y1, board.height()),
    )
}

/// What a report that breaks no rule is made on.
fn sound_subject(board: &Board, report: Report<'_>) -> Subject
    requires { IsSoundReport board.now.parts (report_by report) }
    ensures subject { IsSubject board.now.parts (report_by report.entry) result }
    ensures known { IsSubjectOf board.now.parts result }
{
    match report {
        Report::Fill {
            net,
            layer,
            corners,
        } => Subject::Fill {
            net: net_of(board, net),
            layer: layer_of(board, layer),
            zone: zone_of(board, corners),
        },
        Report::Gerber { layer } => Subject::Gerber(layer_of(board, layer)),
        Report::Trace => Subject::Trace,
    }
}

/// What a report is made on, by the numbers of the board, or the first rule that its names and numbers
/// break, told with line 0. The kinds, in this order: `UnknownName` for a net or a layer that the board
/// lacks, `OutOfRange` for a corner outside the board, `BadRect` for corners in the wrong order. It
/// takes no memory.
pub fn subject_of(board: &Board, report: Report<'_>) -> Result<Subject, Refusal>
    ensures sound { OnOk result (IsSoundReport board.now.parts (report_by report.entry)) }
    ensures subject { IfOk result (IsSubject board.now.parts (report_by report.entry)) }
    ensures known { IfOk result (IsSubjectOf board.now.parts) }
    ensures line { IfErr result (λ r. r.line ≡ 0) }
    ensures fault { IfErr result (λ r. IsReportFault board.now.parts (report_by report.entry) r.kind) }
{
    match report_fault(board, report) {
        Some(kind) => Err(refusal_of(kind)),
        None => Ok(sound_subject(board, report)),
    }
}

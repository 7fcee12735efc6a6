//! Reports on the state that right replies leave.
ghost use Rattle.std.specs.Prelude.{◌≡◌, ◌<◌, [], length, All, OnOk, IfOk, IfErr};
ghost use Rattle.io_edge.specs.Streams.{IsToldAs};
ghost use Rattle.board_model.specs.Shapes.{state_shapes};
ghost use Rattle.board_parts.specs.Commands.{IsCommandOf};
ghost use Rattle.board_reader.specs.Contract.{told_by};
ghost use Rattle.call_words.specs.Asked.{Asked};
ghost use Rattle.call_words.specs.Requests.{report_by};
ghost use Rattle.call_words.specs.Trials.{IsPlaceOf, IsSubjectOf};
ghost use Rattle.gerber_out.specs.Layers.{areas_text, wanted};
ghost use Rattle.replay_check.specs.After.{AreOfARun};
ghost use Rattle.route_law.specs.Kept.{IsState};
ghost use Rattle.contour_core.specs.Causes.{EndsCall, HasDone, IsBeforeReplies};
ghost use Rattle.contour_core.specs.Endings.{EndsSending};
ghost use Rattle.contour_core.specs.Reports.{EndsReport, EndsReportText, IsReportOn, IsTextAfter, IsTextOf, Reports, TellsPour};

use crate::checks::judge;
use crate::endings::Ending;
use crate::parts::{Checked, read_checked};
use board_model::{Made, all_shapes};
use board_parts::Board;
use call_words::{Report, Subject, subject_of};
use geo_rect::{LayerId, List, NetId, NoMemory, Rect};
use gerber_out::layer_text;
use io_edge::{Sink, Source, write_all};
use net_trace::trace_text;
use plane_set::PlaneSet;
use replay_check::state_after;
use route_law::Reply;
use std::alloc::Global;
use strip_merge::StitchedPlane;
use zone_fill::{fill_text, pour};

/// Where a pour of the net may flow in the zone on the layer.
fn pour_text(
    alloc: Global,
    board: &Board,
    made: &Made,
    net: NetId,
    layer: LayerId,
    zone: Rect,
) -> Result<List<u8>, NoMemory>
    requires state { IsState board.now.parts made.now.lists }
    requires place { IsPlaceOf board.now.parts net layer zone }
    ensures { IfOk result (TellsPour board.now.parts made.now.lists net layer zone) }
{
    let shapes = all_shapes(alloc, board, made)?;
    let planes: PlaneSet<StitchedPlane> = PlaneSet::of(alloc, board, shapes.as_slice())?;
    let boxes = pour(alloc, board, &planes, net, layer, zone, shapes.as_slice())?;
    fill_text(alloc, board, net, layer, boxes.as_slice())
}

/// The copper of a layer.
fn copper_text(
    alloc: Global,
    board: &Board,
    made: &Made,
    layer: LayerId,
) -> Result<List<u8>, NoMemory>
    requires state { IsState board.now.parts made.now.lists }
    requires layer { layer.0 < length board.now.parts.layers }
    ensures { IfOk result (λ text. text ≡ areas_text (wanted layer (state_shapes board.now.parts made.now.lists))) }
{
    let shapes = all_shapes(alloc, board, made)?;
    layer_text(alloc, board, shapes.as_slice(), layer)
}

/// The report on a state.
fn text_of(
    alloc: Global,
    board: &Board,
    made: &Made,
    subject: Subject,
) -> Result<List<u8>, NoMemory>
    requires state { IsState board.now.parts made.now.lists }
    requires subject { IsSubjectOf board.now.parts subject }
    ensures { IfOk result (IsTextOf board.now.parts made.now.lists subject) }
{
    match subject {
        Subject::Fill { net, layer, zone } => pour_text(alloc, board, made, net, layer, zone),
        Subject::Gerber(layer) => copper_text(alloc, board, made, layer),
        Subject::Trace => trace_text(alloc, board, made),
    }
}

/// The report on the state that right replies leave.
fn text_after(
    alloc: Global,
    board: &Board,
    replies: &[Reply],
    subject: Subject,
) -> Result<List<u8>, NoMemory>
    requires run { AreOfARun board.now.parts replies.now }
    requires subject { IsSubjectOf board.now.parts subject }
    ensures { IfOk result (IsTextAfter board.now.parts replies.now subject) }
{
    let made = state_after(alloc, board, replies)?;
    text_of(alloc, board, &made, subject)
}

/// The text of a report, if its names and numbers are those of the board and the replies are right.
fn report_text(alloc: Global, report: Report<'_>, checked: &Checked) -> Result<List<u8>, Ending>
    requires commands { All (IsCommandOf checked.now.input.board.parts) checked.now.input.commands }
    ensures ok { IfOk result (IsReportOn (told_by checked.now.input) checked.now.replies (report_by report.entry)) }
    ensures err { IfErr result (EndsReportText (told_by checked.now.input) checked.now.replies (report_by report.entry)) }
{
    let board = &checked.input.board;
    let subject = subject_of(board, report)?;
    judge(alloc, checked)?;
    Ok(text_after(alloc, board, checked.replies.as_slice(), subject)?)
}

/// Writes a report on a board text and the replies behind it.
fn send<K: Sink>(
    alloc: Global,
    report: Report<'_>,
    checked: &Checked,
    out: &mut K,
) -> Result<(), Ending>
    requires commands { All (IsCommandOf checked.now.input.board.parts) checked.now.input.commands }
    ensures ok { OnOk result (Reports (told_by checked.now.input) checked.now.replies (report_by report.entry)
        (K.written out.old) (K.written out.new)) }
    ensures err { IfErr result (EndsReport (told_by checked.now.input) checked.now.replies (report_by report.entry)
        (K.written out.old) (K.written out.new) (K.faults out.old) (K.faults out.new)) }
    ensures unwritten { IfErr result (λ e. IsBeforeReplies e → out.new ≡ out.old) }
    ensures setup { K.setup out.new ≡ K.setup out.old }
{
    let text = report_text(alloc, report, checked)?;
    write_all(out, text.as_slice())?;
    Ok(())
}

/// Reads a board text and the text of replies, and writes a report on the state that these leave.
pub fn write_report<S: Source, K: Sink>(
    alloc: Global,
    report: Report<'_>,
    source: &mut S,
    out: &mut K,
) -> Result<(), Ending>
    ensures done { OnOk result (HasDone (S.left source.old) (K.written out.old) (K.written out.new) (Asked.Reporting (report_by report.entry))) }
    ensures end { OnOk result (IsToldAs (S.left source.new) []) }
    ensures err { IfErr result (EndsCall (Asked.Reporting (report_by report.entry)) (S.left source.old) (S.faults source.old) (S.faults source.new)
        (K.written out.old) (K.written out.new) (K.faults out.old) (K.faults out.new)) }
    ensures unwritten { IfErr result (λ e. IsBeforeReplies e → out.new ≡ out.old) }
    ensures source_setup { S.setup source.new ≡ S.setup source.old }
    ensures sink_setup { K.setup out.new ≡ K.setup out.old }
{
    let checked = read_checked(alloc, source)?;
    send(alloc, report, &checked, out)
}

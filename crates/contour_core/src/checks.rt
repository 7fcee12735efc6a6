//! Replies that are handed in are checked against the commands of their board text.
ghost use Rattle.std.specs.Prelude.{◌≡◌, [], All, length, OnOk, IfErr};
ghost use Rattle.io_edge.specs.Streams.{Appends, IsToldAs};
ghost use Rattle.board_parts.specs.Commands.{IsCommandOf};
ghost use Rattle.board_reader.specs.Contract.{told_by};
ghost use Rattle.call_words.specs.Asked.{Asked};
ghost use Rattle.route_law.specs.Steps.{IsRun};
ghost use Rattle.contour_core.specs.Causes.{EndsCall, HasDone, IsBeforeReplies};
ghost use Rattle.contour_core.specs.Checked.{EndsJudging, EndsTelling, TellsRight};
ghost use Rattle.contour_core.specs.Endings.{EndsSending};
ghost use Rattle.contour_core.specs.Texts.{right_text};

use crate::endings::Ending;
use crate::lines::right_line;
use crate::parts::{Checked, read_checked};
use io_edge::{Sink, Source, write_all};
use replay_check::{ReplayEnd, replay};
use std::alloc::Global;
use strip_merge::StitchedPlane;

/// Whether the replies are those of a run over the commands. It makes no search.
pub fn judge(alloc: Global, checked: &Checked) -> Result<(), Ending>
    requires commands { All (IsCommandOf checked.now.input.board.parts) checked.now.input.commands }
    ensures ok { OnOk result (IsRun checked.now.input.board.parts checked.now.input.commands checked.now.replies) }
    ensures err { IfErr result (EndsJudging (told_by checked.now.input) checked.now.replies) }
{
    match replay::<StitchedPlane>(alloc, &checked.input, checked.replies.as_slice())? {
        ReplayEnd::Yes => Ok(()),
        ReplayEnd::No(number) => Err(Ending::Wrong(number)),
    }
}

/// Writes the line that says how many replies are right.
fn tell_right<K: Sink>(alloc: Global, count: u64, out: &mut K) -> Result<(), Ending>
    ensures ok { OnOk result (Appends (K.written out.old) (K.written out.new) (right_text count)) }
    ensures err { IfErr result (EndsSending (right_text count) (K.written out.old) (K.written out.new) (K.faults out.old) (K.faults out.new)) }
    ensures setup { K.setup out.new ≡ K.setup out.old }
{
    write_all(out, right_line(alloc, count).as_slice())?;
    Ok(())
}

/// Says how many replies there are, if all are right.
fn tell_checked<K: Sink>(alloc: Global, checked: &Checked, out: &mut K) -> Result<(), Ending>
    requires commands { All (IsCommandOf checked.now.input.board.parts) checked.now.input.commands }
    ensures ok { OnOk result (TellsRight (told_by checked.now.input) checked.now.replies (K.written out.old) (K.written out.new)) }
    ensures err { IfErr result (EndsTelling (told_by checked.now.input) checked.now.replies
        (K.written out.old) (K.written out.new) (K.faults out.old) (K.faults out.new)) }
    ensures unwritten { IfErr result (λ e. IsBeforeReplies e → out.new ≡ out.old) }
    ensures setup { K.setup out.new ≡ K.setup out.old }
{
    judge(alloc, checked)?;
    tell_right(alloc, checked.replies.len() as u64, out)
}

/// Reads a board text and the text of replies, and says how many are right.
pub fn check<S: Source, K: Sink>(alloc: Global, source: &mut S, out: &mut K) -> Result<(), Ending>
    ensures done { OnOk result (HasDone (S.left source.old) (K.written out.old) (K.written out.new) Asked.Check) }
    ensures end { OnOk result (IsToldAs (S.left source.new) []) }
    ensures err { IfErr result (EndsCall Asked.Check (S.left source.old) (S.faults source.old) (S.faults source.new)
        (K.written out.old) (K.written out.new) (K.faults out.old) (K.faults out.new)) }
    ensures unwritten { IfErr result (λ e. IsBeforeReplies e → out.new ≡ out.old) }
    ensures source_setup { S.setup source.new ≡ S.setup source.old }
    ensures sink_setup { K.setup out.new ≡ K.setup out.old }
{
    let checked = read_checked(alloc, source)?;
    tell_checked(alloc, &checked, out)
}

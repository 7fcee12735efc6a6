//! A board text written again as one of the second version.
ghost use Rattle.std.specs.Prelude.{◌≡◌, ◌≤◌, [], All, OnOk, IfErr};
ghost use Rattle.io_edge.specs.Streams.{Appends, IsToldAs};
ghost use Rattle.board_parts.specs.Commands.{IsCommandOf};
ghost use Rattle.board_reader.specs.Contract.{told_by};
ghost use Rattle.call_words.specs.Asked.{Asked};
ghost use Rattle.text_upgrade.specs.Upgraded.{upgraded};
ghost use Rattle.contour_core.specs.Causes.{EndsCall, HasDone, IsBeforeReplies};
ghost use Rattle.contour_core.specs.Endings.{EndsSending};

use crate::endings::Ending;
use crate::inputs::read_text;
use board_reader::Input;
use io_edge::{Sink, Source, write_all};
use std::alloc::Global;
use text_upgrade::upgrade;

/// Writes the board and the commands of an input as a text of the second version.
fn send<K: Sink>(alloc: Global, input: &Input, out: &mut K) -> Result<(), Ending>
    requires { All (IsCommandOf input.now.board.parts) input.now.commands }
    ensures ok { OnOk result (Appends (K.written out.old) (K.written out.new) (upgraded (told_by input.now))) }
    ensures err { IfErr result (EndsSending (upgraded (told_by input.now)) (K.written out.old) (K.written out.new) (K.faults out.old) (K.faults out.new)) }
    ensures setup { K.setup out.new ≡ K.setup out.old }
{
    let text = upgrade(alloc, input)?;
    write_all(out, text.as_slice())?;
    Ok(())
}

/// Reads a board text, of either version, and writes it as one of the second version.
pub fn upgrade_text<S: Source, K: Sink>(
    alloc: Global,
    source: &mut S,
    out: &mut K,
) -> Result<(), Ending>
    ensures done { OnOk result (HasDone (S.left source.old) (K.written out.old) (K.written out.new) Asked.Upgrade) }
    ensures end { OnOk result (IsToldAs (S.left source.new) []) }
    ensures err { IfErr result (EndsCall Asked.Upgrade (S.left source.old) (S.faults source.old) (S.faults source.new)
        (K.written out.old) (K.written out.new) (K.faults out.old) (K.faults out.new)) }
    ensures unwritten { IfErr result (λ e. IsBeforeReplies e → out.new ≡ out.old) }
    ensures source_setup { S.setup source.new ≡ S.setup source.old }
    ensures sink_setup { K.setup out.new ≡ K.setup out.old }
{
    let input = read_text(alloc, source)?;
    send(alloc, &input, out)
}

//! A demonstration: a generated board text is read, its two commands are answered, and the replies are
//! summed up.
ghost use Rattle.std.specs.Prelude.{◌≡◌, ◌≤◌, OnOk, IfErr};
ghost use Rattle.io_edge.specs.Streams.{Appends};
ghost use Rattle.board_gen.specs.Generated.{asked};
ghost use Rattle.call_words.specs.Numbers.{IsSize};
ghost use Rattle.demo_text.specs.Bounds.{IsReplyTo};
ghost use Rattle.demo_text.specs.Summary.{summary};
ghost use Rattle.contour_core.specs.Demos.{EndsDemo, EndsFinish, EndsSummary, Finishes, IsOfGenerated, SumsUp};
ghost use Rattle.contour_core.specs.Endings.{EndsSending};

use crate::answers::reply_to;
use crate::begins::begin;
use crate::endings::Ending;
use board_gen::generate;
use board_model::{Board, Command};
use board_reader::read_input;
use demo_text::summary;
use io_edge::{Sink, write_all};
use plane_core::Plane;
use route_law::Reply;
use session_core::Session;
use std::alloc::Global;

/// Writes the summary of the two replies.
fn sum_up<K: Sink>(
    alloc: Global,
    n: u32,
    first: &Reply,
    second: &Reply,
    out: &mut K,
) -> Result<(), Ending>
    requires { IsReplyTo Command.All first.now }
    ensures ok { OnOk result (Appends (K.written out.old) (K.written out.new) (summary n first.now second.now)) }
    ensures err { IfErr result (EndsSending (summary n first.now second.now) (K.written out.old) (K.written out.new) (K.faults out.old) (K.faults out.new)) }
    ensures never_falls { K.faults out.old ≤ K.faults out.new }
    ensures setup { K.setup out.new ≡ K.setup out.old }
{
    let line = summary(alloc, n, first, second)?;
    write_all(out, line.as_slice())?;
    Ok(())
}

/// Makes the reply to `rules` and writes it, and then the summary of it and of the reply to `all`.
fn finish<P: Plane, K: Sink>(
    alloc: Global,
    session: Session<P>,
    n: u32,
    first: &Reply,
    out: &mut K,
) -> Result<(), Ending>
    requires { IsReplyTo Command.All first.now }
    ensures ok { OnOk result (Finishes session.parts session.lists n first.now (K.written out.old) (K.written out.new)) }
    ensures err { IfErr result (EndsFinish session.parts session.lists n first.now (K.written out.old) (K.written out.new) (K.faults out.old) (K.faults out.new)) }
    ensures never_falls { K.faults out.old ≤ K.faults out.new }
    ensures setup { K.setup out.new ≡ K.setup out.old }
{
    let (_, second) = reply_to(alloc, session, Command::Rules, true, out)?;
    sum_up(alloc, n, first, &second, out)
}

/// Makes the replies to `all` and to `rules`, from a session on the board in which nothing is made,
/// and writes each before it begins the next, and at last their summary.
fn demonstrate<K: Sink>(alloc: Global, board: Board, n: u32, out: &mut K) -> Result<(), Ending>
    ensures ok { OnOk result (SumsUp board.parts asked n (K.written out.old) (K.written out.new)) }
    ensures err { IfErr result (EndsSummary board.parts asked n (K.written out.old) (K.written out.new) (K.faults out.old) (K.faults out.new)) }
    ensures never_falls { K.faults out.old ≤ K.faults out.new }
    ensures setup { K.setup out.new ≡ K.setup out.old }
{
    let session = begin(alloc, board)?;
    let (session, first) = reply_to(alloc, session, Command::All, true, out)?;
    finish(alloc, session, n, &first, out)
}

/// Writes the replies to the commands of the generated board text of `n` nets, and their summary.
pub fn demo<K: Sink>(alloc: Global, n: u32, out: &mut K) -> Result<(), Ending>
    requires { IsSize n }
    ensures ok { OnOk result (IsOfGenerated n (λ b cs. SumsUp b cs n (K.written out.old) (K.written out.new))) }
    ensures err { IfErr result (EndsDemo n (K.written out.old) (K.written out.new) (K.faults out.old) (K.faults out.new)) }
    ensures setup { K.setup out.new ≡ K.setup out.old }
{
    let text = generate(alloc, n)?;
    let input = read_input(alloc, text.as_slice())?;
    demonstrate(alloc, input.board, n, out)
}

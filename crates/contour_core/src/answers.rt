//! The replies to the commands of a board text, each written before the next command is begun.
ghost use Rattle.std.specs.Prelude.{◌≡◌, ◌≤◌, All, Err, IsOk, OnOk, IfOk, IfErr};
ghost use Rattle.io_edge.specs.Streams.{Appends};
ghost use Rattle.board_parts.specs.Commands.{IsCommandOf};
ghost use Rattle.route_law.specs.Regular.{IsRegular};
ghost use Rattle.reply_text.specs.Texts.{reply_text};
ghost use Rattle.contour_core.specs.Answers.{AnswersAll};
ghost use Rattle.contour_core.specs.Endings.{EndsAnswer, EndsAnswers, EndsSending};
ghost use Rattle.contour_core.specs.Sessions.{AnswersOne, AnswersWith, IsUnderway};

use crate::begins::begin;
use crate::endings::Ending;
use board_model::{Board, Command};
use io_edge::{Sink, write_all};
use plane_core::Plane;
use reply_text::print;
use route_law::Reply;
use session_core::Session;
use std::alloc::Global;
use strip_merge::StitchedPlane;

/// Writes the text of a reply.
fn send<K: Sink>(
    alloc: Global,
    board: &Board,
    reply: &Reply,
    quiet: bool,
    out: &mut K,
) -> Result<(), Ending>
    requires { IsRegular board.now.parts reply.now }
    ensures ok { OnOk result (Appends (K.written out.old) (K.written out.new) (reply_text board.now.parts quiet reply.now)) }
    ensures err { IfErr result (EndsSending (reply_text board.now.parts quiet reply.now) (K.written out.old) (K.written out.new) (K.faults out.old) (K.faults out.new)) }
    ensures never_falls { K.faults out.old ≤ K.faults out.new }
    ensures setup { K.setup out.new ≡ K.setup out.old }
{
    let text = print(alloc, board, reply, quiet)?;
    write_all(out, text.as_slice())?;
    Ok(())
}

/// The session and the reply, if all went well until now.
fn go_on<P: Plane>(
    session: Session<P>,
    reply: Reply,
    sent: Result<(), Ending>,
) -> Result<(Session<P>, Reply), Ending>
    ensures ok { IfOk result (λ a. (a.0 ≡ session) × (a.1 ≡ reply) × IsOk sent) }
    ensures err { IfErr result (λ e. sent ≡ Err e) }
{
    match sent {
        Ok(()) => Ok((session, reply)),
        Err(ending) => Err(ending),
    }
}

/// Makes the reply to one command and writes it. The session goes on from there.
pub fn reply_to<P: Plane, K: Sink>(
    alloc: Global,
    session: Session<P>,
    command: Command,
    quiet: bool,
    out: &mut K,
) -> Result<(Session<P>, Reply), Ending>
    requires known { IsCommandOf session.parts command }
    ensures board { IfOk result (λ a. a.0.parts ≡ session.parts) }
    ensures ok { IfOk result (λ a. AnswersWith session.parts quiet session.lists command a.1 a.0.lists (K.written out.old) (K.written out.new)) }
    ensures err { IfErr result (EndsAnswer session.parts quiet session.lists command (K.written out.old) (K.written out.new) (K.faults out.old) (K.faults out.new)) }
    ensures never_falls { K.faults out.old ≤ K.faults out.new }
    ensures setup { K.setup out.new ≡ K.setup out.old }
{
    let (next, reply) = session.apply(alloc, &command)?;
    let sent = send(alloc, next.board(), &reply, quiet, out);
    go_on(next, reply, sent)
}

/// Makes the reply to one command and writes it. The session goes on from there without the reply.
fn answer<P: Plane, K: Sink>(
    alloc: Global,
    session: Session<P>,
    command: Command,
    quiet: bool,
    out: &mut K,
) -> Result<Session<P>, Ending>
    requires known { IsCommandOf session.parts command }
    ensures board { IfOk result (λ s. s.parts ≡ session.parts) }
    ensures ok { IfOk result (λ s. AnswersOne session.parts quiet session.lists command s.lists (K.written out.old) (K.written out.new)) }
    ensures err { IfErr result (EndsAnswer session.parts quiet session.lists command (K.written out.old) (K.written out.new) (K.faults out.old) (K.faults out.new)) }
    ensures never_falls { K.faults out.old ≤ K.faults out.new }
    ensures setup { K.setup out.new ≡ K.setup out.old }
{
    let (next, _) = reply_to(alloc, session, command, quiet, out)?;
    Ok(next)
}

/// Makes the reply to each command, from a session on the board in which nothing is made, and writes
/// it before it begins the next. The session is handed back.
pub fn answer_all<K: Sink>(
    alloc: Global,
    board: Board,
    commands: &[Command],
    quiet: bool,
    out: &mut K,
) -> Result<Session<StitchedPlane>, Ending>
    requires { All (IsCommandOf board.parts) commands.now }
    ensures board { IfOk result (λ s. s.parts ≡ board.parts) }
    ensures ok { IfOk result (λ s. IsUnderway board.parts quiet commands.now s.lists (K.written out.old) (K.written out.new)) }
    ensures all { OnOk result (AnswersAll board.parts quiet commands.now (K.written out.old) (K.written out.new)) }
    ensures err { IfErr result (EndsAnswers board.parts quiet commands.now (K.written out.old) (K.written out.new) (K.faults out.old) (K.faults out.new)) }
    ensures never_falls { K.faults out.old ≤ K.faults out.new }
    ensures setup { K.setup out.new ≡ K.setup out.old }
{
    let mut session = begin(alloc, board)?;
    for command in commands {
        session = answer(alloc, session, *command, quiet, out)?;
    }
    Ok(session)
}

/// Makes the reply to each command and writes it, as `answer_all` does.
pub fn answer_each<K: Sink>(
    alloc: Global,
    board: Board,
    commands: &[Command],
    quiet: bool,
    out: &mut K,
) -> Result<(), Ending>
    requires { All (IsCommandOf board.parts) commands.now }
    ensures ok { OnOk result (AnswersAll board.parts quiet commands.now (K.written out.old) (K.written out.new)) }
    ensures err { IfErr result (EndsAnswers board.parts quiet commands.now (K.written out.old) (K.written out.new) (K.faults out.old) (K.faults out.new)) }
    ensures never_falls { K.faults out.old ≤ K.faults out.new }
    ensures setup { K.setup out.new ≡ K.setup out.old }
{
    let _session = answer_all(alloc, board, commands, quiet, out)?;
    Ok(())
}

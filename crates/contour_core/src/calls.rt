ghost use Rattle.std.specs.Prelude.{◌≡◌, ◌≤◌, ◌↔◌, ◌⊎◌, [], map, string_bytes, All, OnOk, IfErr};
ghost use Rattle.io_edge.specs.Streams.{Appends, Rose, IsToldAs};
ghost use Rattle.board_gen.specs.Generated.{generated};
ghost use Rattle.board_parts.specs.Commands.{IsCommandOf};
ghost use Rattle.call_words.specs.Asked.{Asked, IsGood};
ghost use Rattle.call_words.specs.Numbers.{IsSize};
ghost use Rattle.call_words.specs.Requests.{IsNoRequest, asked_by};
ghost use Rattle.contour_core.specs.Answers.{AnswersAll};
ghost use Rattle.contour_core.specs.Causes.{EndsAttempt, EndsCall, HasBeenCut, HasDone, HasFoundWrong, HasRead, HasRunOut, IsBeforeReplies, IsUnwritten, MustAccept, MustRefuse, Refuses, TellsStatus};
ghost use Rattle.contour_core.specs.Endings.{EndsAnswers, EndsSending};
ghost use Rattle.contour_core.specs.Requests.{IsRequestThat, ReadsInput};

use crate::answers::answer_each;
use crate::checks::check;
use crate::demos::demo;
use crate::endings::{Ending, Status};
use crate::inputs::read_text;
use crate::lines::tell;
use crate::reports::write_report;
use crate::sequels::write_sequel;
use crate::upgrades::upgrade_text;
use board_gen::generate;
use call_words::{Request, request_of};
use io_edge::{Sink, Source, write_all};
use std::alloc::Global;

/// Reads a board text and writes the reply to each of its commands.
fn run<S: Source, K: Sink>(
    alloc: Global,
    quiet: bool,
    source: &mut S,
    out: &mut K,
) -> Result<(), Ending>
    ensures done { OnOk result (HasDone (S.left source.old) (K.written out.old) (K.written out.new) (Asked.Run quiet)) }
    ensures end { OnOk result (IsToldAs (S.left source.new) []) }
    ensures err { IfErr result (EndsCall (Asked.Run quiet) (S.left source.old) (S.faults source.old) (S.faults source.new)
        (K.written out.old) (K.written out.new) (K.faults out.old) (K.faults out.new)) }
    ensures unwritten { IfErr result (λ e. IsBeforeReplies e → out.new ≡ out.old) }
    ensures source_setup { S.setup source.new ≡ S.setup source.old }
    ensures sink_setup { K.setup out.new ≡ K.setup out.old }
{
    let input = read_text(alloc, source)?;
    answer_each(alloc, input.board, input.commands.as_slice(), quiet, out)
}

/// Writes a generated board text.
fn write_generated<K: Sink>(alloc: Global, n: u32, out: &mut K) -> Result<(), Ending>
    requires { IsSize n }
    ensures ok { OnOk result (Appends (K.written out.old) (K.written out.new) (generated n)) }
    ensures err { IfErr result (EndsSending (generated n) (K.written out.old) (K.written out.new) (K.faults out.old) (K.faults out.new)) }
    ensures setup { K.setup out.new ≡ K.setup out.old }
{
    let text = generate(alloc, n)?;
    write_all(out, text.as_slice())?;
    Ok(())
}

/// Does what a request asks for.
fn fulfil<S: Source, K: Sink>(
    alloc: Global,
    request: Request<'_>,
    source: &mut S,
    out: &mut K,
) -> Result<(), Ending>
    requires { IsGood (asked_by request) }
    ensures done { OnOk result (HasDone (S.left source.old) (K.written out.old) (K.written out.new) (asked_by request.entry)) }
    ensures read { OnOk result (HasRead (S.left source.old) (S.left source.new) (asked_by request.entry)) }
    ensures err { IfErr result (EndsCall (asked_by request.entry) (S.left source.old) (S.faults source.old) (S.faults source.new)
        (K.written out.old) (K.written out.new) (K.faults out.old) (K.faults out.new)) }
    ensures unwritten { IfErr result (λ e. IsBeforeReplies e → out.new ≡ out.old) }
    ensures source_setup { S.setup source.new ≡ S.setup source.old }
    ensures sink_setup { K.setup out.new ≡ K.setup out.old }
{
    match request {
        Request::Run { quiet } => run(alloc, quiet, source, out),
        Request::Check => check(alloc, source, out),
        Request::Upgrade => upgrade_text(alloc, source, out),
        Request::Gen(n) => write_generated(alloc, n, out),
        Request::Demo(n) => demo(alloc, n, out),
        Request::Reporting(report) => write_report(alloc, report, source, out),
        Request::Following(sequel) => write_sequel(alloc, sequel, source, out),
    }
}

/// Does what the words ask for.
fn attempt<S: Source, K: Sink>(
    alloc: Global,
    words: &[String],
    source: &mut S,
    out: &mut K,
) -> Result<(), Ending>
    ensures done { OnOk result (IsRequestThat (map string_bytes words.now)
        (HasDone (S.left source.old) (K.written out.old) (K.written out.new))) }
    ensures read { OnOk result (IsRequestThat (map string_bytes words.now) (HasRead (S.left source.old) (S.left source.new))) }
    ensures err { IfErr result (EndsAttempt (map string_bytes words.now) (S.left source.old) (S.faults source.old) (S.faults source.new)
        (K.written out.old) (K.written out.new) (K.faults out.old) (K.faults out.new)) }
    ensures unread { IfErr result (λ e. e ≡ Ending.BadWords → source.new ≡ source.old) }
    ensures unwritten { IfErr result (λ e. IsBeforeReplies e → out.new ≡ out.old) }
    ensures source_setup { S.setup source.new ≡ S.setup source.old }
    ensures sink_setup { K.setup out.new ≡ K.setup out.old }
{
    match request_of(words) {
        Some(request) => fulfil(alloc, request, source, out),
        None => Err(Ending::BadWords),
    }
}

/// The program. It reads what the words ask for from `source`, writes the replies to `out`, and, on
/// each status but `Done`, one line to `err`. `words` are the words of the command line without the
/// program's own name.
///
/// A fault of `err` changes no status. Of an input, what is said here holds where the source tells
/// its bytes, and of an output where the sink tells its own.
pub fn contour<S: Source, K: Sink, E: Sink>(
    alloc: Global,
    words: &[String],
    source: &mut S,
    out: &mut K,
    err: &mut E,
) -> Status
    // What the words ask for was done. Of `run`: all was read, a board text, to the end of the source, and
    // the replies to its commands were written and nothing else. Of `check`: all was read, and the
    // replies after the board text are right. Of `upgrade`: all was read, a board text, and its board and
    // commands were written as a text of the second version and nothing else. Of `gen`: nothing was read, and the text was written. Of
    // `demo`: nothing was read, and the replies to the commands of that text were written, and then
    // their summary. Of a report: all was read, the replies are right, and the report on the state that
    // they leave was written and nothing else. Of `through` and `auto`: all was read, a board text, and
    // the replies to its commands were written, and then what came of routing on from there.
    ensures done { result ≡ Status.Done → IsRequestThat (map string_bytes words.now)
        (HasDone (S.left source.old) (K.written out.old) (K.written out.new)) }
    ensures read { result ≡ Status.Done → IsRequestThat (map string_bytes words.now)
        (HasRead (S.left source.old) (S.left source.new)) }

    // The words are no request, and nothing was read or written.
    ensures bad_words { (result ≡ Status.BadWords) ↔ IsNoRequest (map string_bytes words.now) }
    ensures unread { result ≡ Status.BadWords → source.new ≡ source.old }

    // The input is too long or no board text. Each fault is one of the stream that is named.
    ensures bad_input { result ≡ Status.BadInput → IsRequestThat (map string_bytes words.now) (Refuses (S.left source.old)) }
    ensures read_fault { result ≡ Status.ReadFault → IsRequestThat (map string_bytes words.now) ReadsInput × Rose (S.faults source.old) (S.faults source.new) }
    ensures write_fault { result ≡ Status.WriteFault → Rose (K.faults out.old) (K.faults out.new) }
    ensures wrong { result ≡ Status.Wrong → IsRequestThat (map string_bytes words.now) (HasFoundWrong (S.left source.old)) }

    // What was written when the call ended early: nothing, or whole replies to the first commands,
    // and at a fault of the output then a part of the next, or of a summary.
    ensures unwritten { IsUnwritten result → out.new ≡ out.old }
    ensures cut_short { result ≡ Status.WriteFault → IsRequestThat (map string_bytes words.now)
        (HasBeenCut (S.left source.old) (K.written out.old) (K.written out.new)) }
    ensures no_memory { result ≡ Status.NoMemory → IsRequestThat (map string_bytes words.now)
        (HasRunOut (S.left source.old) (K.written out.old) (K.written out.new)) }

    // An input that is not accepted is refused, and one that is accepted is answered, where no
    // stream has a fault and there is memory.
    ensures refuses { IsRequestThat (map string_bytes words.now) (MustRefuse (S.left source.old))
        → (Rose (S.faults source.old) (S.faults source.new) → ⊥)
        → (result ≡ Status.BadInput) ⊎ (result ≡ Status.NoMemory) }
    ensures complete { IsRequestThat (map string_bytes words.now) (MustAccept (S.left source.old))
        → (Rose (S.faults source.old) (S.faults source.new) → ⊥)
        → (Rose (K.faults out.old) (K.faults out.new) → ⊥)
        → (result ≡ Status.Done) ⊎ ((result ≡ Status.Wrong) ⊎ (result ≡ Status.NoMemory)) }

    // What no call changes of the two streams.
    ensures source_setup { S.setup source.new ≡ S.setup source.old }
    ensures sink_setup { K.setup out.new ≡ K.setup out.old }

    // The line on `err`.
    ensures quiet { result ≡ Status.Done → err.new ≡ err.old }
    ensures line { (result ≡ Status.Done → ⊥) → TellsStatus result (map string_bytes words.now) (S.left source.old)
        (E.written err.old) (E.written err.new) (E.faults err.old) (E.faults err.new) }
{
    match attempt(alloc, words, source, out) {
        Ok(()) => Status::Done,
        Err(ending) => {
            tell(alloc, ending, err);
            ending.status()
        }
    }
}

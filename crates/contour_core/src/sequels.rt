//! What is done in the session that the commands of a board text leave.
ghost use Rattle.std.specs.Prelude.{◌≡◌, ◌≤◌, [], All, OnOk, IfOk, IfErr};
ghost use Rattle.io_edge.specs.Streams.{IsToldAs};
ghost use Rattle.board_parts.specs.Commands.{IsCommandOf};
ghost use Rattle.board_reader.specs.Contract.{told_by};
ghost use Rattle.call_words.specs.Asked.{Asked, IsGoodSequel};
ghost use Rattle.call_words.specs.Numbers.{IsRounds};
ghost use Rattle.call_words.specs.Requests.{sequel_by};
ghost use Rattle.call_words.specs.Trials.{AreNets, IsPlanOf};
ghost use Rattle.contour_core.specs.Causes.{EndsCall, HasDone, IsBeforeReplies};
ghost use Rattle.contour_core.specs.Sequels.{CarriesOut, EndsCarrying, EndsFollowing, EndsOutcome, Follows, TellsOutcome, TellsPlan, TellsRounds, TellsThrough};

use crate::answers::answer_all;
use crate::endings::Ending;
use crate::inputs::read_text;
use auto_route::{auto, auto_text};
use board_reader::Input;
use call_words::{Plan, Sequel, plan_of};
use geo_rect::{List, NetId, NoMemory};
use io_edge::{Sink, Source, write_all};
use plane_core::Plane;
use session_core::Session;
use std::alloc::Global;
use yield_route::{through, through_text};

/// Routes a net through others, and tells what came of it.
fn through_told<P: Plane>(
    alloc: Global,
    session: Session<P>,
    net: NetId,
    others: &[NetId],
) -> Result<List<u8>, NoMemory>
    requires { AreNets session.parts net others.now }
    ensures { IfOk result (TellsThrough session.parts session.lists net others.now) }
{
    let (session, told) = through(alloc, session, net, others)?;
    through_text(alloc, session.board(), net, &told)
}

/// Plays so many rounds of routing, and tells what came of them.
fn rounds_told<P: Plane>(
    alloc: Global,
    session: Session<P>,
    rounds: u32,
) -> Result<List<u8>, NoMemory>
    requires { IsRounds rounds }
    ensures { IfOk result (TellsRounds session.parts rounds) }
{
    let (session, told) = auto(alloc, session, rounds)?;
    auto_text(alloc, session.board(), session.made(), &told)
}

/// Carries out a plan, and tells what came of it.
fn plan_told<P: Plane>(
    alloc: Global,
    plan: &Plan,
    session: Session<P>,
) -> Result<List<u8>, NoMemory>
    requires { IsPlanOf session.parts plan.now }
    ensures { IfOk result (TellsPlan session.parts session.lists plan.now) }
{
    match plan {
        Plan::Through { net, others } => through_told(alloc, session, *net, others.as_slice()),
        Plan::Auto(rounds) => rounds_told(alloc, session, *rounds),
    }
}

/// Carries out a plan, and writes what came of it.
fn tell_plan<P: Plane, K: Sink>(
    alloc: Global,
    plan: &Plan,
    session: Session<P>,
    out: &mut K,
) -> Result<(), Ending>
    requires { IsPlanOf session.parts plan.now }
    ensures ok { OnOk result (TellsOutcome session.parts session.lists plan.now (K.written out.old) (K.written out.new)) }
    ensures err { IfErr result (EndsOutcome session.parts session.lists plan.now
        (K.written out.old) (K.written out.new) (K.faults out.old) (K.faults out.new)) }
    ensures never_falls { K.faults out.old ≤ K.faults out.new }
    ensures setup { K.setup out.new ≡ K.setup out.old }
{
    let text = plan_told(alloc, plan, session)?;
    write_all(out, text.as_slice())?;
    Ok(())
}

/// Writes the replies to the commands, without certificates, and what came of the plan after them.
fn carry_out<K: Sink>(alloc: Global, plan: &Plan, input: Input, out: &mut K) -> Result<(), Ending>
    requires plan { IsPlanOf input.board.parts plan.now }
    requires commands { All (IsCommandOf input.board.parts) input.commands }
    ensures ok { OnOk result (CarriesOut (told_by input) plan.now (K.written out.old) (K.written out.new)) }
    ensures err { IfErr result (EndsCarrying (told_by input) plan.now
        (K.written out.old) (K.written out.new) (K.faults out.old) (K.faults out.new)) }
    ensures setup { K.setup out.new ≡ K.setup out.old }
{
    let session = answer_all(alloc, input.board, input.commands.as_slice(), true, out)?;
    tell_plan(alloc, plan, session, out)
}

/// Does what is asked for after the commands of an input, if its names are those of the board.
fn follow<K: Sink>(
    alloc: Global,
    sequel: Sequel<'_>,
    input: Input,
    out: &mut K,
) -> Result<(), Ending>
    requires good { IsGoodSequel (sequel_by sequel) }
    requires commands { All (IsCommandOf input.board.parts) input.commands }
    ensures ok { OnOk result (Follows (told_by input) (sequel_by sequel.entry) (K.written out.old) (K.written out.new)) }
    ensures err { IfErr result (EndsFollowing (told_by input) (sequel_by sequel.entry)
        (K.written out.old) (K.written out.new) (K.faults out.old) (K.faults out.new)) }
    ensures unwritten { IfErr result (λ e. IsBeforeReplies e → out.new ≡ out.old) }
    ensures setup { K.setup out.new ≡ K.setup out.old }
{
    let plan = plan_of(alloc, &input.board, sequel)?;
    carry_out(alloc, &plan, input, out)
}

/// Reads a board text, writes the replies to its commands, and goes on in the session.
pub fn write_sequel<S: Source, K: Sink>(
    alloc: Global,
    sequel: Sequel<'_>,
    source: &mut S,
    out: &mut K,
) -> Result<(), Ending>
    requires { IsGoodSequel (sequel_by sequel) }
    ensures done { OnOk result (HasDone (S.left source.old) (K.written out.old) (K.written out.new) (Asked.Following (sequel_by sequel.entry))) }
    ensures end { OnOk result (IsToldAs (S.left source.new) []) }
    ensures err { IfErr result (EndsCall (Asked.Following (sequel_by sequel.entry)) (S.left source.old) (S.faults source.old) (S.faults source.new)
        (K.written out.old) (K.written out.new) (K.faults out.old) (K.faults out.new)) }
    ensures unwritten { IfErr result (λ e. IsBeforeReplies e → out.new ≡ out.old) }
    ensures source_setup { S.setup source.new ≡ S.setup source.old }
    ensures sink_setup { K.setup out.new ≡ K.setup out.old }
{
    let input = read_text(alloc, source)?;
    follow(alloc, sequel, input, out)
}

//! The end of a replay.

ghost use Rattle.std.specs.Prelude.{◌+◌, ◌<◌, length, All, IfOk, IfSome, IfNone};
ghost use Rattle.board_parts.specs.Commands.{IsCommandOf};
ghost use Rattle.route_law.specs.Steps.{IsFirstWrong};
ghost use Rattle.replay_check.specs.Ends.{IsEndOf};
ghost use Rattle.replay_check.specs.Runs.{HasRun};
ghost use Rattle.replay_check.specs.States.{IsUnderWay};

use crate::states::UnderWay;
use crate::steps::step;
use board_model::{Board, Command};
use board_reader::Input;
use geo_rect::NoMemory;
use plane_core::Plane;
use route_law::Reply;
use std::alloc::Global;

/// What a replay comes to.
#[derive(Clone, Copy, Debug, PartialEq, Eq)]
pub enum ReplayEnd {
    /// The replies are those of a run over the commands.
    Yes,
    /// This reply, from 1, is the first that is wrong, is missing, or is one too many.
    No(u64),
}

/// Whether the replies are those of a run over the input's commands. It makes no search.
pub fn replay<P: Plane>(
    alloc: Global,
    input: &Input,
    replies: &[Reply],
) -> Result<ReplayEnd, NoMemory>
    requires commands { All (IsCommandOf input.now.board.parts) input.now.commands }
    ensures exact { IfOk result (IsEndOf input.now.board.parts input.now.commands replies.now) }
{
    replay_commands::<P>(alloc, &input.board, input.commands.as_slice(), replies)
}

/// Whether the replies are those of a run over the commands, whose ids are in the board. It makes
/// no search.
pub fn replay_commands<P: Plane>(
    alloc: Global,
    board: &Board,
    commands: &[Command],
    replies: &[Reply],
) -> Result<ReplayEnd, NoMemory>
    requires commands { All (IsCommandOf board.now.parts) commands.now }
    ensures exact { IfOk result (IsEndOf board.now.parts commands.now replies.now) }
{
    let mut state: UnderWay<P> = UnderWay::start(alloc, board)?;
    for i in 0..replies.len() {
        match turn(alloc, board, state, commands, replies, i)? {
            Some(next) => state = next,
            None => return Ok(ReplayEnd::No(i as u64 + 1)),
        }
    }
    if replies.len() < commands.len() {
        return Ok(ReplayEnd::No(replies.len() as u64 + 1));
    }
    Ok(ReplayEnd::Yes)
}

/// The state after the reply of number `i`, from 0, if there is a command that it answers, and it
/// is the right answer.
fn turn<P: Plane>(
    alloc: Global,
    board: &Board,
    state: UnderWay<P>,
    commands: &[Command],
    replies: &[Reply],
    i: usize,
) -> Result<Option<UnderWay<P>>, NoMemory>
    requires commands { All (IsCommandOf board.now.parts) commands.now }
    requires state { IsUnderWay board.now.parts state.made.lists state.planes }
    requires run { HasRun board.now.parts commands.now replies.now i state.made.lists }
    requires some_reply { i < length replies.now }
    ensures state { IfOk result (λ o. IfSome o (λ s. IsUnderWay board.now.parts s.made.lists s.planes)) }
    ensures run { IfOk result (λ o. IfSome o (λ s. HasRun board.now.parts commands.now replies.now (i + 1) s.made.lists)) }
    ensures wrong { IfOk result (λ o. IfNone o (IsFirstWrong board.now.parts commands.now replies.now (i + 1))) }
{
    if i >= commands.len() {
        return Ok(None);
    }
    step(alloc, board, state, &commands[i], &replies[i])
}

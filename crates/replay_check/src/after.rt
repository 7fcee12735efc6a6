//! The state that the replies of a run leave. Each reply is taken at its word.

ghost use Rattle.std.specs.Prelude.{◌≡◌, ◌<◌, List, length, All, IfOk, OnOk};
ghost use Rattle.board_model.specs.declared.made.Conn.{Conn as OneConn};
ghost use Rattle.route_law.specs.Kept.{IsState};
ghost use Rattle.replay_check.specs.After.{AreOfARun, IsStateAfter};
ghost use Rattle.replay_check.specs.Leaving.{IsBlockAmong, IsReplyAmong, left_by, left_by_all, with_blocks, with_made};

use crate::states::copy_conn;
use board_model::{Board, Made};
use geo_rect::{NetId, NoMemory};
use route_law::{Made1, Reply, Routed};
use std::alloc::Global;

/// The state that these replies leave, which are those of a run over some commands of the board. It
/// is the only one, and keeps the rules of the board.
pub fn state_after(alloc: Global, board: &Board, replies: &[Reply]) -> Result<Made, NoMemory>
    requires run { AreOfARun board.now.parts replies.now }
    ensures state { IfOk result (λ made. IsStateAfter board.now.parts replies.now made.lists) }
    ensures one { IfOk result (λ made. (lists : List (List OneConn))
        → IsStateAfter board.now.parts replies.now lists → lists ≡ made.lists) }
    ensures kept { IfOk result (λ made. IsState board.now.parts made.lists) }
{
    let mut made = Made::none(alloc, board)?;
    take_replies(alloc, &mut made, replies)?;
    Ok(made)
}

/// Does to what is made as the replies say, one after another.
fn take_replies(alloc: Global, made: &mut Made, replies: &[Reply]) -> Result<(), NoMemory>
    requires nets { All (IsReplyAmong (length made.old.lists)) replies.now }
    ensures lists { OnOk result (made.new.lists ≡ left_by_all made.old.lists replies.now) }
{
    for reply in replies {
        take_reply(alloc, made, reply)?;
    }
    Ok(())
}

/// Does to what is made as the reply says.
fn take_reply(alloc: Global, made: &mut Made, reply: &Reply) -> Result<(), NoMemory>
    requires nets { IsReplyAmong (length made.old.lists) reply.now }
    ensures lists { OnOk result (made.new.lists ≡ left_by made.old.lists reply.now) }
    ensures nets { length made.new.lists ≡ length made.old.lists }
{
    match reply {
        Reply::Route(block) => take_made(alloc, made, block.net, block.made.as_slice()),
        Reply::All(blocks) => take_blocks(alloc, made, blocks.as_slice()),
        Reply::Rip(net, _) => {
            made.clear(*net);
            Ok(())
        }
        Reply::Show(..) | Reply::Rules(_) | Reply::Strips(..) => Ok(()),
    }
}

/// Appends the connections that the blocks tell of.
fn take_blocks(alloc: Global, made: &mut Made, blocks: &[Routed]) -> Result<(), NoMemory>
    requires nets { All (IsBlockAmong (length made.old.lists)) blocks.now }
    ensures lists { OnOk result (made.new.lists ≡ with_blocks made.old.lists blocks.now) }
    ensures nets { length made.new.lists ≡ length made.old.lists }
{
    for block in blocks {
        take_made(alloc, made, block.net, block.made.as_slice())?;
    }
    Ok(())
}

/// Appends these connections to those of the net.
fn take_made(alloc: Global, made: &mut Made, net: NetId, all: &[Made1]) -> Result<(), NoMemory>
    requires net { net.0 < length made.old.lists }
    ensures lists { OnOk result (made.new.lists ≡ with_made made.old.lists net all.now) }
    ensures nets { length made.new.lists ≡ length made.old.lists }
{
    for one in all {
        made.append(net, copy_conn(alloc, &one.conn)?)?;
    }
    Ok(())
}

ghost use Rattle.std.specs.Prelude.{◌≡◌, IfSome, IfNone};
ghost use Rattle.geo_rect.specs.declared.ids.KindId.{KindId};
ghost use Rattle.geo_rect.specs.declared.ids.Node.{Node};
ghost use Rattle.board_model.specs.declared.made.Leg.{Leg};
ghost use Rattle.reply_reader.specs.declared.heads.ConnHead.{ConnHead};
ghost use Rattle.reply_reader.specs.Said.{conn_head, conn_head_words, IsConnHeadAt, start, start_words, IsStartAt, leg_line, leg_words, IsWireAt, IsViaAt, IsLegAt};

use crate::fields::{cost, count, is_form, kind, node};
use crate::heads::ConnHead;
use crate::parts::Line;
use crate::words::Words;
use board_model::{Board, Leg};
use geo_rect::Node;

fn conn_head(words: &Words) -> Option<ConnHead>
    ensures some { IfSome result (λ h. IsConnHeadAt words.now h) }
    ensures none { IfNone result ((h : ConnHead) → IsConnHeadAt words.now h → ⊥) }
{
    if !is_form(words, b"conn", 4) {
        return None;
    }
    let number = count(words, 1)?;
    let cost = cost(words, 2)?;
    let legs = count(words, 3)?;
    Some(ConnHead { number, cost, legs })
}

impl Line for ConnHead {
    ghost part = { λ b. conn_head };

    ghost spelling = { λ b. conn_head_words };

    fn of_words(_board: &Board, words: &Words) -> Option<ConnHead> {
        conn_head(words)
    }
}

/// The node in which a connection starts.
fn start(board: &Board, words: &Words) -> Option<Node>
    ensures some { IfSome result (λ v. IsStartAt board.now.parts words.now v) }
    ensures none { IfNone result ((v : Node) → IsStartAt board.now.parts words.now v → ⊥) }
{
    if !is_form(words, b"at", 4) {
        return None;
    }
    node(board, words, 1)
}

impl Line for Node {
    ghost part = { start };

    ghost spelling = { start_words };

    fn of_words(board: &Board, words: &Words) -> Option<Node> {
        start(board, words)
    }
}

/// The node in which a wire ends.
fn wire(board: &Board, words: &Words) -> Option<Node>
    ensures some { IfSome result (λ v. IsWireAt board.now.parts words.now v) }
    ensures none { IfNone result ((v : Node) → IsWireAt board.now.parts words.now v → ⊥) }
{
    if !is_form(words, b"to", 4) {
        return None;
    }
    node(board, words, 1)
}

fn via(board: &Board, words: &Words) -> Option<Leg>
    ensures some { IfSome result (λ l. IsLegAt board.now.parts words.now l) }
    ensures none { IfNone result ((k : KindId) (v : Node) → IsViaAt board.now.parts words.now k v → ⊥) }
{
    if !is_form(words, b"via", 5) {
        return None;
    }
    let kind = kind(board, words, 1)?;
    let to = node(board, words, 2)?;
    Some(Leg::Via(kind, to))
}

fn leg(board: &Board, words: &Words) -> Option<Leg>
    ensures some { IfSome result (λ l. IsLegAt board.now.parts words.now l) }
    ensures none { IfNone result ((l : Leg) → IsLegAt board.now.parts words.now l → ⊥) }
{
    if let Some(to) = wire(board, words) {
        return Some(Leg::Wire(to));
    }
    via(board, words)
}

impl Line for Leg {
    ghost part = { leg_line };

    ghost spelling = { leg_words };

    fn of_words(board: &Board, words: &Words) -> Option<Leg> {
        leg(board, words)
    }
}

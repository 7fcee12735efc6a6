//! The orders in which the nets are routed.

ghost use Rattle.std.specs.Prelude.{◌≡◌, ◌<◌, ◌++◌, length, All, IfOk, OnOk};
ghost use Rattle.route_law.specs.Regular.{IsNetOf};
ghost use Rattle.auto_route.specs.Rounds.{complete_of, incomplete_of, is_complete, next_order, text_order};

use board_model::{Board, Made};
use geo_rect::{List, NetId, NoMemory};
use std::alloc::Global;

/// The nets of a board, in the order of the text.
pub fn text_order(alloc: Global, board: &Board) -> Result<List<NetId>, NoMemory>
    ensures { IfOk result (λ order. order ≡ text_order board.now.parts) }
{
    let mut order = List::new(alloc);
    for number in 0..board.nets() {
        order.push(NetId(number))?;
    }
    Ok(order)
}

/// Whether the net lacks no connection.
pub fn is_complete(board: &Board, made: &Made, net: NetId) -> bool
    requires net { net.0 < length made.now.lists }
    ensures { result ≡ is_complete board.now.parts made.now.lists net }
{
    let needed = board.pin_count(net).saturating_sub(1) as usize;
    needed <= made.conns(net).len()
}

/// The order of the next round: first the nets of this order that lack a connection now, then the
/// others.
pub fn next_order(
    alloc: Global,
    board: &Board,
    made: &Made,
    order: &[NetId],
) -> Result<List<NetId>, NoMemory>
    requires nets { length made.now.lists ≡ length board.now.parts.net_names }
    requires known { All (IsNetOf board.now.parts) order.now }
    ensures { IfOk result (λ next. next ≡ next_order board.now.parts made.now.lists order.now) }
{
    let mut next = List::new(alloc);
    push_incomplete(&mut next, board, made, order)?;
    push_complete(&mut next, board, made, order)?;
    Ok(next)
}

/// Adds the nets that lack a connection, in their order.
fn push_incomplete(
    next: &mut List<NetId>,
    board: &Board,
    made: &Made,
    order: &[NetId],
) -> Result<(), NoMemory>
    requires nets { length made.now.lists ≡ length board.now.parts.net_names }
    requires known { All (IsNetOf board.now.parts) order.now }
    ensures { OnOk result (next.new ≡ next.old ++ incomplete_of board.now.parts made.now.lists order.now) }
{
    for net in order {
        if !is_complete(board, made, *net) {
            next.push(*net)?;
        }
    }
    Ok(())
}

/// Adds the nets that lack none, in their order.
fn push_complete(
    next: &mut List<NetId>,
    board: &Board,
    made: &Made,
    order: &[NetId],
) -> Result<(), NoMemory>
    requires nets { length made.now.lists ≡ length board.now.parts.net_names }
    requires known { All (IsNetOf board.now.parts) order.now }
    ensures { OnOk result (next.new ≡ next.old ++ complete_of board.now.parts made.now.lists order.now) }
{
    for net in order {
        if is_complete(board, made, *net) {
            next.push(*net)?;
        }
    }
    Ok(())
}

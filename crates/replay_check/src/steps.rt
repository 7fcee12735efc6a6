//! Whether a reply is the one that its command has in a state, and the state to which it leads.

ghost use Rattle.std.specs.Prelude.{◌≡◌, ◌<◌, ◌↔◌, List, length, IfOk, IfSome, IfNone, IsTrue};
ghost use Rattle.board_model.specs.declared.made.Conn.{Conn as OneConn};
ghost use Rattle.board_parts.specs.Commands.{IsCommandOf};
ghost use Rattle.board_model.specs.Made.{conns_of, without_conns};
ghost use Rattle.board_model.specs.Shapes.{state_shapes};
ghost use Rattle.board_model.specs.Violations.{violations_of};
ghost use Rattle.board_model.specs.WellFormed.{AreWellFormed};
ghost use Rattle.route_law.specs.Routing.{conns_needed, AreRoutedFrom};
ghost use Rattle.route_law.specs.Steps.{command_of, items_from, AreWireStrips, IsAnswer, IsStep};
ghost use Rattle.replay_check.specs.States.{IsUnderWay};

use crate::listed::{are_items_of, are_same};
use crate::routes::{all_routed, needed, routed};
use crate::states::UnderWay;
use board_model::{Board, Command, Made, Violation};
use geo_rect::{ClassId, LayerId, NetId, NoMemory};
use plane_core::{Plane, Strip};
use route_law::{Item, Reply, Routed};
use rule_check::violations;
use std::alloc::Global;

/// The command that a reply answers.
fn command_of(reply: &Reply) -> Command
    ensures { result ≡ command_of reply.now }
{
    match reply {
        Reply::Route(routed) => Command::Route(routed.net),
        Reply::All(_) => Command::All,
        Reply::Rip(net, _) => Command::Rip(*net),
        Reply::Show(net, _, _) => Command::Show(*net),
        Reply::Rules(_) => Command::Rules,
        Reply::Strips(layer, class, _) => Command::Strips(*layer, *class),
    }
}

/// Whether both are the same command.
fn is_same_command(a: Command, b: Command) -> bool
    ensures { IsTrue result ↔ (a ≡ b) }
{
    match (a, b) {
        (Command::Route(m), Command::Route(n)) => m == n,
        (Command::All, Command::All) => true,
        (Command::Rip(m), Command::Rip(n)) => m == n,
        (Command::Show(m), Command::Show(n)) => m == n,
        (Command::Rules, Command::Rules) => true,
        (Command::Strips(l, c), Command::Strips(m, d)) => {
            if l != m {
                return false;
            }
            c == d
        }
        _ => false,
    }
}

/// Whether these are the connections of the net and their count when none is missing.
fn is_shown(board: &Board, made: &Made, net: NetId, total: u64, items: &[Item]) -> bool
    requires { net.0 < length made.now.lists }
    ensures { IsTrue result
        ↔ ((total ≡ conns_needed board.now.parts net) × (items.now ≡ items_from 1 (conns_of made.now.lists net))) }
{
    if total != needed(board, net) {
        return false;
    }
    are_items_of(items, made.conns(net))
}

/// Whether these are the violations of the state.
fn are_violations(
    alloc: Global,
    board: &Board,
    made: &Made,
    found: &[Violation],
) -> Result<bool, NoMemory>
    requires nets { length made.now.lists ≡ length board.now.parts.net_names }
    requires well_formed { AreWellFormed board.now.parts made.now.lists }
    ensures { IfOk result (λ yes. IsTrue yes
        ↔ (found.now ≡ violations_of board.now.parts (state_shapes board.now.parts made.now.lists))) }
{
    let all = violations(alloc, board, made)?;
    Ok(are_same(found, all.as_slice()))
}

/// Whether these are the strips of the wire plane of the layer and the class.
fn are_wire_strips<P: Plane>(
    alloc: Global,
    board: &Board,
    state: &UnderWay<P>,
    layer: LayerId,
    class: ClassId,
    strips: &[Strip],
) -> Result<bool, NoMemory>
    requires state { IsUnderWay board.now.parts state.now.made.lists state.now.planes }
    requires layer { layer.0 < length board.now.parts.layers }
    requires class { class.0 < length board.now.parts.classes }
    ensures { IfOk result (λ yes. IsTrue yes ↔ AreWireStrips board.now.parts state.now.made.lists layer class strips.now) }
{
    let plane = state.planes.wire(layer, class);
    let all = plane.strips_in(alloc, plane.domain())?;
    Ok(are_same(strips, all.as_slice()))
}

/// The state as it is, if what is told of it holds.
fn kept<P: Plane>(state: UnderWay<P>, holds: bool) -> Option<UnderWay<P>>
    ensures kept { IfSome result (λ s. s ≡ state) }
    ensures some { IfSome result (λ s. IsTrue holds) }
    ensures none { IfNone result (¬ IsTrue holds) }
{
    if holds { Some(state) } else { None }
}

/// The state without the net's connections, if there are as many as is told.
fn ripped<P: Plane>(
    alloc: Global,
    board: &Board,
    state: UnderWay<P>,
    net: NetId,
    count: u64,
) -> Result<Option<UnderWay<P>>, NoMemory>
    requires state { IsUnderWay board.now.parts state.made.lists state.planes }
    requires net { net.0 < length board.now.parts.net_names }
    ensures state { IfOk result (λ o. IfSome o (λ s. IsUnderWay board.now.parts s.made.lists s.planes)) }
    ensures count { IfOk result (λ o. IfSome o (λ s. count ≡ length (conns_of state.made.lists net))) }
    ensures made { IfOk result (λ o. IfSome o (λ s. s.made.lists ≡ without_conns state.made.lists net)) }
    ensures none { IfOk result (λ o. IfNone o (¬ (count ≡ length (conns_of state.made.lists net)))) }
{
    if count != state.made.conns(net).len() as u64 {
        return Ok(None);
    }
    Ok(Some(state.without(alloc, board, net)?))
}

/// The state to which the routing of every net leads, if there is a block for each and what is
/// told is so.
fn each_routed<P: Plane>(
    alloc: Global,
    board: &Board,
    state: UnderWay<P>,
    blocks: &[Routed],
) -> Result<Option<UnderWay<P>>, NoMemory>
    requires state { IsUnderWay board.now.parts state.made.lists state.planes }
    ensures state { IfOk result (λ o. IfSome o (λ s. IsUnderWay board.now.parts s.made.lists s.planes)) }
    ensures nets { IfOk result (λ o. IfSome o (λ s. length blocks.now ≡ length board.now.parts.net_names)) }
    ensures routed { IfOk result (λ o. IfSome o (λ s. AreRoutedFrom board.now.parts 0 state.made.lists blocks.now s.made.lists)) }
    ensures none { IfOk result (λ o. IfNone o (length blocks.now ≡ length board.now.parts.net_names
        → (new : List (List OneConn)) → ¬ AreRoutedFrom board.now.parts 0 state.made.lists blocks.now new)) }
{
    if blocks.len() != board.nets() as usize {
        return Ok(None);
    }
    all_routed(alloc, board, state, blocks)
}

/// The state to which the reply leads, if what it tells is so. What its command names is in the
/// board.
fn answered<P: Plane>(
    alloc: Global,
    board: &Board,
    state: UnderWay<P>,
    reply: &Reply,
) -> Result<Option<UnderWay<P>>, NoMemory>
    requires state { IsUnderWay board.now.parts state.made.lists state.planes }
    requires known { IsCommandOf board.now.parts (command_of reply.now) }
    ensures state { IfOk result (λ o. IfSome o (λ s. IsUnderWay board.now.parts s.made.lists s.planes)) }
    ensures answer { IfOk result (λ o. IfSome o (λ s. IsAnswer board.now.parts state.made.lists reply.now s.made.lists)) }
    ensures none { IfOk result (λ o. IfNone o ((new : List (List OneConn)) → ¬ IsAnswer board.now.parts state.made.lists reply.now new)) }
{
    match reply {
        Reply::Route(block) => routed(alloc, board, state, block),
        Reply::All(blocks) => each_routed(alloc, board, state, blocks.as_slice()),
        Reply::Rip(net, count) => ripped(alloc, board, state, *net, *count),
        Reply::Show(net, total, items) => {
            let holds = is_shown(board, &state.made, *net, *total, items.as_slice());
            Ok(kept(state, holds))
        }
        Reply::Rules(found) => {
            let holds = are_violations(alloc, board, &state.made, found.as_slice())?;
            Ok(kept(state, holds))
        }
        Reply::Strips(layer, class, strips) => {
            let holds = are_wire_strips(alloc, board, &state, *layer, *class, strips.as_slice())?;
            Ok(kept(state, holds))
        }
    }
}

/// The state to which the command leads with this reply, if it is the right one. What the command
/// names is in the board.
pub fn step<P: Plane>(
    alloc: Global,
    board: &Board,
    state: UnderWay<P>,
    command: &Command,
    reply: &Reply,
) -> Result<Option<UnderWay<P>>, NoMemory>
    requires state { IsUnderWay board.now.parts state.made.lists state.planes }
    requires known { IsCommandOf board.now.parts command.now }
    ensures state { IfOk result (λ o. IfSome o (λ s. IsUnderWay board.now.parts s.made.lists s.planes)) }
    ensures step { IfOk result (λ o. IfSome o (λ s. IsStep board.now.parts state.made.lists command.now reply.now s.made.lists)) }
    ensures none { IfOk result (λ o. IfNone o ((new : List (List OneConn)) → ¬ IsStep board.now.parts state.made.lists command.now reply.now new)) }
{
    if !is_same_command(*command, command_of(reply)) {
        return Ok(None);
    }
    answered(alloc, board, state, reply)
}

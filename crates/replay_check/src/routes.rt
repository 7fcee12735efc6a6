//! Whether what is told of a net's routing is so, and the state to which it leads.

ghost use Rattle.std.specs.Prelude.{◌≡◌, ◌+◌, ◌-◌, ◌<◌, ◌≤◌, ◌↔◌, ℕ, List, length, All, IfOk, IfSome, IfNone, IsTrue};
ghost use Rattle.std.specs.Option.{option_copied};
ghost use Rattle.board_model.specs.declared.made.Conn.{Conn as OneConn};
ghost use Rattle.board_model.specs.Made.{conns_of, with_conn};
ghost use Rattle.board_model.specs.Boxes.{source_boxes};
ghost use Rattle.cert_check.specs.Verdicts.{IsGood};
ghost use Rattle.route_law.specs.Routing.{conns_needed, next_targets, IsNextConnection, HasNoRoute, AreMadeInTurn, IsDoneOrStuck, IsRouted, AreRoutedFrom, net_at};
ghost use Rattle.strip_moves.specs.Grounds.{ground_of};
ghost use Rattle.walk_check.specs.Corners.{HasPlaces};
ghost use Rattle.replay_check.specs.States.{IsUnderWay, AreCounted};

use crate::places::has_places;
use crate::states::UnderWay;
use crate::verdicts::is_right;
use board_model::{Board, Made};
use geo_rect::{NetId, NoMemory};
use plane_core::Plane;
use route_law::{Fail, Made1, Routed};
use std::alloc::Global;

/// How many connections the net has in all when none is missing.
pub fn needed(board: &Board, net: NetId) -> u64
    ensures { result ≡ conns_needed board.now.parts net }
{
    u64::from(board.pin_count(net).saturating_sub(1))
}

/// How many connections the net lacks.
fn lacking(board: &Board, made: &Made, net: NetId) -> u64
    requires { net.0 < length made.now.lists }
    ensures { result ≡ conns_needed board.now.parts net - length (conns_of made.now.lists net) }
{
    needed(board, net).saturating_sub(made.conns(net).len() as u64)
}

/// Whether this is the next connection of the net, which lacks one.
fn is_next<P: Plane>(
    alloc: Global,
    board: &Board,
    state: &UnderWay<P>,
    net: NetId,
    m: &Made1,
) -> Result<bool, NoMemory>
    requires state { IsUnderWay board.now.parts state.now.made.lists state.now.planes }
    requires net { net.0 < length board.now.parts.net_names }
    requires lacking { length (conns_of state.now.made.lists net) < conns_needed board.now.parts net }
    ensures { IfOk result (λ yes. IsTrue yes ↔ IsNextConnection board.now.parts state.now.made.lists net m.now) }
{
    if m.number != state.made.conns(net).len() as u64 + 1 {
        return Ok(false);
    }
    if !has_places(&m.conn) {
        return Ok(false);
    }
    is_right(alloc, board, state, net, Some(&m.conn), &m.cert)
}

/// Whether the next connection of the net, which lacks one, has no route, as is told.
fn has_no_route<P: Plane>(
    alloc: Global,
    board: &Board,
    state: &UnderWay<P>,
    net: NetId,
    f: &Fail,
) -> Result<bool, NoMemory>
    requires state { IsUnderWay board.now.parts state.now.made.lists state.now.planes }
    requires net { net.0 < length board.now.parts.net_names }
    requires lacking { length (conns_of state.now.made.lists net) < conns_needed board.now.parts net }
    ensures { IfOk result (λ yes. IsTrue yes ↔ HasNoRoute board.now.parts state.now.made.lists net f.now) }
{
    if f.number != state.made.conns(net).len() as u64 + 1 {
        return Ok(false);
    }
    is_right(alloc, board, state, net, None, &f.cert)
}

/// The state with this connection, if it is the next one of the net, which lacks one.
fn make_one<P: Plane>(
    alloc: Global,
    board: &Board,
    state: UnderWay<P>,
    net: NetId,
    m: &Made1,
) -> Result<Option<UnderWay<P>>, NoMemory>
    requires state { IsUnderWay board.now.parts state.made.lists state.planes }
    requires net { net.0 < length board.now.parts.net_names }
    requires lacking { length (conns_of state.made.lists net) < conns_needed board.now.parts net }
    ensures state { IfOk result (λ o. IfSome o (λ s. IsUnderWay board.now.parts s.made.lists s.planes)) }
    ensures made { IfOk result (λ o. IfSome o (λ s. s.made.lists ≡ with_conn state.made.lists net m.now.conn)) }
    ensures next { IfOk result (λ o. IfSome o (λ s. IsNextConnection board.now.parts state.made.lists net m.now)) }
    ensures none { IfOk result (λ o. IfNone o (¬ IsNextConnection board.now.parts state.made.lists net m.now)) }
{
    if !is_next(alloc, board, &state, net, m)? {
        return Ok(None);
    }
    Ok(Some(state.with(alloc, board, net, &m.conn)?))
}

/// The state with these connections, if each is the next one of the net in its turn. The net
/// lacks as many.
fn make_all<P: Plane>(
    alloc: Global,
    board: &Board,
    first: UnderWay<P>,
    net: NetId,
    made: &[Made1],
) -> Result<Option<UnderWay<P>>, NoMemory>
    requires state { IsUnderWay board.now.parts first.made.lists first.planes }
    requires net { net.0 < length board.now.parts.net_names }
    requires lacking { length made.now ≤ conns_needed board.now.parts net - length (conns_of first.made.lists net) }
    ensures state { IfOk result (λ o. IfSome o (λ s. IsUnderWay board.now.parts s.made.lists s.planes)) }
    ensures made { IfOk result (λ o. IfSome o (λ s. AreMadeInTurn board.now.parts first.made.lists net made.now s.made.lists)) }
    ensures count { IfOk result (λ o. IfSome o (λ s. length (conns_of s.made.lists net) ≡ length (conns_of first.made.lists net) + length made.now)) }
    ensures none { IfOk result (λ o. IfNone o ((new : List (List OneConn)) → ¬ AreMadeInTurn board.now.parts first.made.lists net made.now new)) }
{
    let mut state = first;
    for m in made {
        match make_one(alloc, board, state, net, m)? {
            Some(next) => state = next,
            None => return Ok(None),
        }
    }
    Ok(Some(state))
}

/// Whether as many connections were made as were missing, or fewer where the next one has no route.
fn are_counted(missing: u64, made: usize, none: &Option<Fail>) -> bool
    ensures { IsTrue result ↔ AreCounted missing made none.now }
{
    match none {
        None => made as u64 == missing,
        Some(_) => (made as u64) < missing,
    }
}

/// Whether the rest is so, where the counts are right: nothing is missing, or the next connection
/// of the net, which lacks one, has no route.
fn is_rest<P: Plane>(
    alloc: Global,
    board: &Board,
    state: &UnderWay<P>,
    r: &Routed,
) -> Result<bool, NoMemory>
    requires state { IsUnderWay board.now.parts state.now.made.lists state.now.planes }
    requires net { r.now.net.0 < length board.now.parts.net_names }
    requires counted { AreCounted r.now.missing (length r.now.made) r.now.none }
    requires lacking { length r.now.made < r.now.missing
        → length (conns_of state.now.made.lists r.now.net) < conns_needed board.now.parts r.now.net }
    ensures { IfOk result (λ yes. IsTrue yes
        ↔ IsDoneOrStuck board.now.parts state.now.made.lists r.now.net r.now.missing (length r.now.made) r.now.none) }
{
    match &r.none {
        None => Ok(true),
        Some(f) => has_no_route(alloc, board, state, r.net, f),
    }
}

/// The state to which the routing of the net leads, if what is told of it is so.
pub fn routed<P: Plane>(
    alloc: Global,
    board: &Board,
    state: UnderWay<P>,
    r: &Routed,
) -> Result<Option<UnderWay<P>>, NoMemory>
    requires state { IsUnderWay board.now.parts state.made.lists state.planes }
    requires net { r.now.net.0 < length board.now.parts.net_names }
    ensures state { IfOk result (λ o. IfSome o (λ s. IsUnderWay board.now.parts s.made.lists s.planes)) }
    ensures routed { IfOk result (λ o. IfSome o (λ s. IsRouted board.now.parts state.made.lists r.now s.made.lists)) }
    ensures none { IfOk result (λ o. IfNone o ((new : List (List OneConn)) → ¬ IsRouted board.now.parts state.made.lists r.now new)) }
{
    if r.missing != lacking(board, &state.made, r.net) {
        return Ok(None);
    }
    if !are_counted(r.missing, r.made.len(), &r.none) {
        return Ok(None);
    }
    let Some(after) = make_all(alloc, board, state, r.net, r.made.as_slice())? else {
        return Ok(None);
    };
    if !is_rest(alloc, board, &after, r)? {
        return Ok(None);
    }
    Ok(Some(after))
}

/// The state to which the routing of each net in turn leads, if what is told of them is so.
pub fn all_routed<P: Plane>(
    alloc: Global,
    board: &Board,
    first: UnderWay<P>,
    blocks: &[Routed],
) -> Result<Option<UnderWay<P>>, NoMemory>
    requires state { IsUnderWay board.now.parts first.made.lists first.planes }
    requires nets { length blocks.now ≡ length board.now.parts.net_names }
    ensures state { IfOk result (λ o. IfSome o (λ s. IsUnderWay board.now.parts s.made.lists s.planes)) }
    ensures routed { IfOk result (λ o. IfSome o (λ s. AreRoutedFrom board.now.parts 0 first.made.lists blocks.now s.made.lists)) }
    ensures none { IfOk result (λ o. IfNone o ((new : List (List OneConn)) → ¬ AreRoutedFrom board.now.parts 0 first.made.lists blocks.now new)) }
{
    let mut state = first;
    for (i, block) in blocks.iter().enumerate() {
        match routed_at(alloc, board, state, i, block)? {
            Some(next) => state = next,
            None => return Ok(None),
        }
    }
    Ok(Some(state))
}

/// The state to which the routing of the net of number `i` leads, if this block tells of it, and
/// rightly.
fn routed_at<P: Plane>(
    alloc: Global,
    board: &Board,
    state: UnderWay<P>,
    i: usize,
    block: &Routed,
) -> Result<Option<UnderWay<P>>, NoMemory>
    requires state { IsUnderWay board.now.parts state.made.lists state.planes }
    requires net { i < length board.now.parts.net_names }
    ensures state { IfOk result (λ o. IfSome o (λ s. IsUnderWay board.now.parts s.made.lists s.planes)) }
    ensures net { IfOk result (λ o. IfSome o (λ s. block.now.net ≡ net_at i)) }
    ensures routed { IfOk result (λ o. IfSome o (λ s. IsRouted board.now.parts state.made.lists block.now s.made.lists)) }
    ensures none { IfOk result (λ o. IfNone o (block.now.net ≡ net_at i → (new : List (List OneConn)) → ¬ IsRouted board.now.parts state.made.lists block.now new)) }
{
    if block.net.0 as usize != i {
        return Ok(None);
    }
    routed(alloc, board, state, block)
}

//! Whether an entry comes from where its origin says.
ghost use Rattle.std.specs.Prelude.{◌≡◌, ◌≢◌, ◌<◌, ◌↔◌, length, All, IsTrue, IfSome, IfNone, Some, slice_get};
ghost use Rattle.geo_rect.specs.Plane.{ShareNoPoint};
ghost use Rattle.plane_set.specs.Standing.{HasPlanes};
ghost use Rattle.route_law.specs.declared.certs.Entry.{Entry as Item};
ghost use Rattle.route_law.specs.Ground.{Ground, IsWireStrip};
ghost use Rattle.route_law.specs.Moves.{arrival_of, IsEdgeMove, IsViaMove};
ghost use Rattle.route_law.specs.Right.{IsWellPlaced, IsStart, IsFromSource, IsFromEntry, IsFrom};
ghost use Rattle.strip_moves.specs.Grounds.{ground_of};
ghost use Rattle.cert_check.specs.Fronts.{IsBoundedEntry};
ghost use Rattle.cert_check.specs.Stages.{ArePlaced};

use crate::fronts::is_moved;
use crate::passages::via_passage;
use crate::rects::{corner, is_meet, meet_of_three};
use board_model::Board;
use geo_rect::{KindId, NetId, Spot, edge, same_rect};
use plane_core::Plane;
use plane_set::PlaneSet;
use route_law::{Entry, Origin};
use strip_moves::joins;

/// Whether the entry starts, at no cost, with what its strip has of the box.
fn is_start(source: Spot, e: Entry) -> bool
    ensures { (g : Ground) → IsWireStrip g e.layer e.strip → IsTrue result ↔ IsStart g source (arrival_of e) }
{
    if e.layer.0 != source.layer.0 {
        return false;
    }
    if e.cost != 0 {
        return false;
    }
    is_meet(e.strip, source.area, e.front)
}

/// Whether the entry is the start of the source box of this number.
fn is_from_source(sources: &[Spot], m: u64, e: Entry) -> bool
    ensures { (g : Ground) → IsWireStrip g e.layer e.strip → IsTrue result ↔ IsFromSource g sources.now m (arrival_of e) }
{
    if m >= sources.len() as u64 {
        return false;
    }
    is_start(sources[m as usize], e)
}

/// The entry of number `m`, if it comes before the one of number `n`.
fn entry_before(entries: &[Entry], n: usize, m: u64) -> Option<Entry>
    ensures earlier { IfSome result (λ e. m < n) }
    ensures some { IfSome result (λ e. slice_get entries.now m ≡ Some e) }
    ensures none { IfNone result ((e : Item) → m < n → slice_get entries.now m ≡ Some e → ⊥) }
{
    if m >= n as u64 {
        return None;
    }
    if m >= entries.len() as u64 {
        return None;
    }
    Some(entries[m as usize])
}

/// Whether `to` comes from `from` across the edge between their strips.
fn is_edge_move(from: Entry, to: Entry) -> bool
    requires from { IsBoundedEntry from }
    requires to { IsBoundedEntry to }
    requires apart { to.layer ≡ from.layer → to.strip ≢ from.strip → ShareNoPoint from.strip to.strip }
    ensures { (g : Ground) → IsWireStrip g to.layer to.strip → IsTrue result ↔ IsEdgeMove g (arrival_of from) (arrival_of to) }
{
    if to.layer.0 != from.layer.0 {
        return false;
    }
    if same_rect(to.strip, from.strip) {
        return false;
    }
    let Some(door) = edge(from.strip, to.strip) else {
        return false;
    };
    is_moved(from, door, 0, to)
}

/// Whether the entry of number `n` comes from the earlier one of number `m` across an edge.
fn is_from_step(entries: &[Entry], n: usize, m: u64, e: Entry) -> bool
    requires bounded { All IsBoundedEntry entries.now }
    requires here { IsBoundedEntry e }
    requires apart { All (λ x. e.layer ≡ x.layer → e.strip ≢ x.strip → ShareNoPoint x.strip e.strip) entries.now }
    ensures { (g : Ground) → IsWireStrip g e.layer e.strip
        → IsTrue result ↔ IsFromEntry entries.now n m (λ b. IsEdgeMove g b (arrival_of e)) }
{
    let Some(from) = entry_before(entries, n, m) else {
        return false;
    };
    is_edge_move(from, e)
}

/// Whether `to` comes from `from` through a via of the kind.
fn is_via_move<P: Plane>(
    board: &Board,
    planes: &PlaneSet<P>,
    net: NetId,
    k: KindId,
    from: Entry,
    to: Entry,
) -> bool
    requires planes { HasPlanes board.now.parts planes.now }
    requires net { net.0 < length board.now.parts.net_names }
    requires from { IsBoundedEntry from }
    requires to { IsBoundedEntry to }
    requires placed { IsWireStrip (ground_of board.now.parts planes.now net) to.layer to.strip }
    ensures { IsTrue result ↔ IsViaMove (ground_of board.now.parts planes.now net) k (arrival_of from) (arrival_of to) }
{
    let Some(pass) = via_passage(board, planes, net, k, corner(to.front)) else {
        return false;
    };
    let kind = board.kind(k);
    if !joins(kind, from.layer, to.layer) {
        return false;
    }
    let Some(common) = meet_of_three(from.strip, pass, to.strip) else {
        return false;
    };
    is_moved(from, common, kind.charge, to)
}

/// Whether the entry of number `n` comes from the earlier one of number `m` through a via.
fn is_from_via<P: Plane>(
    board: &Board,
    planes: &PlaneSet<P>,
    net: NetId,
    entries: &[Entry],
    n: usize,
    m: u64,
    k: KindId,
    e: Entry,
) -> bool
    requires planes { HasPlanes board.now.parts planes.now }
    requires net { net.0 < length board.now.parts.net_names }
    requires bounded { All IsBoundedEntry entries.now }
    requires here { IsBoundedEntry e }
    requires placed { IsWireStrip (ground_of board.now.parts planes.now net) e.layer e.strip }
    ensures { IsTrue result ↔ IsFromEntry entries.now n m (λ b. IsViaMove (ground_of board.now.parts planes.now net) k b (arrival_of e)) }
{
    let Some(from) = entry_before(entries, n, m) else {
        return false;
    };
    is_via_move(board, planes, net, k, from, e)
}

/// Whether the entry of number `n` comes from where its origin says.
pub fn is_founded<P: Plane>(
    board: &Board,
    planes: &PlaneSet<P>,
    net: NetId,
    sources: &[Spot],
    entries: &[Entry],
    n: usize,
    e: Entry,
) -> bool
    requires planes { HasPlanes board.now.parts planes.now }
    requires net { net.0 < length board.now.parts.net_names }
    requires placed { ArePlaced (ground_of board.now.parts planes.now net) entries.now }
    requires here { IsWellPlaced (ground_of board.now.parts planes.now net) e }
    ensures { IsTrue result ↔ IsFrom (ground_of board.now.parts planes.now net) sources.now entries.now n (arrival_of e) e.origin }
{
    match e.origin {
        Origin::Source(m) => is_from_source(sources, m, e),
        Origin::Step(m) => is_from_step(entries, n, m, e),
        Origin::Via(m, k) => is_from_via(board, planes, net, entries, n, m, k, e),
    }
}

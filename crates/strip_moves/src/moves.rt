ghost use Rattle.std.specs.Prelude.{◌+◌, ◌^◌, ◌<◌, length, All, IfOk, OnOk};
ghost use Rattle.geo_rect.specs.declared.ids.KindId.{KindId};
ghost use Rattle.geo_rect.specs.Plane.{LiesIn};
ghost use Rattle.plane_set.specs.Standing.{HasPlanes};
ghost use Rattle.route_law.specs.declared.certs.Origin.TheVariants.{Step, Via};
ghost use Rattle.route_law.specs.Moves.{Arrival, arrival_of, IsEdgeMove, IsViaMove};
ghost use Rattle.route_law.specs.Right.{IsWellPlaced};
ghost use Rattle.strip_moves.specs.Departures.{IsOpen};
ghost use Rattle.strip_moves.specs.Gains.{Gains};
ghost use Rattle.strip_moves.specs.Grounds.{board_area, ground_of};
ghost use Rattle.strip_moves.specs.Listed.{HasArrival, IsMoveFrom};
ghost use Rattle.strip_moves.specs.Spans.{IsViaMoveTo};

use crate::departures::Departure;
use crate::edges::push_steps;
use crate::jumps::push_jumps;
use crate::net_planes::{vias_of, wires_of};
use crate::spans::joins;
use board_model::Board;
use geo_rect::{KindId, LayerId, List, NetId, NoMemory};
use plane_core::Plane;
use plane_set::PlaneSet;
use route_law::{Entry, Origin};
use std::alloc::Global;

/// All moves of an entry, which is the one of this number.
pub fn moves_of<P: Plane>(
    alloc: Global,
    board: &Board,
    planes: &PlaneSet<P>,
    net: NetId,
    number: u64,
    from: Entry,
) -> Result<List<Entry>, NoMemory>
    requires planes { HasPlanes board.now.parts planes.now }
    requires net { net.0 < length board.now.parts.net_names }
    requires placed { IsWellPlaced (ground_of board.now.parts planes.now net) from }
    requires cost { from.cost + 2 ^ 26 < 2 ^ 128 }
    ensures each { IfOk result (λ entries. All (IsMoveFrom (ground_of board.now.parts planes.now net) (arrival_of from) number) entries) }
    ensures edges { IfOk result (λ entries. (a : Arrival)
        → IsEdgeMove (ground_of board.now.parts planes.now net) (arrival_of from) a
        → HasArrival entries (Step number) a) }
    ensures vias { IfOk result (λ entries. (k : KindId) (a : Arrival)
        → IsViaMove (ground_of board.now.parts planes.now net) k (arrival_of from) a
        → HasArrival entries (Via number k) a) }
{
    let mut moves = List::new(alloc);
    let steps = Departure {
        net,
        from,
        origin: Origin::Step(number),
        layer: from.layer,
        charge: 0,
    };
    let plane = wires_of(board, planes, net, from.layer);
    push_steps(alloc, plane, &mut moves, steps)?;
    for kind in 0..board.kinds() {
        push_jumps_by(
            alloc,
            board,
            planes,
            &mut moves,
            steps,
            number,
            KindId(kind),
        )?;
    }
    Ok(moves)
}

/// Adds the moves by vias of kind `k` from the entry of this number, which the net leaves.
fn push_jumps_by<P: Plane>(
    alloc: Global,
    board: &Board,
    planes: &PlaneSet<P>,
    moves: &mut List<Entry>,
    d: Departure,
    number: u64,
    k: KindId,
) -> Result<(), NoMemory>
    requires planes { HasPlanes board.now.parts planes.now }
    requires net { d.net.0 < length board.now.parts.net_names }
    requires kind { k.0 < length board.now.parts.kinds }
    requires open { IsOpen d }
    requires inside { LiesIn d.from.strip (board_area board.now.parts) }
    ensures { OnOk result (Gains moves.old moves.new (Via number k) (IsViaMove (ground_of board.now.parts planes.now d.net) k (arrival_of d.from))) }
{
    for layer in 0..board.layers() {
        push_jumps_to(alloc, board, planes, moves, d, number, k, LayerId(layer))?;
    }
    Ok(())
}

/// Adds the moves by vias of kind `k` from that entry to one layer, if the kind joins the two.
fn push_jumps_to<P: Plane>(
    alloc: Global,
    board: &Board,
    planes: &PlaneSet<P>,
    moves: &mut List<Entry>,
    d: Departure,
    number: u64,
    k: KindId,
    layer: LayerId,
) -> Result<(), NoMemory>
    requires planes { HasPlanes board.now.parts planes.now }
    requires net { d.net.0 < length board.now.parts.net_names }
    requires kind { k.0 < length board.now.parts.kinds }
    requires layer { layer.0 < length board.now.parts.layers }
    requires open { IsOpen d }
    requires inside { LiesIn d.from.strip (board_area board.now.parts) }
    ensures { OnOk result (Gains moves.old moves.new (Via number k) (IsViaMoveTo (ground_of board.now.parts planes.now d.net) k (arrival_of d.from) layer)) }
{
    let kind = board.kind(k);
    if !joins(kind, d.from.layer, layer) {
        return Ok(());
    }
    let jumps = Departure {
        net: d.net,
        from: d.from,
        origin: Origin::Via(number, k),
        layer,
        charge: kind.charge,
    };
    let vias = vias_of(board, planes, d.net, k);
    let plane = wires_of(board, planes, d.net, layer);
    push_jumps(alloc, vias, plane, moves, jumps)
}

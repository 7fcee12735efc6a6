//! The way back from an entry of a certificate to a source.

ghost use Rattle.std.specs.Prelude.{◌≡◌, ℕ, ◌+◌, ◌<◌, List, Some, length, slice_get, IfOk, OnOk, IfSome};
ghost use Rattle.geo_rect.specs.declared.ids.Node.{Node as Place};
ghost use Rattle.geo_rect.specs.declared.ids.Spot.{Spot as Box};
ghost use Rattle.geo_rect.specs.Distance.{IsAway};
ghost use Rattle.board_parts.specs.declared.parts.BoardParts.{BoardParts};
ghost use Rattle.board_model.specs.Shapes.{place_of};
ghost use Rattle.board_model.specs.WellFormed.{IsWellFormed};
ghost use Rattle.plane_set.specs.Standing.{HasPlanes};
ghost use Rattle.route_law.specs.declared.certs.Entry.{Entry as CertEntry};
ghost use Rattle.route_law.specs.Connections.{steps_of};
ghost use Rattle.route_law.specs.Ground.{Ground};
ghost use Rattle.route_law.specs.Right.{IsRight};
ghost use Rattle.route_law.specs.Walks.{IsWalk, HasNode, last_node, walk_cost};
ghost use Rattle.strip_moves.specs.Grounds.{ground_of};
ghost use Rattle.path_trace.specs.Lines.{HasOnlyTurns};
ghost use Rattle.path_trace.specs.Strips.{IsInStripOf, StaysInStrips};
ghost use Rattle.path_trace.specs.Traces.{ComesBefore, AreEarlier, IsSound, IsTrace, IsWhole, LeavesEntry, GoesBack, IsOneStepOff, IsCrossed};

use crate::paths::Path;
use crate::points::{nearest, node_at, place_of};
use board_model::{Board, Conn};
use geo_rect::{NetId, NoMemory, Node, Rect, Spot};
use plane_core::Plane;
use plane_set::PlaneSet;
use route_law::{Cert, Entry, Origin};
use std::alloc::Global;

/// A connection that costs what the entry of this number promises for the node `end` of its strip:
/// it leads there from a source box, by the entries from which the entry comes, and stays in their
/// strips. No wire goes on in the direction of a wire right before it.
pub fn trace<P: Plane>(
    alloc: Global,
    board: &Board,
    planes: &PlaneSet<P>,
    net: NetId,
    sources: &[Spot],
    targets: &[Spot],
    cert: &Cert,
    entry: u64,
    end: Node,
) -> Result<Conn, NoMemory>
    requires planes { HasPlanes board.now.parts planes.now }
    requires net { net.0 < length board.now.parts.net_names }
    requires right { IsRight (ground_of board.now.parts planes.now net) sources.now targets.now cert.now }
    requires entry { entry < length cert.now.entries }
    requires inside { (e : CertEntry) → slice_get cert.now.entries entry ≡ Some e → IsInStripOf e end }
    ensures well_formed { IfOk result (λ conn. IsWellFormed board.now.parts conn) }
    ensures turns { IfOk result (λ conn. HasOnlyTurns conn.start conn.legs) }
    ensures starts { IfOk result (λ conn. HasNode sources.now conn.start) }
    ensures walk { IfOk result (λ conn. IsWalk (ground_of board.now.parts planes.now net) conn.start (steps_of conn)) }
    ensures strips { IfOk result (λ conn. StaysInStrips cert.now.entries conn.start (steps_of conn)) }
    ensures stops { IfOk result (λ conn. last_node conn.start (steps_of conn) ≡ end) }
    ensures ends { IfOk result (λ conn. last_node conn.start conn.legs ≡ end) }
    ensures cost { IfOk result (λ conn. walk_cost (ground_of board.now.parts planes.now net) (steps_of conn) ≡ conn.cost) }
    ensures promise { IfOk result (λ conn. (e : CertEntry) (n : ℕ) → slice_get cert.now.entries entry ≡ Some e
        → IsAway e.front (place_of end) n → conn.cost ≡ e.cost + n) }
{
    let mut path = Path::at(alloc, end);
    go_back(cert.entries.as_slice(), entry, &mut path)?;
    Ok(path.into_conn(board))
}

/// Leads the path back to a source from the strip of the entry of this number.
fn go_back(entries: &[Entry], entry: u64, path: &mut Path) -> Result<(), NoMemory>
    requires there { entry < length entries.now }
    requires earlier { AreEarlier entries.now }
    ensures { OnOk result ((b : BoardParts) (g : Ground) (sources : List Box) (goal : Place) (total : ℕ) → IsSound b g sources entries.now
        → IsTrace b g entries.now goal total entry path.old → IsWhole b g sources entries.now goal total path.new) }
{
    let mut next = Some(entry);
    while let Some(number) = next {
        next = step_back(entries, number, path)?;
    }
    Ok(())
}

/// Leads the path back through the strip of the entry of this number, to where the entry comes from:
/// the strip of an earlier entry, whose number this is, or none where that is a source box.
fn step_back(entries: &[Entry], number: u64, path: &mut Path) -> Result<Option<u64>, NoMemory>
    requires there { number < length entries.now }
    requires earlier { AreEarlier entries.now }
    ensures falls { IfOk result (λ before. IfSome before (λ m. m < number)) }
    ensures back { IfOk result (λ before. GoesBack entries.now number before path.old path.new) }
{
    let entry = entries[number as usize];
    let front = nearest(entry.front, place_of(path.start));
    path.lead_from(front)?;
    leave(entries, number, entry, path)
}

/// Leads the path from the front of an entry of this number to where the entry comes from.
fn leave(
    entries: &[Entry],
    number: u64,
    entry: Entry,
    path: &mut Path,
) -> Result<Option<u64>, NoMemory>
    requires there { number < length entries.now }
    requires earlier { ComesBefore number entry.origin }
    ensures falls { IfOk result (λ before. IfSome before (λ m. m < number)) }
    ensures back { IfOk result (λ before. LeavesEntry entries.now number entry before path.old path.new) }
{
    match entry.origin {
        Origin::Source(_) => Ok(None),
        Origin::Step(m) => {
            cross(path, entries[m as usize].strip)?;
            Ok(Some(m))
        }
        Origin::Via(m, kind) => {
            path.push_via(kind, entries[m as usize].layer)?;
            Ok(Some(m))
        }
    }
}

/// Leads the path over the edge, from the strip `t`.
fn cross(path: &mut Path, t: Rect) -> Result<(), NoMemory>
    ensures { OnOk result (IsOneStepOff t (place_of path.old.start) → IsCrossed t path.old path.new) }
{
    let from = nearest(t, place_of(path.start));
    path.push_wire(node_at(path.start.layer, from))
}

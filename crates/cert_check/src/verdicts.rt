ghost use Rattle.std.specs.Prelude.{◌<◌, length, All, IfOk, IfSome, IfNone};
ghost use Rattle.std.specs.Option.{option_copied};
ghost use Rattle.plane_set.specs.Standing.{HasPlanes};
ghost use Rattle.route_law.specs.Walks.{HasNoJoiningWalk};
ghost use Rattle.strip_moves.specs.Grounds.{ground_of};
ghost use Rattle.walk_check.specs.Corners.{HasPlaces};
ghost use Rattle.strip_moves.specs.Boxes.{IsBoardBox};
ghost use Rattle.cert_check.specs.Verdicts.{IsVerdict, IfYes};
ghost use Rattle.route_law.specs.Joins.{IsLeastConnection};

use crate::bounds::is_bound;
use crate::paths::is_match;
use crate::searches::{
    first_misplaced, first_uncovered_move, first_uncovered_start, first_unfounded,
};
use board_model::{Board, Conn};
use geo_rect::{NetId, NoMemory, Spot};
use plane_core::Plane;
use plane_set::PlaneSet;
use route_law::Cert;
use std::alloc::Global;

/// What of a certificate or a connection is not right.
#[derive(Clone, Copy, Debug, PartialEq, Eq)]
pub enum Why {
    /// The entry's strip is none that the net may pass, or does not hold the front.
    Strip,
    /// The entry does not come from where it says.
    Origin,
    /// A start of the source box is not covered.
    CoverSource,
    /// A move of the entry is not covered.
    Cover,
    /// The bound is not what the cheapest end costs.
    Bound,
    /// The connection is no walk that costs the bound.
    Path,
}

/// Whether a certificate is right and a connection matches its bound.
#[derive(Clone, Copy, Debug, PartialEq, Eq)]
pub enum Verdict {
    Yes,
    /// The first entry, or source box, that is not right, from 0; it is 0 where the bound or the
    /// connection is not right.
    No { entry: u64, why: Why },
}

/// Whether the certificate is right for the net with these source boxes and target boxes, and the
/// connection is a walk that costs its bound; without a bound there must be no connection. The
/// boxes are on the board, and there is a target box. The coordinates of the connection lie between
/// -2^24 and 2^24.
pub fn check<P: Plane>(
    alloc: Global,
    board: &Board,
    planes: &PlaneSet<P>,
    net: NetId,
    sources: &[Spot],
    targets: &[Spot],
    conn: Option<&Conn>,
    cert: &Cert,
) -> Result<Verdict, NoMemory>
    requires planes { HasPlanes board.now.parts planes.now }
    requires net { net.0 < length board.now.parts.net_names }
    requires sources { All (IsBoardBox board.now.parts) sources.now }
    requires some_target { 0 < length targets.now }
    requires targets { All (IsBoardBox board.now.parts) targets.now }
    requires places { IfSome (option_copied conn) HasPlaces }
    ensures exact { IfOk result (IsVerdict board.now.parts (ground_of board.now.parts planes.now net) sources.now targets.now (option_copied conn.entry) cert.now) }
    ensures yes_is_least { IfOk result (λ v. IfYes v (IfSome (option_copied conn.entry)
        (λ c. IsLeastConnection board.now.parts (ground_of board.now.parts planes.now net) sources.now targets.now c))) }
    ensures yes_is_none { IfOk result (λ v. IfYes v (IfNone (option_copied conn.entry)
        (HasNoJoiningWalk (ground_of board.now.parts planes.now net) sources.now targets.now))) }
{
    let entries = cert.entries.as_slice();
    if let Some(entry) = first_misplaced(board, planes, net, entries) {
        return Ok(Verdict::No {
            entry,
            why: Why::Strip,
        });
    }
    if let Some(entry) = first_unfounded(board, planes, net, sources, entries) {
        return Ok(Verdict::No {
            entry,
            why: Why::Origin,
        });
    }
    let start = first_uncovered_start(alloc, board, planes, net, sources, targets, cert)?;
    if let Some(entry) = start {
        return Ok(Verdict::No {
            entry,
            why: Why::CoverSource,
        });
    }
    let from = first_uncovered_move(alloc, board, planes, net, targets, cert)?;
    if let Some(entry) = from {
        return Ok(Verdict::No {
            entry,
            why: Why::Cover,
        });
    }
    if !is_bound(targets, cert) {
        return Ok(Verdict::No {
            entry: 0,
            why: Why::Bound,
        });
    }
    let matches = is_match(
        alloc, board, planes, net, sources, targets, conn, cert.bound,
    )?;
    if !matches {
        return Ok(Verdict::No {
            entry: 0,
            why: Why::Path,
        });
    }
    Ok(Verdict::Yes)
}

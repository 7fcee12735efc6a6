//! Whether a certificate is right for a net's next connection.

ghost use Rattle.std.specs.Prelude.{◌≡◌, ◌+◌, ◌<◌, ◌↔◌, length, IfOk, IfSome, IsTrue};
ghost use Rattle.std.specs.Option.{option_copied};
ghost use Rattle.board_model.specs.Boxes.{source_boxes, target_boxes};
ghost use Rattle.board_parts.specs.Lookup.{pins_of};
ghost use Rattle.board_model.specs.Made.{conns_of};
ghost use Rattle.cert_check.specs.declared.verdicts.Verdict.TheVariants.{Yes};
ghost use Rattle.cert_check.specs.Verdicts.{IsGood};
ghost use Rattle.route_law.specs.Routing.{conns_needed, next_number, next_targets};
ghost use Rattle.strip_moves.specs.Grounds.{ground_of};
ghost use Rattle.walk_check.specs.Corners.{HasPlaces};
ghost use Rattle.replay_check.specs.States.{IsUnderWay};

use crate::states::UnderWay;
use board_model::{Board, Conn, Made, attach_boxes, target_boxes};
use cert_check::{Verdict, check};
use geo_rect::{NetId, NoMemory};
use plane_core::Plane;
use route_law::Cert;
use std::alloc::Global;

/// Whether the certificate is right for the next connection of the net, which lacks one, and the
/// connection is a walk that costs its bound; without a connection there is no bound.
pub fn is_right<P: Plane>(
    alloc: Global,
    board: &Board,
    state: &UnderWay<P>,
    net: NetId,
    conn: Option<&Conn>,
    cert: &Cert,
) -> Result<bool, NoMemory>
    requires state { IsUnderWay board.now.parts state.now.made.lists state.now.planes }
    requires net { net.0 < length board.now.parts.net_names }
    requires lacking { length (conns_of state.now.made.lists net) < conns_needed board.now.parts net }
    requires places { IfSome (option_copied conn) HasPlaces }
    ensures { IfOk result (λ yes. IsTrue yes ↔ IsGood board.now.parts (ground_of board.now.parts state.now.planes net)
        (source_boxes board.now.parts state.now.made.lists net) (next_targets board.now.parts state.now.made.lists net)
        (option_copied conn.entry) cert.now) }
{
    let number = next_pin(board, &state.made, net);
    let sources = attach_boxes(alloc, board, &state.made, net)?;
    let targets = target_boxes(alloc, board, net, number)?;
    let verdict = check(
        alloc,
        board,
        &state.planes,
        net,
        sources.as_slice(),
        targets.as_slice(),
        conn,
        cert,
    )?;
    Ok(is_yes(verdict))
}

/// The pin, from 0, to which the next connection of the net leads, which lacks one.
fn next_pin(board: &Board, made: &Made, net: NetId) -> u32
    requires net { net.0 < length made.now.lists }
    requires lacking { length (conns_of made.now.lists net) < conns_needed board.now.parts net }
    ensures number { result ≡ next_number made.now.lists net }
    ensures pin { result < length (pins_of board.now.parts net) }
{
    let _pins = board.pin_count(net);
    made.conns(net).len() as u32 + 1
}

/// Whether the verdict is yes.
fn is_yes(verdict: Verdict) -> bool
    ensures { IsTrue result ↔ (verdict ≡ Yes) }
{
    match verdict {
        Verdict::Yes => true,
        Verdict::No { .. } => false,
    }
}

//! Two shapes of two owners that are too close for the gap of these.

ghost use Rattle.std.specs.Prelude.{◌≡◌, ◌++◌, All, OnOk};
ghost use Rattle.board_model.specs.Known.{IsKnown};
ghost use Rattle.board_model.specs.Spacing.{is_same_owner, breaks_gap};
ghost use Rattle.board_model.specs.Violations.{close_of};

use board_model::{Board, Owned, Shape, Violation};
use geo_rect::{List, NetId, NoMemory, too_close};

/// Whether both are blockages, or both belong to one net.
fn same_owner(a: Option<NetId>, b: Option<NetId>) -> bool
    ensures { result ≡ is_same_owner a b }
{
    match (a, b) {
        (None, None) => true,
        (Some(m), Some(n)) => m.0 == n.0,
        _ => false,
    }
}

/// Whether two shapes stand on one layer, belong to two owners, and are too close for the gap of
/// these.
fn breaks_gap(board: &Board, s: Shape, t: Shape) -> bool
    requires first { IsKnown board.now.parts s }
    requires second { IsKnown board.now.parts t }
    ensures { result ≡ breaks_gap board.now.parts s t }
{
    if s.layer.0 != t.layer.0 {
        return false;
    }
    if same_owner(s.owner, t.owner) {
        return false;
    }
    too_close(s.area, t.area, board.gap_between(s.layer, s.owner, t.owner))
}

/// Adds the violation of the shape with each later one that it is too close to.
pub fn push_close(
    found: &mut List<Violation>,
    board: &Board,
    shape: Shape,
    later: &[Shape],
) -> Result<(), NoMemory>
    requires known { IsKnown board.now.parts shape }
    requires later_known { All (IsKnown board.now.parts) later.now }
    ensures { OnOk result (found.new ≡ found.old ++ close_of board.now.parts shape later.now) }
{
    for other in later {
        if breaks_gap(board, shape, *other) {
            found.push(Violation::Close(
                shape.layer,
                Owned {
                    owner: shape.owner,
                    area: shape.area,
                },
                Owned {
                    owner: other.owner,
                    area: other.area,
                },
            ))?;
        }
    }
    Ok(())
}

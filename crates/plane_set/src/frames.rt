//! What a plane shows where nothing stands.

ghost use Rattle.std.specs.Prelude.{◌≡◌, ◌<◌, [], length, IfOk};
ghost use Rattle.geo_rect.specs.Plane.{LiesIn};
ghost use Rattle.board_model.specs.Labels.{label_among};
ghost use Rattle.plane_core.specs.Labels.{label_of, IsPlane};
ghost use Rattle.plane_set.specs.Drawings.{drawing_by, IsBoardArea, Shows};
ghost use Rattle.plane_set.specs.Families.{rows_in, rule_in};
ghost use Rattle.plane_set.specs.Joins.{HasNewLabels, IsBarred, IsPieceBarred};

use crate::families::Family;
use crate::shuts::shut_areas;
use board_model::Board;
use geo_rect::{ClassId, Label, NoMemory, Rect, meet};
use plane_core::Plane;
use std::alloc::Global;

/// The plane of class `c` in a row of the family, with no shape: the points whose squares leave the
/// board or are too close to a keep-out are left to no net, and the others are free.
pub fn bare_plane<P: Plane>(
    alloc: Global,
    board: &Board,
    family: Family,
    row: u32,
    c: ClassId,
) -> Result<P, NoMemory>
    requires row { row < rows_in board.now.parts family }
    requires class { c.0 < length board.now.parts.classes }
    ensures { IfOk result (λ plane. Shows board.now.parts (rule_in board.now.parts family row c) [] (drawing_by P.region P.strips plane)) }
{
    let area = board_area(board);
    let plane: P = P::new(alloc, area)?;
    clear_area(alloc, board, family, row, c, plane, area)
}

/// The points of the board.
fn board_area(board: &Board) -> Rect
    ensures { IsBoardArea board.now.parts result }
{
    Rect::new(0, 0, board.width(), board.height())
}

/// Takes all shapes out of `area`, a part of the plane of class `c` in a row of the family: the
/// points there whose squares leave the board or are too close to a keep-out are left to no net, and
/// the others are free. After `NoMemory` the plane is gone.
pub fn clear_area<P: Plane>(
    alloc: Global,
    board: &Board,
    family: Family,
    row: u32,
    c: ClassId,
    plane: P,
    area: Rect,
) -> Result<P, NoMemory>
    requires row { row < rows_in board.now.parts family }
    requires class { c.0 < length board.now.parts.classes }
    requires board { IsBoardArea board.now.parts (P.region plane) }
    requires inside { LiesIn area (P.region plane) }
    ensures region { IfOk result (λ new. P.region new ≡ P.region plane) }
    ensures labels { IfOk result (λ new. HasNewLabels (P.region plane) area (label_among board.now.parts (rule_in board.now.parts family row c) []) (label_of (P.strips plane)) (label_of (P.strips new))) }
    ensures canonical { IfOk result (λ new. IsPlane (P.region new) (P.strips new)) }
{
    let shut = shut_areas(alloc, board, family, row, c)?;
    let freed = plane.paint(alloc, area, Label::Free)?;
    bar(alloc, freed, area, shut.as_slice())
}

/// Leaves each point of these pieces that lies in `area`, a part of the domain, to no net.
fn bar<P: Plane>(alloc: Global, plane: P, area: Rect, pieces: &[Rect]) -> Result<P, NoMemory>
    requires { LiesIn area (P.region plane) }
    ensures region { IfOk result (λ new. P.region new ≡ P.region plane) }
    ensures labels { IfOk result (λ new. IsBarred (P.region plane) area pieces.now (label_of (P.strips plane)) (label_of (P.strips new))) }
    ensures canonical { IfOk result (λ new. IsPlane (P.region new) (P.strips new)) }
{
    let _domain = plane.domain();
    let mut barred = plane;
    for piece in pieces {
        barred = bar_piece(alloc, barred, area, *piece)?;
    }
    Ok(barred)
}

/// Leaves each point of this piece that lies in `area`, a part of the domain, to no net.
fn bar_piece<P: Plane>(alloc: Global, plane: P, area: Rect, piece: Rect) -> Result<P, NoMemory>
    requires inside { LiesIn area (P.region plane) }
    requires canonical { IsPlane (P.region plane) (P.strips plane) }
    ensures region { IfOk result (λ new. P.region new ≡ P.region plane) }
    ensures labels { IfOk result (λ new. IsPieceBarred (P.region plane) area piece (label_of (P.strips plane)) (label_of (P.strips new))) }
    ensures canonical { IfOk result (λ new. IsPlane (P.region new) (P.strips new)) }
{
    let Some(part) = meet(area, piece) else {
        return Ok(plane);
    };
    plane.paint(alloc, part, Label::Many)
}

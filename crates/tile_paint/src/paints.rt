ghost use Rattle.std.specs.Prelude.{◌≡◌, IfOk};
ghost use Rattle.geo_rect.specs.declared.ids.Label.{Label as Colour};
ghost use Rattle.geo_rect.specs.declared.shapes.Point.{Point};
ghost use Rattle.geo_rect.specs.Plane.{HasPoint, LiesIn};
ghost use Rattle.stitch_walk.specs.Pieces.{HasLabel};
ghost use Rattle.stitch_walk.specs.Maximal.{AreMaximal};

use crate::bands::join_bands;
use crate::corners::row_above;
use crate::ledges::join_row;
use crate::outlines::cut_out;
use crate::spots::tiles_fill;
use geo_rect::{Label, NoMemory, Rect};
use std::alloc::Global;
use stitch_walk::Tiling;

/// Cuts out the area and gives it the label, joins the tiles of each band of it, and those of the last
/// band with the tiles above them.
fn paint_over(t: &mut Tiling, alloc: Global, area: Rect, label: Label) -> Result<(), NoMemory>
    requires area { LiesIn area t.old.domain }
    requires maximal { AreMaximal t.old.store }
    ensures domain { t.new.domain ≡ t.old.domain }
    ensures within { IfOk result (λ _. (p : Point) → HasPoint area p → HasLabel t.new.store p label) }
    ensures elsewhere { IfOk result (λ _. (p : Point) (old : Colour) → (HasPoint area p → ⊥) → HasLabel t.old.store p old → HasLabel t.new.store p old) }
    ensures maximal { IfOk result (λ _. AreMaximal t.new.store) }
{
    cut_out(t, alloc, area, label)?;
    join_bands(t, area, label)?;
    tiles_fill(t);
    join_row(t, row_above(area));
    tiles_fill(t);
    Ok(())
}

/// Gives each point of `area`, a part of the domain, the label. Each other point keeps its own. The tiles
/// are maximal again at the end. After `NoMemory` the tiling is gone.
pub fn paint(t: Tiling, alloc: Global, area: Rect, label: Label) -> Result<Tiling, NoMemory>
    requires area { LiesIn area t.domain }
    requires maximal { AreMaximal t.store }
    ensures domain { IfOk result (λ u. u.domain ≡ t.domain) }
    ensures within { IfOk result (λ u. (p : Point) → HasPoint area p → HasLabel u.store p label) }
    ensures elsewhere { IfOk result (λ u. (p : Point) (old : Colour) → (HasPoint area p → ⊥) → HasLabel t.store p old → HasLabel u.store p old) }
    ensures maximal { IfOk result (λ u. AreMaximal u.store) }
{
    let mut painted = t;
    paint_over(&mut painted, alloc, area, label)?;
    Ok(painted)
}

//! What follows from the definition of a linked tiling. These functions do nothing: their contracts are the laws.
ghost use Rattle.std.specs.Prelude.{ℤ};
ghost use Rattle.geo_rect.specs.declared.ids.Label.{Label};
ghost use Rattle.geo_rect.specs.declared.shapes.Point.{Point};
ghost use Rattle.geo_rect.specs.declared.shapes.Rect.{Rect};
ghost use Rattle.tile_store.specs.declared.tiles.TileId.{TileId};
ghost use Rattle.tile_store.specs.Store.{Store};
ghost use Rattle.stitch_walk.specs.Links.{IsTiling};
ghost use Rattle.stitch_walk.specs.Pieces.{FillDomain, HasLabel, IsPiece, IsCut, IsJoined, IsRelabelled, CanJoin, CanCutAtRow, CanCutAtColumn, AreStacked, AreInLine};
ghost use Rattle.stitch_walk.specs.Maximal.{AreMaximal};

#[tactic(auto, using(crate::proofs::Filled::filled))]
/// The tiles of a tiling fill its domain, and no two have a common point.
pub fn tiles_fill_the_domain()
    ensures { (s : Store) (domain : Rect) → IsTiling s domain → FillDomain s domain }
{}

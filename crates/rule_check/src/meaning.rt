ghost use Rattle.std.specs.Prelude.{◌↔◌, List, Contains};
ghost use Rattle.geo_rect.specs.declared.ids.LayerId.{LayerId};
ghost use Rattle.board_parts.specs.declared.parts.BoardParts.{BoardParts};
ghost use Rattle.board_model.specs.declared.shapes.Owned.{Owned};
ghost use Rattle.board_model.specs.declared.shapes.Shape.{Shape};
ghost use Rattle.board_model.specs.declared.shapes.Violation.TheVariants.{Close, Outline};
ghost use Rattle.board_model.specs.Violations.{violations_of};
ghost use Rattle.rule_check.specs.Meaning.{IsClosePair, IsOutside};

/// The violations of a list of shapes are exactly its pairs of two owners that are too close, and
/// its shapes that do not lie in the board.
pub fn violations_are_exact()
    ensures close { (b : BoardParts) (shapes : List Shape) (l : LayerId) (x y : Owned) →
        Contains (violations_of b shapes) (Close l x y) ↔ IsClosePair b shapes l x y }
    ensures outside { (b : BoardParts) (shapes : List Shape) (l : LayerId) (x : Owned) →
        Contains (violations_of b shapes) (Outline l x) ↔ IsOutside b shapes l x }
{}

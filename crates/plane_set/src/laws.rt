//! A law of planes that stand for shapes. The function does nothing: its contract is the law.

ghost use Rattle.std.specs.Prelude.{◌↔◌, List, Contains};
ghost use Rattle.board_parts.specs.declared.parts.BoardParts.{BoardParts};
ghost use Rattle.board_model.specs.declared.shapes.Shape.{Shape};
ghost use Rattle.plane_set.specs.Standing.{PlaneTable, StandsFor};

/// Planes that stand for shapes stand for them in any order, and however often each is listed.
pub fn planes_ignore_order()
    ensures { (b : BoardParts) (xs ys : List Shape) (set : PlaneTable)
        → StandsFor b xs set
        → ((s : Shape) → Contains xs s ↔ Contains ys s)
        → StandsFor b ys set }
{}

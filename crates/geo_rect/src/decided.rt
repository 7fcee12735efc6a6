ghost use Rattle.std.specs.Prelude.{ℤ, IsTrue, ◌↔◌};
ghost use Rattle.geo_rect.specs.declared.shapes.Rect.{Rect};
ghost use Rattle.geo_rect.specs.Plane.{IsTooClose, LiesIn};
ghost use Rattle.geo_rect.specs.Tests.{are_too_close, lies_in};

/// The tests that definitions keep lists by compute the facts that they stand for.
pub fn tests_are_exact()
    ensures close { (a b : Rect) (s : ℤ) → IsTrue (are_too_close a b s) ↔ IsTooClose a b s }
    ensures inside { (a b : Rect) → IsTrue (lies_in a b) ↔ LiesIn a b }
{}

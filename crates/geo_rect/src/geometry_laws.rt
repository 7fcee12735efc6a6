//! Laws of the geometry, over all whole numbers. Each function does nothing: its contract is the
//! law. Proofs cite the lemmas, which docs/PROOFS.md names beside the functions.

ghost use Rattle.std.specs.Prelude.{◌↔◌, ◌≡◌, ℕ, ◌+◌, ◌*◌, ◌≤◌, ℤ, pos, ◌≤ℤ◌, ◌+ℤ◌};
ghost use Rattle.geo_rect.specs.declared.shapes.Point.{Point};
ghost use Rattle.geo_rect.specs.declared.shapes.Rect.{Rect};
ghost use Rattle.geo_rect.specs.Plane.{HasPoint, LiesIn, IsBounded, IsTooClose, IsGrown, square, lone};
ghost use Rattle.geo_rect.specs.Distance.{apart, IsAway, IsDistance, IsReach, IsFarOut};
ghost use Rattle.geo_rect.specs.Images.{IsClamped};

/// The one law of fronts. A way from the front `f` to a point `v` of `e` is no shorter than the way
/// from `f` to `e` and then from the clamped front `c` to `v`; and each point of `c` is as far from
/// `f` as `e` is.
pub fn clamping_loses_nothing()
    ensures passing { (f e c : Rect) (v : Point) (m n k : ℕ) → HasPoint e v → IsClamped f e c → IsDistance f e m
        → IsAway c v n → IsAway f v k → m + n ≤ k }
    ensures level { (f e c : Rect) (p : Point) (m : ℕ) → IsClamped f e c → IsDistance f e m → HasPoint c p → IsAway f p m }
{}

/// Clamping one point into `f` gives the point of `f` that is nearest to it; and what is clamped
/// into `e` lies in `e`.
pub fn clamping_gives_the_nearest()
    ensures nearest { (f c : Rect) (v p : Point) → IsClamped (lone v) f c → HasPoint c p
        → HasPoint f p × IsAway f v (apart p v) }
    ensures inside { (b e c : Rect) → IsClamped b e c → LiesIn c e }
{}

/// From a point to a point one step on, the distance of a rectangle changes by one at most.
pub fn a_step_changes_the_distance_by_one()
    ensures grows { (a : Rect) (v w : Point) (m n : ℕ) → apart v w ≡ 1 → IsAway a v m → IsAway a w n → n ≤ m + 1 }
    ensures falls { (a : Rect) (v w : Point) (m n : ℕ) → apart v w ≡ 1 → IsAway a v m → IsAway a w n → m ≤ n + 1 }
{}

/// A rectangle `f` is no farther from a point than `g` is, but for the reach of `f` to `g`; and the
/// reach is 0 exactly where every point of `g` is one of `f`.
pub fn reach_covers()
    ensures covers { (f g : Rect) (v : Point) (k r m : ℕ) → IsAway f v k → IsReach f g r → IsAway g v m → k ≤ r + m }
    ensures zero { (f g : Rect) (n : ℕ) → IsReach f g n
        → (n ≡ 0) ↔ ((p : Point) → HasPoint g p → HasPoint f p) }
{}

/// Two rectangles are no farther apart than the way over any point is long.
pub fn distance_obeys_the_triangle()
    ensures { (a c : Rect) (v : Point) (m n k : ℕ) → IsAway a v m → IsAway c v n → IsDistance a c k → k ≤ m + n }
{}

/// The distance is 0 exactly where the two share a point; it is the same both ways; and the distance
/// to a point is that to the rectangle of this one point.
pub fn distance_is_a_distance()
    ensures zero { (a b : Rect) (n : ℕ) → IsDistance a b n
        → (n ≡ 0) ↔ ((p : Point) × HasPoint a p × HasPoint b p) }
    ensures symmetric { (a b : Rect) (n : ℕ) → IsDistance a b n → IsDistance b a n }
    ensures to_a_point { (a : Rect) (v : Point) (n : ℕ) → IsAway a v n ↔ IsDistance a (lone v) n }
{}

/// A way over a point that lies beyond both `a` and `b`, by more than `m` on one side, is longer
/// than the straight one by `2 (m + 1)` at least.
pub fn a_far_detour_is_long()
    ensures { (a b : Rect) (v : Point) (m j k n : ℕ) → IsFarOut a b v m → IsAway a v j → IsAway b v k
        → IsDistance a b n → n + 2 * (m + 1) ≤ j + k }
{}

/// A square is too close to `b` exactly where its middle is one of the points of `b` grown by the
/// gap and the half width together.
pub fn grown_serves_squares()
    ensures { (b r : Rect) (g h s : ℤ) (p : Point) → IsGrown b g r → pos 0 ≤ℤ h → h +ℤ s ≡ g
        → IsTooClose (square p h) b s ↔ HasPoint r p }
{}

/// There is exactly one distance to a point, one distance of two rectangles and one reach.
pub fn there_is_one_number()
    ensures some_away { (a : Rect) (v : Point) → (n : ℕ) × IsAway a v n }
    ensures one_away { (a : Rect) (v : Point) (m n : ℕ) → IsAway a v m → IsAway a v n → m ≡ n }
    ensures some_distance { (a b : Rect) → (n : ℕ) × IsDistance a b n }
    ensures one_distance { (a b : Rect) (m n : ℕ) → IsDistance a b m → IsDistance a b n → m ≡ n }
    ensures some_reach { (a b : Rect) → (n : ℕ) × IsReach a b n }
    ensures one_reach { (a b : Rect) (m n : ℕ) → IsReach a b m → IsReach a b n → m ≡ n }
{}

/// There is exactly one clamped rectangle; and two rectangles with the same points are the same.
pub fn there_is_one_rectangle()
    ensures some_clamped { (b e : Rect) → (c : Rect) × IsClamped b e c }
    ensures one_clamped { (b e c d : Rect) → IsClamped b e c → IsClamped b e d → c ≡ d }
    ensures same_points { (a b : Rect) → ((p : Point) → HasPoint a p → HasPoint b p)
        → ((p : Point) → HasPoint b p → HasPoint a p) → a ≡ b }
{}

/// A rectangle lies in another exactly where each of its points does; and what lies in a bounded
/// rectangle is bounded.
pub fn parts_lie_within()
    ensures points { (a b : Rect) → LiesIn a b ↔ ((p : Point) → HasPoint a p → HasPoint b p) }
    ensures bounded { (a b : Rect) → LiesIn a b → IsBounded b → IsBounded a }
{}

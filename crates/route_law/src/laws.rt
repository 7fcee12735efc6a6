//! The laws of certificates. The functions do nothing: their contracts are the laws.
ghost use Rattle.std.specs.Prelude.{ℕ, ◌+◌, ◌≤◌, List, IfSome, IfNone};
ghost use Rattle.geo_rect.specs.declared.ids.Spot.{Spot};
ghost use Rattle.geo_rect.specs.declared.shapes.Rect.{Rect};
ghost use Rattle.route_law.specs.declared.certs.Cert.{Cert};
ghost use Rattle.route_law.specs.Covers.{IsLow};
ghost use Rattle.route_law.specs.Ground.{Ground, IsGround};
ghost use Rattle.route_law.specs.Moves.{IsMovedFront};
ghost use Rattle.route_law.specs.Right.{IsRight};
ghost use Rattle.route_law.specs.Walks.{IsLowerBound, HasNoJoiningWalk, IsLeastCost};

/// A right certificate, whoever made it, bounds every walk: no walk from a source box to a target
/// box costs less than its bound, and where it has no bound there is no such walk.
pub fn a_right_certificate_bounds_every_walk()
    ensures bound { (g : Ground) (sources targets : List Spot) (cert : Cert) → IsGround g → IsRight g sources targets cert
        → IfSome cert.bound (λ d. IsLowerBound g sources targets d) }
    ensures none { (g : Ground) (sources targets : List Spot) (cert : Cert) → IsGround g → IsRight g sources targets cert
        → IfNone cert.bound (HasNoJoiningWalk g sources targets) }
{}

/// The bound of a right certificate is what the cheapest walk costs: some walk from a source box to a
/// target box costs just that.
pub fn the_bound_of_a_right_certificate_is_reached()
    ensures { (g : Ground) (sources targets : List Spot) (cert : Cert) → IsGround g → IsRight g sources targets cert
        → IfSome cert.bound (λ d. IsLeastCost g sources targets d) }
{}

/// A front that moves on comes nearer to the target boxes by no more than its way. So its cost and the
/// least distance to a target box, taken together, never fall along a move.
pub fn a_move_is_no_shortcut()
    ensures { (targets : List Spot) (front door moved : Rect) (way m n : ℕ) → IsMovedFront front door moved way
        → IsLow targets front m → IsLow targets moved n → m ≤ way + n }
{}

//! What follows from the definition of strips. These functions do nothing: their contracts are the laws.
ghost use Rattle.std.specs.Prelude.{◌≡◌, ◌↔◌, List, Contains};
ghost use Rattle.geo_rect.specs.declared.ids.Label.{Label};
ghost use Rattle.geo_rect.specs.declared.shapes.Point.{Point};
ghost use Rattle.geo_rect.specs.declared.shapes.Rect.{Rect};
ghost use Rattle.geo_rect.specs.Plane.{HasPoint};
ghost use Rattle.plane_core.specs.declared.strips.Strip.{Strip};
ghost use Rattle.plane_core.specs.declared.sides.Side.{Side};
ghost use Rattle.plane_core.specs.Choice.{IsChoice, Meets};
ghost use Rattle.plane_core.specs.Labels.{label_of, IsPlane};
ghost use Rattle.plane_core.specs.LocalForm.{HasLocalForm};
ghost use Rattle.plane_core.specs.Strips.{AreStrips, IsStrip};
ghost use Rattle.plane_core.specs.Sides.{turned, turned_point};

/// A labelled domain has one list of strips: two lists that are its strips are equal.
pub fn one_list_of_strips()
    ensures { (domain : Rect) (label_at : Point → Label) (ss ts : List Strip) → AreStrips domain label_at ss → AreStrips domain label_at ts → ss ≡ ts }
{}

/// The strips that meet the whole domain are all of them.
pub fn all_strips_meet_the_domain()
    ensures { (domain : Rect) (label_at : Point → Label) (ss found : List Strip) → AreStrips domain label_at ss → IsChoice ss (λ s. Meets s.area domain) found → found ≡ ss }
{}

/// The list of the strips of a labelled domain leaves none out.
pub fn each_strip_is_listed()
    ensures { (domain : Rect) (label_at : Point → Label) (ss : List Strip) (s : Strip) → AreStrips domain label_at ss → IsStrip domain label_at s → Contains ss s }
{}

/// Pieces that fill the domain with its labels, pairwise apart and with no defect, are its strips.
pub fn local_form_is_enough()
    ensures { (domain : Rect) (label_at : Point → Label) (ss : List Strip) → HasLocalForm domain label_at ss → AreStrips domain label_at ss }
{}

/// The strips of a labelled domain fill it with its labels, pairwise apart and with no defect.
pub fn strips_have_local_form()
    ensures { (domain : Rect) (label_at : Point → Label) (ss : List Strip) → AreStrips domain label_at ss → HasLocalForm domain label_at ss }
{}

/// The strips of a labelled domain give its points their labels, so they are a plane.
pub fn strips_give_labels()
    ensures labels { (domain : Rect) (label_at : Point → Label) (ss : List Strip) (p : Point) → AreStrips domain label_at ss → HasPoint domain p → label_of ss p ≡ label_at p }
    ensures canonical { (domain : Rect) (label_at : Point → Label) (ss : List Strip) → AreStrips domain label_at ss → IsPlane domain ss }
{}

/// A point lies in a rectangle exactly when the turned point lies in the turned rectangle.
pub fn points_turn_with_rectangles()
    ensures { (side : Side) (r : Rect) (p : Point) → HasPoint r p ↔ HasPoint (turned side r) (turned_point side p) }
{}

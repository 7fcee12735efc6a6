ghost use Rattle.std.specs.Prelude.{◌↔◌, IsTrue};
ghost use Rattle.board_model.specs.Labels.{IsInSpan};
ghost use Rattle.strip_moves.specs.Spans.{IsOtherLayer};

use board_model::ViaKind;
use geo_rect::LayerId;

/// Whether a via of the kind has a pad on the layer.
fn is_in_span(kind: ViaKind, l: LayerId) -> bool
    ensures { IsTrue result ↔ IsInSpan kind l }
{
    if l.0 < kind.first.0 {
        return false;
    }
    l.0 <= kind.last.0
}

/// Whether a via of the kind joins the layer `from` with `to`, another one.
pub fn joins(kind: ViaKind, from: LayerId, to: LayerId) -> bool
    ensures { IsTrue result ↔ IsOtherLayer kind from to }
{
    if !is_in_span(kind, from) {
        return false;
    }
    if !is_in_span(kind, to) {
        return false;
    }
    to.0 != from.0
}

ghost use Rattle.std.specs.Prelude.{◌↔◌, IsTrue};
ghost use Rattle.board_model.specs.Labels.{Admits};

use geo_rect::{Label, NetId};

/// Whether the net may pass a point of this label.
pub fn admits(label: Label, net: NetId) -> bool
    ensures { IsTrue result ↔ Admits label net }
{
    match label {
        Label::Free => true,
        Label::One(owner) => owner.0 == net.0,
        Label::Many => false,
    }
}

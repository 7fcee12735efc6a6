ghost use Rattle.std.specs.Prelude.{◌≡◌, ◌<◌, length};
ghost use Rattle.geo_rect.specs.Axis.{IsGap};
ghost use Rattle.board_parts.specs.Rules.{IsMeasure};
ghost use Rattle.board_parts.specs.Owners.{IsOwner};
ghost use Rattle.board_parts.specs.Gaps.{gap_to, gap_between};

use crate::boards::Board;
use geo_rect::{ClassId, LayerId, NetId};

impl Board {
    /// The gap that a class keeps on a layer to what an owner has, in micrometres: to a net that of
    /// the two classes, to a blockage that of the class's rule.
    pub fn gap_to(&self, l: LayerId, c: ClassId, owner: Option<NetId>) -> i32
        requires layer { l.0 < length self.now.parts.layers }
        requires class { c.0 < length self.now.parts.classes }
        requires owner { IsOwner self.now.parts owner }
        ensures value { result ≡ gap_to self.now.parts l c owner }
        ensures measure { IsMeasure result }
    {
        match owner {
            None => self.rule(l, c).gap,
            Some(n) => self.gap(l, c, self.class_of(n)),
        }
    }

    /// The gap between what two owners have on a layer, in micrometres. It is 0 for two blockages.
    pub fn gap_between(&self, l: LayerId, a: Option<NetId>, b: Option<NetId>) -> i32
        requires layer { l.0 < length self.now.parts.layers }
        requires first { IsOwner self.now.parts a }
        requires second { IsOwner self.now.parts b }
        ensures value { result ≡ gap_between self.now.parts l a b }
        ensures gap { IsGap result }
    {
        match (a, b) {
            (Some(m), _) => self.gap_to(l, self.class_of(m), b),
            (None, Some(n)) => self.gap_to(l, self.class_of(n), None),
            (None, None) => 0,
        }
    }
}

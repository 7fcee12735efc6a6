use geo_rect::{LayerId, NetId, Rect};

/// A rectangle of copper, or of a blockage, on a layer. The class of a shape is its owner's class.
#[derive(Clone, Copy, PartialEq, Eq)]
pub struct Shape {
    pub area: Rect,
    pub layer: LayerId,
    /// The net that it belongs to. A blockage belongs to none.
    pub owner: Option<NetId>,
}

/// A shape as a violation names it: whose it is, and where.
#[derive(Clone, Copy, Debug, PartialEq, Eq)]
pub struct Owned {
    pub owner: Option<NetId>,
    pub area: Rect,
}

/// A rule of the board that shapes break.
#[derive(Clone, Copy, Debug, PartialEq, Eq)]
pub enum Violation {
    /// Two shapes of two owners on a layer are too close for the gap of their classes.
    Close(LayerId, Owned, Owned),
    /// A shape on a layer does not lie in the board.
    Outline(LayerId, Owned),
}

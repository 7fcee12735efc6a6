use geo_rect::{Label, Rect};

/// The number of a tile in its store.
#[derive(Clone, Copy, Debug, Default, PartialEq, Eq)]
pub struct TileId(pub usize);

/// A rectangle of points that all have one label, with the numbers of four tiles next to it: two at
/// its lower left corner and two at its upper right one. A stitch is absent where the plane ends.
/// Corner stitching is after J. K. Ousterhout, 1984.
#[derive(Clone, Copy, Debug, PartialEq, Eq)]
pub struct Tile {
    pub area: Rect,
    pub label: Label,
    /// The tile left of the lower left corner.
    pub bl: Option<TileId>,
    /// The tile below the lower left corner.
    pub lb: Option<TileId>,
    /// The tile right of the upper right corner.
    pub tr: Option<TileId>,
    /// The tile above the upper right corner.
    pub rt: Option<TileId>,
}

use geo_rect::{Interval, Label, Rect};
use plane_core::Strip;

/// What is painted: the area of the domain that gets the label.
#[derive(Clone, Copy)]
pub struct Brush {
    pub domain: Rect,
    pub area: Rect,
    pub label: Label,
}

/// Rows of the area in which one strip lies to its left and one to its right, where the domain
/// goes on there. `across` are the columns of the new label's run in these rows.
#[derive(Clone, Copy)]
pub struct Band {
    pub rows: Interval,
    pub across: Interval,
    pub left: Option<Strip>,
    pub right: Option<Strip>,
}

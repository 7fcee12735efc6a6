use crate::shapes::{Point, Rect};

/// The number of a net, from 0 in the order of the text.
#[derive(Clone, Copy, Debug, PartialEq, Eq)]
pub struct NetId(pub u32);

/// The number of a layer, from 0 in the order of the text.
#[derive(Clone, Copy, Debug, PartialEq, Eq)]
pub struct LayerId(pub u32);

/// The number of a class of nets, from 0 in the order of the text.
#[derive(Clone, Copy, PartialEq, Eq)]
pub struct ClassId(pub u32);

/// The number of a kind of via, from 0 in the order of the text.
#[derive(Clone, Copy, Debug, PartialEq, Eq)]
pub struct KindId(pub u32);

/// A point on a layer.
#[derive(Clone, Copy, PartialEq, Eq)]
pub struct Node {
    pub x: i32,
    pub y: i32,
    pub layer: LayerId,
}

/// A rectangle on a layer.
#[derive(Clone, Copy, PartialEq, Eq)]
pub struct Spot {
    pub layer: LayerId,
    pub area: Rect,
}

/// What a point of a plane is to the nets: free for all, free for one net alone, or for none.
#[derive(Clone, Copy, Debug, PartialEq, Eq)]
pub enum Label {
    Free,
    One(NetId),
    Many,
}

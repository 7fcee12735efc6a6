use geo_rect::{KindId, LayerId, List, Rect};

/// Where the front of an entry comes from. Source boxes and entries count from 0.
#[derive(Clone, Copy, Debug, PartialEq, Eq)]
pub enum Origin {
    /// This source box.
    Source(u64),
    /// This earlier entry, across the edge between the two strips.
    Step(u64),
    /// This earlier entry, by a via of this kind.
    Via(u64, KindId),
}

/// A front: each point of `front`, a part of the strip `strip` of the layer, is reached from a source
/// at this cost, in micrometres of wire.
#[derive(Clone, Copy, Debug, PartialEq, Eq)]
pub struct Entry {
    pub layer: LayerId,
    pub strip: Rect,
    pub front: Rect,
    pub cost: u128,
    pub origin: Origin,
}

/// A certificate of what the cheapest walk costs, in micrometres of wire; with `None`, that there is
/// no walk.
#[derive(Drop)]
pub struct Cert {
    pub bound: Option<u128>,
    pub entries: List<Entry>,
}

use geo_rect::{List, NetId};
use route_law::Routed;

/// How many connections of a net were removed.
#[derive(Clone, Copy, Debug, PartialEq, Eq)]
pub struct Ripped {
    pub net: NetId,
    pub count: u64,
}

/// What came of giving a net back the connections that it had.
#[derive(Clone, Copy, Debug, PartialEq, Eq)]
pub enum Back {
    /// All of them are made again, so many.
    Kept(NetId, u64),
    /// None of them is: the connection of this number, from 1, is the first that is no walk.
    Out(NetId, u64),
}

/// What came of routing a net through others.
#[derive(Drop)]
pub struct Through {
    /// What was removed of each of the others, in order.
    pub ripped: List<Ripped>,
    /// What came of the net.
    pub routed: Routed,
    /// What came of giving each of the others back what it had, in order.
    pub back: List<Back>,
}

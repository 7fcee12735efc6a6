use geo_rect::{ClassId, LayerId, NetId};

/// The first line of a connection.
#[derive(Clone, Copy)]
pub struct ConnHead {
    /// The number of the connection, from 1.
    pub number: u64,
    /// In micrometres of wire.
    pub cost: u128,
    /// How many legs it has.
    pub legs: u64,
}

/// The first line of a certificate.
#[derive(Clone, Copy)]
pub struct CertHead {
    /// In micrometres of wire.
    pub bound: Option<u128>,
    /// How many entries it has.
    pub entries: u64,
}

/// The line of a connection that cannot be made.
#[derive(Clone, Copy)]
pub struct NoneHead {
    /// The number that it would have, from 1.
    pub number: u64,
}

/// The first line of what came of a net.
#[derive(Clone, Copy)]
pub struct RouteHead {
    pub net: NetId,
    /// How many connections were made.
    pub made: u64,
    /// How many connections the net lacked.
    pub missing: u64,
}

/// The first line of a reply, with the number of the parts that follow.
#[derive(Clone, Copy)]
pub enum Head {
    Route(RouteHead),
    All(u64),
    /// How many connections were removed.
    Rip(NetId, u64),
    /// How many connections the net has in all when none is missing, and how many it has.
    Show(NetId, u64, u64),
    Rules(u64),
    Strips(LayerId, ClassId, u64),
}

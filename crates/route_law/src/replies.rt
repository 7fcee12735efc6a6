use crate::certs::Cert;
use board_model::{Conn, Violation};
use geo_rect::{ClassId, LayerId, List, NetId};
use plane_core::Strip;

/// A connection of a net that a command made.
#[derive(Drop)]
pub struct Made1 {
    /// Its number among the connections of the net, from 1.
    pub number: u64,
    pub conn: Conn,
    /// That no walk is cheaper: its bound is what the connection costs.
    pub cert: Cert,
}

/// A connection of a net that cannot be made.
#[derive(Drop)]
pub struct Fail {
    /// The number that it would have among the connections of the net, from 1.
    pub number: u64,
    /// That there is no walk: it has no bound.
    pub cert: Cert,
}

/// What came of making the connections that a net lacked.
#[derive(Drop)]
pub struct Routed {
    pub net: NetId,
    /// How many connections the net lacked.
    pub missing: u64,
    /// Those that were made, in order.
    pub made: List<Made1>,
    /// The next one, where fewer were made than the net lacked.
    pub none: Option<Fail>,
}

/// A connection of a net as `show` lists it.
#[derive(Drop)]
pub struct Item {
    /// Its number among the connections of the net, from 1.
    pub number: u64,
    pub conn: Conn,
}

/// The reply to a command.
#[derive(Drop)]
pub enum Reply {
    Route(Routed),
    /// What came of each net, in the order of the text.
    All(List<Routed>),
    /// How many connections of the net were removed.
    Rip(NetId, u64),
    /// How many connections the net has in all when none is missing, and those that it has.
    Show(NetId, u64, List<Item>),
    Rules(List<Violation>),
    Strips(LayerId, ClassId, List<Strip>),
}

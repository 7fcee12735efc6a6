use geo_rect::{ClassId, LayerId, NetId};

/// What a board text asks for.
#[derive(Clone, Copy)]
pub enum Command {
    /// Make the net's missing connections.
    Route(NetId),
    /// Do so for every net, in the order of the text.
    All,
    /// Remove the net's connections.
    Rip(NetId),
    /// List the net's connections.
    Show(NetId),
    /// List the violations.
    Rules,
    /// List the strips of the wire plane of a layer and a class.
    Strips(LayerId, ClassId),
}

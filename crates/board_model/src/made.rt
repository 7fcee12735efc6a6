ghost use Rattle.std.specs.Prelude.{◌≡◌, ◌<◌, length, replicate, [], All, IfOk, OnOk, OnErr};
ghost use Rattle.board_model.specs.Made.{conns_of, with_conn, without_conns};
ghost use Rattle.board_model.specs.Shapes.{end_of};
ghost use Rattle.board_model.specs.WellFormed.{AreWellFormed};

use board_parts::Board;
use geo_rect::{KindId, List, NetId, NoMemory, Node};
use std::alloc::Global;

/// A step of a connection: a wire in a line to a node of the same layer, or a via of a kind to a
/// node of another layer at the same place.
#[derive(Clone, Copy, PartialEq, Eq)]
pub enum Leg {
    Wire(Node),
    Via(KindId, Node),
}

impl Leg {
    /// The node in which the leg ends.
    pub fn end(self) -> Node
        ensures { result ≡ end_of self }
    {
        match self {
            Leg::Wire(to) => to,
            Leg::Via(_, to) => to,
        }
    }
}

/// A connection: where it starts, its legs, and its stated cost in micrometres of wire.
#[derive(Drop)]
pub struct Conn {
    pub start: Node,
    pub legs: List<Leg>,
    pub cost: u128,
}

/// The connections that are made: a list for each net, in the order of the text.
#[derive(Drop)]
pub struct Made {
    pub lists: List<List<Conn>>,
}

impl Made {
    /// No connections: an empty list for each net.
    pub fn none(alloc: Global, board: &Board) -> Result<Made, NoMemory>
        ensures lists { IfOk result
            (λ m. m.lists ≡ replicate (length board.now.parts.net_names) []) }
        ensures nets { IfOk result (λ m. length m.lists ≡ length board.now.parts.net_names) }
        ensures none_made { IfOk result (λ m. All (λ conns. conns ≡ []) m.lists) }
        ensures well_formed { IfOk result (λ m. AreWellFormed board.now.parts m.lists) }
    {
        let mut lists = List::new(alloc);
        for _net in 0..board.nets() {
            lists.push(List::new(alloc))?;
        }
        Ok(Made { lists })
    }

    /// The connections of a net, in the order in which they were made.
    pub fn conns(&self, n: NetId) -> &[Conn]
        requires { n.0 < length self.now.lists }
        ensures { result.now ≡ conns_of self.now.lists n }
    {
        self.lists.as_slice()[n.0 as usize].as_slice()
    }

    /// Adds a connection to a net, after those that it has. After `NoMemory` nothing has changed.
    pub fn append(&mut self, n: NetId, conn: Conn) -> Result<(), NoMemory>
        requires { n.0 < length self.old.lists }
        ensures ok { OnOk result (self.new.lists ≡ with_conn self.old.lists n conn) }
        ensures err { OnErr result (self.new.lists ≡ self.old.lists) }
    {
        self.lists.items[n.0 as usize].push(conn)
    }

    /// Removes the connections of a net. It takes no memory.
    pub fn clear(&mut self, n: NetId)
        requires { n.0 < length self.old.lists }
        ensures { self.new.lists ≡ without_conns self.old.lists n }
    {
        self.lists.items[n.0 as usize].items.clear();
    }
}

/// The same connections once more.
pub fn copy_conns(alloc: Global, conns: &[Conn]) -> Result<List<Conn>, NoMemory>
    ensures { IfOk result (λ list. list ≡ conns.now) }
{
    let mut list = List::new(alloc);
    for conn in conns {
        list.push(Conn {
            start: conn.start,
            legs: List::from_slice(alloc, conn.legs.as_slice())?,
            cost: conn.cost,
        })?;
    }
    Ok(list)
}

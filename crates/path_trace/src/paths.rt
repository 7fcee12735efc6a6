//! A path, built from the end of a connection back to its start.

ghost use Rattle.std.specs.Prelude.{◌≡◌, ◌↔◌, [], ◌∷◌, IsTrue, OnOk, slice_get};
ghost use Rattle.board_model.specs.declared.made.Leg.TheVariants.{Wire, Via};
ghost use Rattle.board_model.specs.WellFormed.{IsCorner, AreSteps};
ghost use Rattle.route_law.specs.Connections.{IsStraight};
ghost use Rattle.path_trace.specs.Lines.{GoesStraight};
ghost use Rattle.geo_rect.specs.declared.ids.NetId.{NetId as Net};
ghost use Rattle.board_model.specs.Shapes.{place_of};
ghost use Rattle.plane_set.specs.Standing.{PlaneTable};
ghost use Rattle.route_law.specs.Connections.{cost_of_legs};
ghost use Rattle.strip_moves.specs.Grounds.{ground_of};
ghost use Rattle.path_trace.specs.Paths.{node_at, legs_of, IsLed, IsLedFrom};

use crate::costs::cost_of;
use crate::lines::{goes_on, is_one_place};
use crate::points::{bend, node_at, place_of};
use board_model::{Board, Conn, Leg};
use geo_rect::{KindId, LayerId, List, NoMemory, Node, Point};
use std::alloc::Global;

/// Where a path starts, and its legs, the last one first.
#[derive(Drop)]
pub struct Path {
    pub start: Node,
    back: List<Leg>,
}

impl Path {
    /// The path without legs. It takes no memory.
    pub fn at(alloc: Global, end: Node) -> Path
        ensures start { result.start ≡ end }
        ensures legs { legs_of result ≡ [] }
    {
        Path {
            start: end,
            back: List::new(alloc),
        }
    }

    /// The leg with which the path starts.
    fn next_leg(&self) -> Option<Leg>
        ensures { result ≡ slice_get (legs_of self.now) 0 }
    {
        self.back.as_slice().last().copied()
    }

    /// Whether the path starts with a wire that goes on in the direction of one from `from`.
    fn goes_straight(&self, from: Node) -> bool
        ensures { IsTrue result ↔ GoesStraight from self.now.start (legs_of self.now) }
    {
        match self.next_leg() {
            None => false,
            Some(leg) => goes_on_by(from, self.start, leg),
        }
    }

    /// Puts a straight wire from this node before the path, as one with the wire in whose line it is.
    pub fn push_wire(&mut self, from: Node) -> Result<(), NoMemory>
        ensures { OnOk result (IsStraight from self.old.start → IsLed from (Wire self.old.start) self.old self.new) }
    {
        if is_one_place(from, self.start) {
            return Ok(());
        }
        if self.goes_straight(from) {
            self.start = from;
            return Ok(());
        }
        self.back.push(Leg::Wire(self.start))?;
        self.start = from;
        Ok(())
    }

    /// Puts a via of this kind, from this layer, before the path.
    pub fn push_via(&mut self, kind: KindId, layer: LayerId) -> Result<(), NoMemory>
        ensures { OnOk result (IsLed (node_at layer (place_of self.old.start)) (Via kind self.old.start) self.old self.new) }
    {
        let end = self.start;
        self.back.push(Leg::Via(kind, end))?;
        self.start = node_at(layer, place_of(end));
        Ok(())
    }

    /// Puts wires before the path that lead from this point of its layer, first along the point's row
    /// and then along the column in which the path starts.
    pub fn lead_from(&mut self, from: Point) -> Result<(), NoMemory>
        ensures { OnOk result (IsLedFrom from self.old self.new) }
    {
        let end = self.start;
        self.push_wire(node_at(end.layer, bend(from, end)))?;
        self.push_wire(node_at(end.layer, from))
    }

    /// The path as a connection with its cost.
    pub fn into_conn(self, board: &Board) -> Conn
        requires start { IsCorner board.now.parts self.start }
        requires steps { AreSteps board.now.parts self.start (legs_of self) }
        ensures start { result.start ≡ self.start }
        ensures legs { result.legs ≡ legs_of self }
        ensures cost { (set : PlaneTable) (n : Net) → result.cost ≡ cost_of_legs (ground_of board.now.parts set n) self.start (legs_of self) }
    {
        let start = self.start;
        let mut legs = self.back;
        legs.items.reverse();
        let cost = cost_of(board, start, legs.as_slice());
        Conn { start, legs, cost }
    }
}

/// Whether the leg from `through` is a wire that goes on in the direction of one from `from`.
fn goes_on_by(from: Node, through: Node, leg: Leg) -> bool
    ensures { IsTrue result ↔ GoesStraight from through (leg ∷ []) }
{
    match leg {
        Leg::Wire(to) => goes_on(from, through, to),
        Leg::Via(_, _) => false,
    }
}

ghost use Rattle.std.specs.Prelude.{◌≡◌, ◌≤◌, ◌^◌, OnOk};
ghost use Rattle.geo_rect.specs.Distance.{IsDistance};
ghost use Rattle.route_law.specs.Moves.{arrival_of};
ghost use Rattle.strip_moves.specs.Departures.{IsOnLargestBoard, IsOpen};
ghost use Rattle.strip_moves.specs.Gains.{Gains};
ghost use Rattle.strip_moves.specs.Ways.{IsThroughDoor};

use geo_rect::{LayerId, List, NetId, NoMemory, Rect, clamp, dist};
use route_law::{Entry, Origin};

/// A net leaves the strip of an entry for strips of a layer.
#[derive(Clone, Copy)]
pub struct Departure {
    pub net: NetId,
    pub from: Entry,
    /// What the entries in the new strips say of where they come from.
    pub origin: Origin,
    /// The layer of the new strips.
    pub layer: LayerId,
    /// What is charged beside the way, in micrometres of wire.
    pub charge: u32,
}

impl Departure {
    /// The entry in the new strip of the front that goes through the door.
    fn entry_through(self, strip: Rect, door: Rect) -> Entry
        requires open { IsOpen self }
        requires door { IsOnLargestBoard door }
        ensures origin { result.origin ≡ self.origin }
        ensures through { IsThroughDoor self strip door (arrival_of result) }
    {
        let way = way_between(self.from.front, door);
        Entry {
            layer: self.layer,
            strip,
            front: clamp(self.from.front, door),
            cost: self.from.cost + u128::from(way) + u128::from(self.charge),
            origin: self.origin,
        }
    }

    /// Adds the entry in the new strip of the front that goes through the door.
    pub fn push_through(
        self,
        moves: &mut List<Entry>,
        strip: Rect,
        door: Rect,
    ) -> Result<(), NoMemory>
        requires open { IsOpen self }
        requires door { IsOnLargestBoard door }
        ensures { OnOk result (Gains moves.old moves.new self.origin (IsThroughDoor self strip door)) }
    {
        moves.push(self.entry_through(strip, door))
    }
}

/// The least distance between two rectangles of a board.
fn way_between(a: Rect, b: Rect) -> u64
    requires first { IsOnLargestBoard a }
    requires second { IsOnLargestBoard b }
    ensures exact { IsDistance a b result }
    ensures short { result ≤ 2 ^ 24 }
{
    dist(a, b)
}

//! Which of two rounds is the better one.

ghost use Rattle.std.specs.Prelude.{◌≡◌, ◌↔◌, length, IsTrue};
ghost use Rattle.demo_text.specs.Bounds.{AreCounted};
ghost use Rattle.auto_route.specs.Best.{complete_in, rank_of, IsBetterRank};
ghost use Rattle.auto_route.specs.States.{last_state};

use crate::orders::is_complete;
use board_model::{Board, Made};
use demo_text::cost_in;
use geo_rect::NetId;
use route_law::Routed;

/// What counts of a round.
#[derive(Clone, Copy)]
pub struct Rank {
    /// How many nets lack no connection at its end.
    pub complete: u32,
    /// What all its connections cost together, in micrometres of wire.
    pub cost: u128,
}

impl Rank {
    /// Whether more nets are complete than of the other, or as many for a smaller cost.
    pub fn is_better(self, other: Rank) -> bool
        ensures { IsTrue result ↔ IsBetterRank self other }
    {
        if self.complete == other.complete {
            return self.cost < other.cost;
        }
        self.complete > other.complete
    }
}

/// How many nets lack no connection.
pub fn complete_in(board: &Board, made: &Made) -> u32
    requires nets { length made.now.lists ≡ length board.now.parts.net_names }
    ensures { result ≡ complete_in board.now.parts made.now.lists }
{
    let mut complete = 0;
    for number in 0..board.nets() {
        if is_complete(board, made, NetId(number)) {
            complete += 1;
        }
    }
    complete
}

/// The rank of a round that has led to what is made.
pub fn rank_of(board: &Board, made: &Made, round: &[Routed]) -> Rank
    requires nets { length made.now.lists ≡ length board.now.parts.net_names }
    requires made { made.now.lists ≡ last_state board.now.parts round.now }
    requires counted { AreCounted round.now }
    ensures { result ≡ rank_of board.now.parts round.now }
{
    Rank {
        complete: complete_in(board, made),
        cost: cost_in(round),
    }
}

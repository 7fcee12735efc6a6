//! What came of rounds of routing.

ghost use Rattle.std.specs.Prelude.{◌≡◌, ◌≤◌, length};
ghost use Rattle.auto_route.specs.Best.{round_at};

use geo_rect::List;
use route_law::Routed;

/// The rounds, and which of them is the best.
#[derive(Drop)]
pub struct Auto {
    /// For each round what came of each net, in the order in which the nets were routed.
    pub rounds: List<List<Routed>>,
    /// The number of the best round, from 1.
    pub best: u32,
}

impl Auto {
    /// What came of each net in the best round.
    pub fn best_round(&self) -> &[Routed]
        requires from { 1 ≤ self.now.best }
        requires to { self.now.best ≤ length self.now.rounds }
        ensures { result.now ≡ round_at self.now.rounds self.now.best }
    {
        self.rounds.as_slice()[self.best as usize - 1].as_slice()
    }
}

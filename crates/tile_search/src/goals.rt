ghost use Rattle.std.specs.Prelude.{◌≡◌};
ghost use Rattle.tile_search.specs.Goals.{lesser_of, lesser_goal};

use geo_rect::Node;

/// A node of a target box that a settled front comes to within its strip.
#[derive(Clone, Copy)]
pub struct Goal {
    /// What it costs to come there, in micrometres of wire.
    pub cost: u128,
    /// The number of the entry of the settled front, from 0.
    pub entry: u64,
    /// The node.
    pub end: Node,
}

/// The cheaper of two goals, of which one or both may be absent; the first where both cost the same.
pub fn cheaper(a: Option<Goal>, b: Option<Goal>) -> Option<Goal>
    ensures { result ≡ lesser_of a b }
{
    match (a, b) {
        (None, b) => b,
        (Some(m), None) => Some(m),
        (Some(m), Some(n)) => Some(cheaper_goal(m, n)),
    }
}

/// The cheaper of two goals, the first where both cost the same.
fn cheaper_goal(a: Goal, b: Goal) -> Goal
    ensures { result ≡ lesser_goal a b }
{
    if b.cost < a.cost { b } else { a }
}

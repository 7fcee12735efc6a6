//! The next front to settle.
ghost use Rattle.std.specs.Prelude.{◌≡◌, ◌↔◌, All, IsTrue, IfSome, IfNone};
ghost use Rattle.tile_search.specs.Waits.{HasBoundedFront, IsLate, IsNext, AreNeedless};

use crate::goals::Goal;
use route_law::Entry;
use wavefront::{Queue, Table};

/// Whether a goal is found that costs no more than this.
fn is_late(best: Option<Goal>, key: u128) -> bool
    ensures { IsTrue result ↔ IsLate best key }
{
    match best {
        None => false,
        Some(goal) => goal.cost <= key,
    }
}

/// Takes out the front of the least key that waits and is not covered by a settled one; `None` where no
/// front is left whose key is less than what the best goal costs. Fronts that are covered are dropped.
pub fn next_front(queue: &mut Queue, table: &Table, best: Option<Goal>) -> Option<Entry>
    requires { All HasBoundedFront queue.old.pairs }
    ensures some { IfSome result (λ e. IsNext table.now best queue.old.pairs queue.new.pairs e) }
    ensures none { IfNone result (AreNeedless table.now best queue.old.pairs) }
    ensures pushes { queue.new.pushes ≡ queue.old.pushes }
{
    while let Some((key, e)) = queue.pop() {
        if is_late(best, key) {
            return None;
        }
        if !table.covered(e.layer, e.strip, e.front, e.cost) {
            return Some(e);
        }
    }
    None
}

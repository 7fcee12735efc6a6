ghost use Rattle.std.specs.Prelude.{◌≡◌, ◌≤◌, length, All, IfOk};
ghost use Rattle.route_law.specs.Regular.{IsRegularRouted};
ghost use Rattle.auto_route.specs.Best.{IsBestRound, round_at};
ghost use Rattle.auto_route.specs.Rounds.{AreRounds};
ghost use Rattle.auto_route.specs.States.{last_state};

use crate::given_back::give_back;
use crate::told::Auto;
use crate::tours::play_rounds;
use geo_rect::NoMemory;
use plane_core::Plane;
use session_core::Session;
use std::alloc::Global;

/// Plays as many rounds, from 1 to 100, and keeps the best one. In each round all connections are
/// removed, and then every net is routed once. The first round has the nets in the order of the
/// text. Each other one has first the nets that lacked a connection at the end of the round before,
/// then the others, each part in the order that it had. The session that comes back has exactly the
/// connections of the best round. After `NoMemory` the session is gone.
pub fn auto<P: Plane>(
    alloc: Global,
    s: Session<P>,
    rounds: u32,
) -> Result<(Session<P>, Auto), NoMemory>
    requires some { 1 ≤ rounds }
    requires few { rounds ≤ 100 }
    ensures board { IfOk result (λ a. a.0.parts ≡ s.parts) }
    ensures count { IfOk result (λ a. length a.1.rounds ≡ rounds) }
    ensures rounds { IfOk result (λ a. AreRounds s.parts a.1.rounds) }
    ensures best { IfOk result (λ a. IsBestRound s.parts a.1.rounds a.1.best) }
    ensures state { IfOk result (λ a. a.0.lists ≡ last_state s.parts (round_at a.1.rounds a.1.best)) }
    ensures regular { IfOk result (λ a. All (All (IsRegularRouted s.parts)) a.1.rounds) }
{
    let (played, told) = play_rounds(alloc, s, rounds)?;
    let session = give_back(alloc, played, told.best_round())?;
    Ok((session, told))
}

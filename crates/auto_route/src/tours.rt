//! Rounds, one after another, and which of them is the best so far.

ghost use Rattle.std.specs.Prelude.{◌≡◌, ◌+◌, ◌^◌, ◌<◌, ◌≤◌, ◌++◌, ◌∷◌, [], length, All, IfOk, OnOk};
ghost use Rattle.route_law.specs.Regular.{IsRegularRouted};
ghost use Rattle.auto_route.specs.Best.{IsBestRound};
ghost use Rattle.auto_route.specs.Rounds.{AreRounds, IsRound};
ghost use Rattle.auto_route.specs.States.{last_state};
ghost use Rattle.auto_route.specs.Tours.{IsRanked, IsTour};

use crate::orders::{next_order, text_order};
use crate::plays::play;
use crate::ranks::{Rank, rank_of};
use crate::told::Auto;
use board_model::{Board, Made};
use geo_rect::{List, NetId, NoMemory};
use plane_core::Plane;
use route_law::Routed;
use session_core::Session;
use std::alloc::Global;

/// The rounds so far, the order of the next one, and the number, from 1, and the rank of the best
/// one, where there is one already.
#[derive(Drop)]
pub struct Tour {
    pub rounds: List<List<Routed>>,
    pub order: List<NetId>,
    pub best: u32,
    pub rank: Rank,
}

impl Tour {
    /// No round was played yet. The first has the nets in the order of the text.
    fn start(alloc: Global, board: &Board) -> Result<Tour, NoMemory>
        ensures tour { IfOk result (λ tour. IsTour board.now.parts tour) }
        ensures none { IfOk result (λ tour. tour.rounds ≡ []) }
    {
        Ok(Tour {
            rounds: List::new(alloc),
            order: text_order(alloc, board)?,
            best: 0,
            rank: Rank {
                complete: 0,
                cost: 0,
            },
        })
    }

    /// Adds the next round, which has led to what is made.
    fn add(
        &mut self,
        alloc: Global,
        board: &Board,
        made: &Made,
        round: List<Routed>,
    ) -> Result<(), NoMemory>
        requires tour { IsTour board.now.parts self.old }
        requires few { length self.old.rounds + 1 < 2 ^ 32 }
        requires nets { length made.now.lists ≡ length board.now.parts.net_names }
        requires round { IsRound board.now.parts self.old.order round }
        requires regular { All (IsRegularRouted board.now.parts) round }
        requires made { made.now.lists ≡ last_state board.now.parts round }
        ensures tour { OnOk result (IsTour board.now.parts self.new) }
        ensures added { OnOk result (self.new.rounds ≡ self.old.rounds ++ round ∷ []) }
        ensures count { OnOk result (length self.new.rounds ≡ length self.old.rounds + 1) }
    {
        let rank = rank_of(board, made, round.as_slice());
        let next = next_order(alloc, board, made, self.order.as_slice())?;
        self.rank_next(rank);
        self.order = next;
        self.rounds.push(round)?;
        Ok(())
    }

    /// Makes the next round the best one, if it is the first or its rank is better.
    fn rank_next(&mut self, rank: Rank)
        requires { length self.old.rounds + 1 < 2 ^ 32 }
        ensures { IsRanked self.old rank self.new }
    {
        if !self.rounds.is_empty() {
            if !rank.is_better(self.rank) {
                return;
            }
        }
        self.best = self.rounds.len() as u32 + 1;
        self.rank = rank;
    }
}

/// Plays the next round.
fn play_next<P: Plane>(
    alloc: Global,
    s: Session<P>,
    tour: &mut Tour,
) -> Result<Session<P>, NoMemory>
    requires tour { IsTour s.parts tour.old }
    requires few { length tour.old.rounds + 1 < 2 ^ 32 }
    ensures board { IfOk result (λ a. a.parts ≡ s.parts) }
    ensures tour { IfOk result (λ _. IsTour s.parts tour.new) }
    ensures count { IfOk result (λ _. length tour.new.rounds ≡ length tour.old.rounds + 1) }
{
    let (session, round) = play(alloc, s, tour.order.as_slice())?;
    tour.add(alloc, session.board(), session.made(), round)?;
    Ok(session)
}

/// Plays as many rounds, and tells them and the best one.
pub fn play_rounds<P: Plane>(
    alloc: Global,
    s: Session<P>,
    count: u32,
) -> Result<(Session<P>, Auto), NoMemory>
    requires some { 1 ≤ count }
    requires few { count ≤ 100 }
    ensures board { IfOk result (λ a. a.0.parts ≡ s.parts) }
    ensures count { IfOk result (λ a. length a.1.rounds ≡ count) }
    ensures rounds { IfOk result (λ a. AreRounds s.parts a.1.rounds) }
    ensures best { IfOk result (λ a. IsBestRound s.parts a.1.rounds a.1.best) }
    ensures regular { IfOk result (λ a. All (All (IsRegularRouted s.parts)) a.1.rounds) }
{
    let mut session = s;
    let mut tour = Tour::start(alloc, session.board())?;
    for _number in 0..count {
        session = play_next(alloc, session, &mut tour)?;
    }
    let Tour { rounds, best, .. } = tour;
    Ok((session, Auto { rounds, best }))
}

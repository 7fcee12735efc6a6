//! The search under way: what waits, what is settled, and the best goal so far.
ghost use Rattle.std.specs.Prelude.{◌≡◌, ◌+◌, ◌*◌, ◌^◌, ◌<◌, ◌≤◌, [], None, length, All, IfOk, OnOk};
ghost use Rattle.plane_set.specs.Standing.{HasPlanes};
ghost use Rattle.route_law.specs.Right.{IsRight, IsWellPlaced};
ghost use Rattle.strip_moves.specs.Grounds.{ground_of};
ghost use Rattle.strip_moves.specs.Boxes.{IsBoardBox};
ghost use Rattle.tile_search.specs.Goals.{IsLeastGoal, IsGoalAmong};
ghost use Rattle.tile_search.specs.Keys.{IsOrderedToBest};
ghost use Rattle.tile_search.specs.Once.{AreSettledOnce};
ghost use Rattle.tile_search.specs.Underway.{IsUnderway, IsSettled, cert_of};

use crate::ends::goal_of;
use crate::fronts::next_front;
use crate::goals::{Goal, cheaper};
use crate::pushes::{push_entries, push_starts};
use board_model::Board;
use geo_rect::{NetId, NoMemory, Spot};
use plane_core::Plane;
use plane_set::PlaneSet;
use route_law::Entry;
use std::alloc::Global;
use strip_moves::moves_of;
use wavefront::{Queue, Table};

/// A search: the fronts that wait, each under its key, those that are settled, and the cheapest node
/// of a target box that a settled front comes to within its strip.
#[derive(Drop)]
pub struct Search {
    pub queue: Queue,
    pub table: Table,
    pub best: Option<Goal>,
}

impl Search {
    /// The search in which all starts of the source boxes wait, and nothing is settled.
    pub fn start<P: Plane>(
        alloc: Global,
        board: &Board,
        planes: &PlaneSet<P>,
        net: NetId,
        sources: &[Spot],
        targets: &[Spot],
    ) -> Result<Search, NoMemory>
        requires planes { HasPlanes board.now.parts planes.now }
        requires net { net.0 < length board.now.parts.net_names }
        requires sources { All (IsBoardBox board.now.parts) sources.now }
        requires target { 0 < length targets.now }
        requires targets { All (IsBoardBox board.now.parts) targets.now }
        ensures { IfOk result (λ s. IsUnderway (ground_of board.now.parts planes.now net) sources.now targets.now s) }
    {
        let mut queue = Queue::new(alloc);
        push_starts(alloc, board, planes, net, sources, targets, &mut queue)?;
        Ok(Search {
            queue,
            table: Table::new(alloc),
            best: None,
        })
    }

    /// Settles the front of an entry: it may be the best way to a target box, and all its moves wait
    /// from now on.
    fn settle<P: Plane>(
        &mut self,
        alloc: Global,
        board: &Board,
        planes: &PlaneSet<P>,
        net: NetId,
        targets: &[Spot],
        e: Entry,
    ) -> Result<(), NoMemory>
        requires planes { HasPlanes board.now.parts planes.now }
        requires net { net.0 < length board.now.parts.net_names }
        requires target { 0 < length targets.now }
        requires targets { All (IsBoardBox board.now.parts) targets.now }
        requires placed { IsWellPlaced (ground_of board.now.parts planes.now net) e }
        requires cost { e.cost ≤ length self.old.table * 2 ^ 28 }
        requires pushes { self.old.queue.pushes ≤ 2 ^ 126 + length self.old.table * 2 ^ 63 }
        ensures { OnOk result (IsSettled (ground_of board.now.parts planes.now net) targets.now self.old self.new e) }
    {
        let number = self.table.entries().len() as u64;
        self.table.settle(e)?;
        self.best = cheaper(self.best, goal_of(targets, number, e));
        let moves = moves_of(alloc, board, planes, net, number, e)?;
        push_entries(&mut self.queue, targets, moves.as_slice())?;
        Ok(())
    }

    /// Settles one front after the other, that of the least key first, until no front that waits is of use.
    /// It ends, since no front is settled twice and the table has room for fewer than 2^63.
    pub fn run<P: Plane>(
        &mut self,
        alloc: Global,
        board: &Board,
        planes: &PlaneSet<P>,
        net: NetId,
        sources: &[Spot],
        targets: &[Spot],
    ) -> Result<(), NoMemory>
        requires planes { HasPlanes board.now.parts planes.now }
        requires net { net.0 < length board.now.parts.net_names }
        requires target { 0 < length targets.now }
        requires targets { All (IsBoardBox board.now.parts) targets.now }
        requires underway { IsUnderway (ground_of board.now.parts planes.now net) sources.now targets.now self.old }
        ensures right { OnOk result (IsRight (ground_of board.now.parts planes.now net) sources.now targets.now (cert_of self.new.table self.new.best)) }
        ensures best { OnOk result (IsLeastGoal (IsGoalAmong targets.now self.new.table) self.new.best) }
        ensures once { OnOk result (AreSettledOnce targets.now self.new.table) }
        ensures ordered { OnOk result (IsOrderedToBest targets.now self.new.table self.new.best) }
    {
        while let Some(e) = next_front(&mut self.queue, &self.table, self.best) {
            self.settle(alloc, board, planes, net, targets, e)?;
        }
        Ok(())
    }
}

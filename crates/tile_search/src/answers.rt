//! The answer of a search.
ghost use Rattle.std.specs.Prelude.{◌<◌, ◌↔◌, length, All, IfOk};
ghost use Rattle.plane_set.specs.Standing.{HasPlanes};
ghost use Rattle.route_law.specs.Walks.{HasNoJoiningWalk};
ghost use Rattle.strip_moves.specs.Grounds.{ground_of};
ghost use Rattle.tile_search.specs.Answers.{IsAnswerOf, HasRightPath, HasPathEnd, HasRightRefusal, HasLeastCost, HasEachFrontOnce, HasGoalOrder, IsNoRoute};
ghost use Rattle.strip_moves.specs.Boxes.{IsBoardBox};

use crate::searches::Search;
use board_model::Board;
use geo_rect::{List, NetId, NoMemory, Node, Spot};
use plane_core::Plane;
use plane_set::PlaneSet;
use route_law::Cert;
use std::alloc::Global;

/// What a search found.
#[derive(Drop)]
pub enum Found {
    /// The cheapest walk costs this, in micrometres of wire. The front of this entry of the certificate
    /// comes within its strip to `end`, a node of a target box, at this cost in all.
    Path {
        cost: u128,
        entry: u64,
        end: Node,
        cert: Cert,
    },
    /// No walk leads from a source box to a target box.
    NoRoute {
        cert: Cert,
    },
}

/// The cheapest walk of the net from a source box to a target box, with a certificate that none is
/// cheaper, or one that there is none. The source boxes and the target boxes lie on the board, and there
/// is a target box.
pub fn search<P: Plane>(
    alloc: Global,
    board: &Board,
    planes: &PlaneSet<P>,
    net: NetId,
    sources: &[Spot],
    targets: &[Spot],
) -> Result<Found, NoMemory>
    requires planes { HasPlanes board.now.parts planes.now }
    requires net { net.0 < length board.now.parts.net_names }
    requires sources { All (IsBoardBox board.now.parts) sources.now }
    requires target { 0 < length targets.now }
    requires targets { All (IsBoardBox board.now.parts) targets.now }
    ensures path { IfOk result (HasRightPath (ground_of board.now.parts planes.now net) sources.now targets.now) }
    ensures path_end { IfOk result (HasPathEnd targets.now) }
    ensures path_least { IfOk result (HasLeastCost (ground_of board.now.parts planes.now net) sources.now targets.now) }
    ensures none { IfOk result (HasRightRefusal (ground_of board.now.parts planes.now net) sources.now targets.now) }
    ensures none_exactly { IfOk result (λ found. IsNoRoute found
        ↔ HasNoJoiningWalk (ground_of board.now.parts planes.now net) sources.now targets.now) }
    ensures each_once { IfOk result (HasEachFrontOnce targets.now) }
    ensures goes_to_the_goal { IfOk result (HasGoalOrder targets.now) }
{
    let mut searched = Search::start(alloc, board, planes, net, sources, targets)?;
    searched.run(alloc, board, planes, net, sources, targets)?;
    answer_of(alloc, &searched)
}

/// The answer that a search comes to.
fn answer_of(alloc: Global, searched: &Search) -> Result<Found, NoMemory>
    ensures { IfOk result (IsAnswerOf searched.now.table searched.now.best) }
{
    let entries = List::from_slice(alloc, searched.table.entries())?;
    match searched.best {
        None => Ok(Found::NoRoute {
            cert: Cert {
                bound: None,
                entries,
            },
        }),
        Some(goal) => Ok(Found::Path {
            cost: goal.cost,
            entry: goal.entry,
            end: goal.end,
            cert: Cert {
                bound: Some(goal.cost),
                entries,
            },
        }),
    }
}

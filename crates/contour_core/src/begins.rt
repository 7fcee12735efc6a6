ghost use Rattle.std.specs.Prelude.{◌≡◌, IfOk};
ghost use Rattle.route_law.specs.Steps.{nothing_made};

use board_model::Board;
use geo_rect::NoMemory;
use session_core::Session;
use std::alloc::Global;
use strip_merge::StitchedPlane;

/// The session that every call begins with: of the board, with nothing made, over planes of linked tiles.
pub fn begin(alloc: Global, board: Board) -> Result<Session<StitchedPlane>, NoMemory>
    ensures board { IfOk result (λ s. s.parts ≡ board.parts) }
    ensures nothing { IfOk result (λ s. s.lists ≡ nothing_made board.parts) }
{
    Session::start(alloc, board)
}

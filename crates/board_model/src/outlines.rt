ghost use Rattle.std.specs.Prelude.{◌↔◌, IsTrue};
ghost use Rattle.board_parts.specs.Rules.{IsOnBoard};

use board_parts::BoardParts;
use geo_rect::Rect;

/// Whether each point of the area is one of the board. The area may touch the edge.
pub fn has_area(parts: &BoardParts, area: Rect) -> bool
    ensures { IsTrue result ↔ IsOnBoard parts.now.width parts.now.height area }
{
    if area.x0 < 0 {
        return false;
    }
    if area.y0 < 0 {
        return false;
    }
    if area.x1 > parts.width {
        return false;
    }
    if area.y1 > parts.height {
        return false;
    }
    true
}

//! The ends of a board's side, on one axis.

ghost use Rattle.board_parts.specs.Rules.{IsSide, IsMeasure};
ghost use Rattle.grow_rules.specs.Frames.{IsWhole, IsLowEnd, IsHighEnd};

use geo_rect::Interval;

/// The whole side.
pub fn whole(size: i32) -> Interval
    requires { IsSide size }
    ensures { IsWhole size result }
{
    Interval { low: 0, high: size }
}

/// The numbers of the side that are less than `half` from its low end.
pub fn low_end(size: i32, half: i32) -> Interval
    requires size { IsSide size }
    requires half { IsMeasure half }
    ensures { IsLowEnd size half result }
{
    Interval {
        low: 0,
        high: size.min(half - 1),
    }
}

/// The numbers of the side that are less than `half` from its high end.
pub fn high_end(size: i32, half: i32) -> Interval
    requires size { IsSide size }
    requires half { IsMeasure half }
    ensures { IsHighEnd size half result }
{
    let low = size - half + 1;
    Interval {
        low: low.max(0),
        high: size,
    }
}

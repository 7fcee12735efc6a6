//! What the geometry of rectangles asks of one axis.

ghost use Rattle.std.specs.Prelude.{◌≡◌, ◌^◌, ◌≤◌, ◌+ℤ◌, pos, ◌≤ℤ◌, int_lt, IfSome, IfNone};
ghost use Rattle.geo_rect.specs.Tests.{are_near};
ghost use Rattle.geo_rect.specs.Axis.{IsSmall, IsGap, IsOverlap, ShareNoNumber, IsWidened, just};
ghost use Rattle.geo_rect.specs.Line.{IsGapBetween, IsFarthest, IsImage, HasImages};

use crate::shapes::Interval;

/// The common numbers of `a` and `b`; `None` where there are none.
pub fn overlap(a: Interval, b: Interval) -> Option<Interval>
    ensures some { IfSome result (λ r. IsOverlap a b r) }
    ensures none { IfNone result (ShareNoNumber a b) }
{
    let low = a.low.max(b.low);
    let high = a.high.min(b.high);
    if low > high {
        return None;
    }
    Some(Interval { low, high })
}

/// Whether `from` comes before the number that is `s` after `to`.
fn begins_before(from: i32, to: i32, s: i32) -> bool
    ensures { result ≡ int_lt from (to +ℤ s) }
{
    i64::from(from) < i64::from(to) + i64::from(s)
}

/// Whether what separates `a` and `b` is less than `s`.
pub fn near(a: Interval, b: Interval, s: i32) -> bool
    ensures { result ≡ are_near a b s }
{
    if !begins_before(b.low, a.high, s) {
        return false;
    }
    begins_before(a.low, b.high, s)
}

/// The numbers that are less than `g` away from `i`. Here `g` is at least 1.
pub fn widened(i: Interval, g: i32) -> Interval
    requires small { IsSmall i }
    requires gap { IsGap g }
    requires some { pos 1 ≤ℤ g }
    ensures { IsWidened i g result }
{
    Interval {
        low: i.low - g + 1,
        high: i.high + g - 1,
    }
}

/// The one number `v`.
pub fn just(v: i32) -> Interval
    ensures { result ≡ just v }
{
    Interval { low: v, high: v }
}

/// The least distance from a number of `a` to a number of `b`.
pub fn gap_between(a: Interval, b: Interval) -> u32
    requires first { IsSmall a }
    requires second { IsSmall b }
    ensures exact { IsGapBetween a b result }
    ensures small { result ≤ 2 ^ 26 }
{
    if a.high < b.low {
        return (b.low - a.high) as u32;
    }
    if b.high < a.low {
        return (a.low - b.high) as u32;
    }
    0
}

/// The greatest distance from `a` to a number of `b`.
pub fn farthest(a: Interval, b: Interval) -> u32
    requires first { IsSmall a }
    requires second { IsSmall b }
    ensures exact { IsFarthest a b result }
    ensures small { result ≤ 2 ^ 26 }
{
    let before = a.low - b.low;
    let after = b.high - a.high;
    if before > after.max(0) {
        return before as u32;
    }
    if after > 0 {
        return after as u32;
    }
    0
}

/// The image of `v` under clamping into `e`.
pub fn image(v: i32, e: Interval) -> i32
    ensures { IsImage e v result }
{
    v.max(e.low).min(e.high)
}

/// The images in `e` of the numbers of `i`.
pub fn images(i: Interval, e: Interval) -> Interval
    ensures { HasImages i e result }
{
    Interval {
        low: image(i.low, e),
        high: image(i.high, e),
    }
}

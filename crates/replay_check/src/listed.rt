//! Whether lists are the same.

ghost use Rattle.std.specs.Prelude.{◌≡◌, ◌↔◌, IsTrue};
ghost use Rattle.route_law.specs.Steps.{items_from};
ghost use Rattle.replay_check.specs.Items.{item_at};

use board_model::{Conn, Leg, Owned, Violation};
use geo_rect::{Rect, same_rect};
use plane_core::Strip;
use route_law::Item;

/// What can be told from others of its type.
pub trait Same {
    /// Whether both are the same.
    fn is_same(&self, other: &Self) -> bool
        ensures { IsTrue result ↔ (self.now ≡ other.now) };
}

impl Same for Rect {
    fn is_same(&self, other: &Rect) -> bool {
        same_rect(*self, *other)
    }
}

impl Same for Strip {
    fn is_same(&self, other: &Strip) -> bool {
        if !self.area.is_same(&other.area) {
            return false;
        }
        self.label == other.label
    }
}

impl Same for Owned {
    fn is_same(&self, other: &Owned) -> bool {
        if !self.area.is_same(&other.area) {
            return false;
        }
        self.owner == other.owner
    }
}

impl Same for Violation {
    fn is_same(&self, other: &Violation) -> bool {
        match (self, other) {
            (Violation::Close(l, a, b), Violation::Close(m, c, d)) => {
                if *l != *m {
                    return false;
                }
                if !a.is_same(c) {
                    return false;
                }
                b.is_same(d)
            }
            (Violation::Outline(l, a), Violation::Outline(m, c)) => {
                if *l != *m {
                    return false;
                }
                a.is_same(c)
            }
            _ => false,
        }
    }
}

impl Same for Leg {
    fn is_same(&self, other: &Leg) -> bool {
        *self == *other
    }
}

/// Whether both lists have the same items, in the same order.
pub fn are_same<T: Same>(a: &[T], b: &[T]) -> bool
    ensures { IsTrue result ↔ (a.now ≡ b.now) }
{
    if a.len() != b.len() {
        return false;
    }
    for i in 0..a.len() {
        if !a[i].is_same(&b[i]) {
            return false;
        }
    }
    true
}

/// Whether both are the same connection, of the same stated cost.
fn is_same_conn(a: &Conn, b: &Conn) -> bool
    ensures { IsTrue result ↔ (a.now ≡ b.now) }
{
    if a.start != b.start {
        return false;
    }
    if !are_same(a.legs.as_slice(), b.legs.as_slice()) {
        return false;
    }
    a.cost == b.cost
}

/// Whether the item is the connection with this number.
fn is_item_of(item: &Item, k: u64, c: &Conn) -> bool
    ensures { IsTrue result ↔ (item.now ≡ item_at k c.now) }
{
    if item.number != k {
        return false;
    }
    is_same_conn(&item.conn, c)
}

/// Whether the items are the connections with their numbers, from 1.
pub fn are_items_of(items: &[Item], conns: &[Conn]) -> bool
    ensures { IsTrue result ↔ (items.now ≡ items_from 1 conns.now) }
{
    if items.len() != conns.len() {
        return false;
    }
    for i in 0..items.len() {
        if !is_item_of(&items[i], i as u64 + 1, &conns[i]) {
            return false;
        }
    }
    true
}

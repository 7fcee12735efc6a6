//! Fronts that are settled.

ghost use Rattle.std.specs.Prelude.{◌≡◌, ◌≤◌, ◌+◌, ◌↔◌, [], ◌∷◌, ◌++◌, length, All, IsTrue, IfOk, OnOk, OnErr};
ghost use Rattle.geo_rect.specs.Plane.{IsBounded};
ghost use Rattle.route_law.specs.Covers.{IsReachedBefore};
ghost use Rattle.wavefront.specs.Chains.{corner};
ghost use Rattle.wavefront.specs.Reached.{ComesBefore, IsInTime};

use geo_rect::{LayerId, NoMemory, Rect, reach, same_rect};
use route_law::Entry;
use std::alloc::Global;
use std::collections::BTreeMap;
use std::marker::Model;

/// A layer, and the lower left point of a strip on it.
type Corner = (u32, i32, i32);

/// The fronts that are settled. Contracts see the list of their entries, in the order in which they
/// were settled. The coordinates of each front lie between -2^25 and 2^25.
///
/// The entries of one corner are chained, from the latest to the first, so that those of a strip are
/// found without a look at the others.
#[derive(Drop)]
pub struct Table {
    settled: Vec<Entry>,
    /// For each entry the one before it of the same corner.
    earlier: Vec<Option<usize>>,
    /// The last entry of each corner.
    latest: BTreeMap<Corner, usize>,
}

impl Model for Table {
    ghost use Rattle.std.specs.Prelude.{List as Items, All};
    ghost use Rattle.geo_rect.specs.Plane.{IsBounded};
    ghost use Rattle.route_law.specs.declared.certs.Entry.{Entry as Settled};
    ghost use Rattle.wavefront.specs.Chains.{AreChained};

    ghost Value = { Items Settled };

    ghost view = { λ t. t.settled.items };

    ghost invariant = { λ t. All (λ e. IsBounded e.front) t.settled.items × AreChained t.settled.items t.earlier.items t.latest };
}

impl Table {
    /// The table in which nothing is settled. It takes no memory.
    pub fn new(alloc: Global) -> Table
        ensures { result ≡ [] }
    {
        Table {
            settled: Vec::new(alloc),
            earlier: Vec::new(alloc),
            latest: BTreeMap::new(alloc),
        }
    }

    /// Whether some settled front of this layer and strip comes to each point of `front` for at most
    /// `cost`. The coordinates of `front` lie between -2^25 and 2^25.
    pub fn covered(&self, layer: LayerId, strip: Rect, front: Rect, cost: u128) -> bool
        requires { IsBounded front }
        ensures { IsTrue result ↔ IsReachedBefore self.now (record { layer = layer; strip = strip; front = front; cost = cost }) }
    {
        let mut next = self.latest.get(&corner(layer, strip)).copied();
        while let Some(number) = next {
            if comes_before(self.settled[number], layer, strip, front, cost) {
                return true;
            }
            next = self.earlier[number];
        }
        false
    }

    /// Settles one more front, and gives its number, from 0. Its coordinates lie between -2^25 and
    /// 2^25. After `NoMemory` the table is as before.
    pub fn settle(&mut self, e: Entry) -> Result<u64, NoMemory>
        requires { IsBounded e.front }
        ensures number { IfOk result (λ n. n ≡ length self.old) }
        ensures settled { OnOk result (self.new ≡ self.old ++ e ∷ []) }
        ensures err { OnErr result (self.new ≡ self.old) }
    {
        let number = self.settled.len();
        let place = corner(e.layer, e.strip);
        let before = self.latest.get(&place).copied();
        self.settled.reserve(1)?;
        self.earlier.reserve(1)?;
        self.latest.insert(place, number)?;
        self.settled.push(e)?;
        self.earlier.push(before)?;
        Ok(number as u64)
    }

    /// All settled fronts, in order.
    pub fn entries(&self) -> &[Entry]
        ensures entries { result.now ≡ self.now }
        ensures bounded { All (λ e. IsBounded e.front) self.now }
    {
        self.settled.as_slice()
    }
}

/// The corner of a strip.
fn corner(layer: LayerId, strip: Rect) -> Corner
    ensures { result ≡ corner layer strip }
{
    (layer.0, strip.x0, strip.y0)
}

/// Whether the entry is one of this layer and strip and comes to each point of `front` for at most
/// `cost`.
fn comes_before(e: Entry, layer: LayerId, strip: Rect, front: Rect, cost: u128) -> bool
    requires entry { IsBounded e.front }
    requires front { IsBounded front }
    ensures { IsTrue result ↔ ComesBefore e (record { layer = layer; strip = strip; front = front; cost = cost }) }
{
    if e.layer.0 != layer.0 {
        return false;
    }
    if !same_rect(e.strip, strip) {
        return false;
    }
    is_in_time(e.front, e.cost, front, cost)
}

/// Whether one comes from `from`, reached for `paid`, to each point of `front` for at most `cost`.
fn is_in_time(from: Rect, paid: u128, front: Rect, cost: u128) -> bool
    requires from { IsBounded from }
    requires front { IsBounded front }
    ensures { IsTrue result ↔ IsInTime from paid front cost }
{
    let Some(left) = cost.checked_sub(paid) else {
        return false;
    };
    u128::from(reach(from, front)) <= left
}

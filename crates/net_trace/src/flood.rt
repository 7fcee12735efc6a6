//! The groups of pieces that touch, found by flooding from piece to piece.

ghost use Rattle.std.specs.Prelude.{ℕ, ◌≡◌, ◌+◌, ◌<◌, ◌++◌, ◌∷◌, [], length, replicate, None, Some, IfOk, OnOk, sum_by, map, unwrap_or};
ghost use Rattle.net_trace.specs.Flooding.{group_at, IsReached, IsUntried, IsNoPair, IsFlood, StayReached, blank};
ghost use Rattle.net_trace.specs.Touching.{AreGroupNumbers};

use crate::copper::Piece;
use crate::touching::touch;
use geo_rect::{List, NoMemory};
use std::alloc::Global;

/// For each piece the least number, from 0, of a piece that is joined to it by a chain of pieces of
/// which each touches the one before.
pub fn groups(alloc: Global, pieces: &[Piece]) -> Result<List<u64>, NoMemory>
    ensures { IfOk result (λ numbers. AreGroupNumbers pieces.now numbers) }
{
    let mut flood = Flood::new(alloc, pieces.len())?;
    for first in 0..pieces.len() {
        flood.flood_from(pieces, first)?;
    }
    flood.numbers(alloc)
}

/// A flood: the groups that are known so far, and the pieces from which it has still to go on.
#[derive(Drop)]
struct Flood {
    groups: Vec<Option<u64>>,
    front: Vec<usize>,
}

impl Flood {
    /// No group of so many pieces is known.
    fn new(alloc: Global, count: usize) -> Result<Flood, NoMemory>
        ensures groups { IfOk result (λ flood. flood.groups.items ≡ replicate count None) }
        ensures front { IfOk result (λ flood. flood.front.items ≡ []) }
    {
        let mut groups = Vec::new(alloc);
        for _piece in 0..count {
            groups.push(None)?;
        }
        Ok(Flood {
            groups,
            front: Vec::new(alloc),
        })
    }

    /// Floods from a piece, if its group is not known. Those of all pieces before it are.
    fn flood_from(&mut self, pieces: &[Piece], first: usize) -> Result<(), NoMemory>
        requires flood { IsFlood pieces.now first IsNoPair self.old.groups.items self.old.front.items }
        requires empty { self.old.front.items ≡ [] }
        requires first { first < length pieces.now }
        requires before { (i : ℕ) → i < first → IsReached self.old.groups.items i }
        ensures flood { OnOk result (IsFlood pieces.now first IsNoPair self.new.groups.items self.new.front.items) }
        ensures empty { OnOk result (self.new.front.items ≡ []) }
        ensures stay { OnOk result (StayReached self.old.groups.items self.new.groups.items) }
        ensures reached { OnOk result (IsReached self.new.groups.items first) }
    {
        if self.groups[first].is_some() {
            return Ok(());
        }
        self.groups[first] = Some(first as u64);
        self.front.push(first)?;
        self.flood(pieces, first as u64)
    }

    /// Goes on from the front until none is left.
    fn flood(&mut self, pieces: &[Piece], group: u64) -> Result<(), NoMemory>
        requires flood { IsFlood pieces.now group IsNoPair self.old.groups.items self.old.front.items }
        ensures flood { OnOk result (IsFlood pieces.now group IsNoPair self.new.groups.items self.new.front.items) }
        ensures empty { OnOk result (self.new.front.items ≡ []) }
        ensures stay { OnOk result (StayReached self.old.groups.items self.new.groups.items) }
    {
        while let Some(from) = self.front.pop() {
            self.spread(pieces, group, from)?;
        }
        Ok(())
    }

    /// Goes on from a piece of the group to each piece that touches it.
    fn spread(&mut self, pieces: &[Piece], group: u64, from: usize) -> Result<(), NoMemory>
        requires flood { IsFlood pieces.now group IsNoPair self.old.groups.items (self.old.front.items ++ from ∷ []) }
        ensures flood { OnOk result (IsFlood pieces.now group IsNoPair self.new.groups.items self.new.front.items) }
        ensures stay { OnOk result (StayReached self.old.groups.items self.new.groups.items) }
        ensures less { OnOk result
            (sum_by blank self.new.groups.items + length self.new.front.items ≡ sum_by blank self.old.groups.items + length self.old.front.items) }
    {
        for to in 0..pieces.len() {
            self.reach(pieces, group, from, to)?;
        }
        Ok(())
    }

    /// Goes on from a piece of the group to another, if that touches it and its group is not known.
    fn reach(
        &mut self,
        pieces: &[Piece],
        group: u64,
        from: usize,
        to: usize,
    ) -> Result<(), NoMemory>
        requires flood { IsFlood pieces.now group (IsUntried from to) self.old.groups.items self.old.front.items }
        requires from { group_at self.old.groups.items from ≡ Some group }
        requires to { to < length pieces.now }
        ensures flood { OnOk result (IsFlood pieces.now group (IsUntried from (to + 1)) self.new.groups.items self.new.front.items) }
        ensures from { OnOk result (group_at self.new.groups.items from ≡ Some group) }
        ensures stay { OnOk result (StayReached self.old.groups.items self.new.groups.items) }
        ensures less { OnOk result
            (sum_by blank self.new.groups.items + length self.new.front.items ≡ sum_by blank self.old.groups.items + length self.old.front.items) }
    {
        if self.groups[to].is_some() {
            return Ok(());
        }
        if !touch(&pieces[from], &pieces[to]) {
            return Ok(());
        }
        self.groups[to] = Some(group);
        self.front.push(to)?;
        Ok(())
    }

    /// The groups, which are all known.
    fn numbers(&self, alloc: Global) -> Result<List<u64>, NoMemory>
        ensures { IfOk result
            (λ numbers. numbers ≡ map (λ group. unwrap_or group 0) self.now.groups.items) }
    {
        let mut numbers = List::new(alloc);
        for group in self.groups.as_slice() {
            numbers.push(group.unwrap_or(0))?;
        }
        Ok(numbers)
    }
}

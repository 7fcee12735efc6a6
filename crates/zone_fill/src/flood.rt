//! The parts that a flood from some of them comes to, from each to those next to it.

ghost use Rattle.std.specs.Prelude.{ℕ, ◌≡◌, ◌+◌, ◌<◌, ◌++◌, ◌∷◌, ◌↔◌, [], IsTrue, List, Bool, length, All, IfOk, OnOk, sum_by};
ghost use Rattle.geo_rect.specs.Plane.{IsBounded};
ghost use Rattle.zone_fill.specs.Flooding.{AreNext, IsMarked, AreAllFlooded, IsFrontOf, IsUntried, IsNoPair, IsFlood, StayMarked, StayFlooded, blank};

use geo_rect::{NoMemory, Rect, dist};
use std::alloc::Global;

/// The parts that are flooded from the seeds, which are given by a mark for each part. The coordinates of the
/// parts lie between -2^25 and 2^25. It takes time in the square of the number of parts.
pub fn flooded(alloc: Global, parts: &[Rect], seeds: Vec<bool>) -> Result<Vec<bool>, NoMemory>
    requires each { length seeds.items ≡ length parts.now }
    requires bounded { All IsBounded parts.now }
    ensures { IfOk result (λ marks. AreAllFlooded parts.now seeds.items marks.items) }
{
    let front = front_of(alloc, seeds.as_slice())?;
    let mut flood = Flood {
        marks: seeds,
        front,
    };
    flood.run(parts)?;
    Ok(flood.marks)
}

/// The numbers of the parts that are marked.
fn front_of(alloc: Global, marks: &[bool]) -> Result<Vec<usize>, NoMemory>
    ensures { IfOk result (λ front. IsFrontOf marks.now front.items) }
{
    let mut front = Vec::new(alloc);
    for number in 0..marks.len() {
        if marks[number] {
            front.push(number)?;
        }
    }
    Ok(front)
}

/// Whether some point of the one is at most one step from some point of the other.
fn are_next(a: Rect, b: Rect) -> bool
    requires first { IsBounded a }
    requires second { IsBounded b }
    ensures { IsTrue result ↔ AreNext a b }
{
    dist(a, b) <= 1
}

/// A flood: the parts that are reached so far, and those from which it has still to go on.
#[derive(Drop)]
struct Flood {
    marks: Vec<bool>,
    front: Vec<usize>,
}

impl Flood {
    /// Goes on from the front until none is left.
    fn run(&mut self, parts: &[Rect]) -> Result<(), NoMemory>
        requires bounded { All IsBounded parts.now }
        requires flood { IsFlood parts.now IsNoPair self.old.marks.items self.old.front.items }
        ensures flood { OnOk result (IsFlood parts.now IsNoPair self.new.marks.items []) }
        ensures empty { OnOk result (self.new.front.items ≡ []) }
        ensures stay { OnOk result (StayMarked self.old.marks.items self.new.marks.items) }
        ensures sound { OnOk result (StayFlooded parts.now self.old.marks.items self.new.marks.items) }
    {
        while let Some(from) = self.front.pop() {
            self.spread(parts, from)?;
        }
        Ok(())
    }

    /// Goes on from a part that is reached to each part that is next to it.
    fn spread(&mut self, parts: &[Rect], from: usize) -> Result<(), NoMemory>
        requires bounded { All IsBounded parts.now }
        requires flood { IsFlood parts.now IsNoPair self.old.marks.items (self.old.front.items ++ from ∷ []) }
        ensures flood { OnOk result (IsFlood parts.now IsNoPair self.new.marks.items self.new.front.items) }
        ensures stay { OnOk result (StayMarked self.old.marks.items self.new.marks.items) }
        ensures sound { OnOk result (StayFlooded parts.now self.old.marks.items self.new.marks.items) }
        ensures less { OnOk result
            (sum_by blank self.new.marks.items + length self.new.front.items ≡ sum_by blank self.old.marks.items + length self.old.front.items) }
    {
        for to in 0..parts.len() {
            self.reach(parts, from, to)?;
        }
        Ok(())
    }

    /// Goes on from a part that is reached to another, if that is next to it and not reached.
    fn reach(&mut self, parts: &[Rect], from: usize, to: usize) -> Result<(), NoMemory>
        requires bounded { All IsBounded parts.now }
        requires flood { IsFlood parts.now (IsUntried from to) self.old.marks.items self.old.front.items }
        requires from { IsMarked self.old.marks.items from }
        requires to { to < length parts.now }
        ensures flood { OnOk result (IsFlood parts.now (IsUntried from (to + 1)) self.new.marks.items self.new.front.items) }
        ensures stay { OnOk result (StayMarked self.old.marks.items self.new.marks.items) }
        ensures sound { OnOk result (StayFlooded parts.now self.old.marks.items self.new.marks.items) }
        ensures less { OnOk result
            (sum_by blank self.new.marks.items + length self.new.front.items ≡ sum_by blank self.old.marks.items + length self.old.front.items) }
    {
        if self.marks[to] {
            return Ok(());
        }
        if !are_next(parts[from], parts[to]) {
            return Ok(());
        }
        self.marks[to] = true;
        self.front.push(to)?;
        Ok(())
    }
}

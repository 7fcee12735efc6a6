//! The groups that hold a piece of a net.

ghost use Rattle.std.specs.Prelude.{◌≡◌, ◌+◌, ◌<◌, ◌≤◌, ◌↔◌, IsTrue, length, Contains, IfOk, OnOk};
ghost use Rattle.net_trace.specs.Report.{IsListOf, HasPiece, Differ};
ghost use Rattle.net_trace.specs.Listing.{IsListed};

use crate::copper::Piece;
use geo_rect::{List, NetId, NoMemory};
use std::alloc::Global;

/// The groups, each once, that hold one of the first `count` pieces that is a piece of the net.
pub fn held_groups(
    alloc: Global,
    pieces: &[Piece],
    numbers: &[u64],
    net: NetId,
    count: usize,
) -> Result<List<u64>, NoMemory>
    requires each { length numbers.now ≡ length pieces.now }
    requires count { count ≤ length pieces.now }
    ensures { IfOk result
        (λ held. IsListOf Differ (HasPiece count pieces.now (IsListed numbers.now) net) held) }
{
    let mut held = List::new(alloc);
    for number in 0..count {
        hold_group(&mut held, pieces, numbers, net, number)?;
    }
    Ok(held)
}

/// Adds the group of a piece, if that is one of the net and its group is not there yet.
fn hold_group(
    held: &mut List<u64>,
    pieces: &[Piece],
    numbers: &[u64],
    net: NetId,
    number: usize,
) -> Result<(), NoMemory>
    requires each { length numbers.now ≡ length pieces.now }
    requires number { number < length pieces.now }
    requires held { IsListOf Differ (HasPiece number pieces.now (IsListed numbers.now) net) held.old }
    ensures { OnOk result
        (IsListOf Differ (HasPiece (number + 1) pieces.now (IsListed numbers.now) net) held.new) }
{
    if pieces[number].net.0 != net.0 {
        return Ok(());
    }
    let group = numbers[number];
    if has_number(held.as_slice(), group) {
        return Ok(());
    }
    held.push(group)
}

/// Whether the number is one of these.
pub fn has_number(numbers: &[u64], number: u64) -> bool
    ensures { IsTrue result ↔ Contains numbers.now number }
{
    numbers.contains(&number)
}

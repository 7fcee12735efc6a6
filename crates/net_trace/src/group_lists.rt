//! The groups of pieces, and how many pieces each has.

ghost use Rattle.std.specs.Prelude.{◌+◌, ◌<◌, length, IfOk, OnOk};
ghost use Rattle.net_trace.specs.Report.{IsListOf, IsCount, IsGroup, IsEarlierGroup};
ghost use Rattle.net_trace.specs.Listing.{IsSoBelow, IsListed, group_number};

use crate::traced::Group;
use geo_rect::{List, NoMemory};
use std::alloc::Global;

/// Each group, by the number of the group of each piece.
pub fn groups_of(alloc: Global, numbers: &[u64]) -> Result<List<Group>, NoMemory>
    ensures { IfOk result
        (λ groups. IsListOf IsEarlierGroup (IsGroup (IsListed numbers.now)) groups) }
{
    let mut groups = List::new(alloc);
    for first in 0..numbers.len() {
        push_group(&mut groups, numbers, first)?;
    }
    Ok(groups)
}

/// Adds the group that the piece is the first of, if it is.
fn push_group(groups: &mut List<Group>, numbers: &[u64], first: usize) -> Result<(), NoMemory>
    requires first { first < length numbers.now }
    requires groups { IsListOf IsEarlierGroup (IsSoBelow group_number (IsGroup (IsListed numbers.now)) first) groups.old }
    ensures { OnOk result
        (IsListOf IsEarlierGroup (IsSoBelow group_number (IsGroup (IsListed numbers.now)) (first + 1)) groups.new) }
{
    let group = first as u64;
    if numbers[first] != group {
        return Ok(());
    }
    groups.push(Group {
        first: group,
        count: size_of(numbers, group),
    })
}

/// How many pieces are in the group.
fn size_of(numbers: &[u64], group: u64) -> u64
    ensures { IsCount (λ i. IsListed numbers.now i group) result }
{
    let mut count = 0;
    for number in numbers {
        if *number == group {
            count += 1;
        }
    }
    count
}

//! The pairs of nets of which one group has a piece of each.

ghost use Rattle.std.specs.Prelude.{◌≡◌, ◌+◌, ◌<◌, false, length, replicate, IfOk, OnOk};
ghost use Rattle.net_trace.specs.Report.{IsListOf, IsShort, IsEarlierPair};
ghost use Rattle.net_trace.specs.Listing.{IsListed, AreWithin, AreMet, IsShortBefore, pair_of};

use crate::copper::Piece;
use crate::held_groups::{has_number, held_groups};
use crate::traced::Short;
use geo_rect::{List, NetId, NoMemory};
use std::alloc::Global;

/// Each pair of shorted nets, of so many nets.
pub fn shorts_of(
    alloc: Global,
    nets: u32,
    pieces: &[Piece],
    numbers: &[u64],
) -> Result<List<Short>, NoMemory>
    requires within { AreWithin pieces.now numbers.now nets }
    ensures { IfOk result
        (λ shorts. IsListOf IsEarlierPair (IsShort pieces.now (IsListed numbers.now)) shorts) }
{
    let mut shorts = List::new(alloc);
    for net in 0..nets {
        push_shorts(alloc, &mut shorts, nets, pieces, numbers, NetId(net))?;
    }
    Ok(shorts)
}

/// Adds each pair of shorted nets of which this net is the earlier.
fn push_shorts(
    alloc: Global,
    shorts: &mut List<Short>,
    nets: u32,
    pieces: &[Piece],
    numbers: &[u64],
    net: NetId,
) -> Result<(), NoMemory>
    requires within { AreWithin pieces.now numbers.now nets }
    requires net { net.0 < nets }
    requires shorts { IsListOf IsEarlierPair (IsShortBefore pieces.now (IsListed numbers.now) (pair_of net.0 0)) shorts.old }
    ensures { OnOk result
        (IsListOf IsEarlierPair (IsShortBefore pieces.now (IsListed numbers.now) (pair_of (net.0 + 1) 0)) shorts.new) }
{
    let held = held_groups(alloc, pieces, numbers, net, pieces.len())?;
    let met = met_nets(alloc, nets, pieces, numbers, held.as_slice())?;
    for other in net.0 + 1..nets {
        if met[other as usize] {
            shorts.push(Short {
                a: net,
                b: NetId(other),
            })?;
        }
    }
    Ok(())
}

/// For each of so many nets, whether one of these groups holds a piece of it.
fn met_nets(
    alloc: Global,
    nets: u32,
    pieces: &[Piece],
    numbers: &[u64],
    held: &[u64],
) -> Result<Vec<bool>, NoMemory>
    requires within { AreWithin pieces.now numbers.now nets }
    ensures { IfOk result
        (λ met. AreMet (length pieces.now) pieces.now (IsListed numbers.now) held.now nets met.items) }
{
    let mut met = no_nets(alloc, nets)?;
    for number in 0..pieces.len() {
        meet_net(&mut met, nets, pieces, numbers, held, number);
    }
    Ok(met)
}

/// Adds the net of a piece, if one of these groups holds the piece.
fn meet_net(
    met: &mut Vec<bool>,
    nets: u32,
    pieces: &[Piece],
    numbers: &[u64],
    held: &[u64],
    number: usize,
)
    requires within { AreWithin pieces.now numbers.now nets }
    requires number { number < length pieces.now }
    requires met { AreMet number pieces.now (IsListed numbers.now) held.now nets met.old.items }
    ensures { AreMet (number + 1) pieces.now (IsListed numbers.now) held.now nets met.new.items }
{
    if has_number(held, numbers[number]) {
        met[pieces[number].net.0 as usize] = true;
    }
}

/// No net of so many.
fn no_nets(alloc: Global, nets: u32) -> Result<Vec<bool>, NoMemory>
    ensures { IfOk result (λ met. met.items ≡ replicate nets false) }
{
    let mut met = Vec::new(alloc);
    for _net in 0..nets {
        met.push(false)?;
    }
    Ok(met)
}

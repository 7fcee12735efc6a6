//! Lists of strips under work: each piece that is added is joined with those that it continues.
ghost use Rattle.std.specs.Prelude.{◌≡◌, ◌++◌, List as Items, Contains, IfOk, OnOk, IsTrue, ◌↔◌};
ghost use Rattle.geo_rect.specs.declared.ids.Label.{Label as Mark};
ghost use Rattle.geo_rect.specs.declared.shapes.Point.{Point as Place};
ghost use Rattle.geo_rect.specs.declared.shapes.Rect.{Rect as Area};
ghost use Rattle.geo_rect.specs.Plane.{HasPoint};
ghost use Rattle.plane_core.specs.Choice.{IsChoice};
ghost use Rattle.plane_core.specs.Strips.{IsHeld, IsInOrder};
ghost use Rattle.flat_plane.specs.Draft.{AreApart, IsAbsorbed, IsDraft, IsHull, IsJoinOf, IsRunInEachRow, KeepsPoints, StaysAfter, StaysBefore};

use crate::checks::{can_join, precedes};
use geo_rect::{Interval, List, NoMemory, Rect};
use plane_core::Strip;
use std::alloc::Global;

fn hull(i: Interval, j: Interval) -> Interval
    ensures { IsHull i j result }
{
    Interval {
        low: i.low.min(j.low),
        high: i.high.max(j.high),
    }
}

/// The two as one strip where they can be joined, and else `whole`.
fn absorb(strip: Strip, whole: Strip) -> Strip
    ensures { IsAbsorbed strip whole result }
{
    if !can_join(strip, whole) {
        return whole;
    }
    let rows = hull(strip.area.rows(), whole.area.rows());
    Strip {
        area: Rect::of(whole.area.columns(), rows),
        label: whole.label,
    }
}

/// The piece with all strips of the draft that it can be joined with.
fn joined_with(draft: &[Strip], piece: Strip) -> Strip
    requires { AreApart draft.now }
    ensures { IsJoinOf draft.now piece result }
{
    let mut whole = piece;
    for strip in draft {
        whole = absorb(*strip, whole);
    }
    whole
}

/// Whether the strip cannot be joined with `whole`, and comes before it.
fn stays_before(strip: Strip, whole: Strip) -> bool
    ensures { IsTrue result ↔ StaysBefore whole strip }
{
    if can_join(strip, whole) {
        return false;
    }
    if !precedes(strip, whole) {
        return false;
    }
    true
}

/// Whether the strip cannot be joined with `whole`, and does not come before it.
fn stays_after(strip: Strip, whole: Strip) -> bool
    ensures { IsTrue result ↔ StaysAfter whole strip }
{
    if can_join(strip, whole) {
        return false;
    }
    if precedes(strip, whole) {
        return false;
    }
    true
}

/// The strips of the draft that stay before `whole`.
fn before(alloc: Global, draft: &[Strip], whole: Strip) -> Result<List<Strip>, NoMemory>
    requires { IsInOrder draft.now }
    ensures { IfOk result (IsChoice draft.now (StaysBefore whole)) }
{
    let mut found = List::new(alloc);
    for strip in draft {
        if stays_before(*strip, whole) {
            found.push(*strip)?;
        }
    }
    Ok(found)
}

/// The strips of the draft that stay after `whole`.
fn after(alloc: Global, draft: &[Strip], whole: Strip) -> Result<List<Strip>, NoMemory>
    requires { IsInOrder draft.now }
    ensures { IfOk result (IsChoice draft.now (StaysAfter whole)) }
{
    let mut found = List::new(alloc);
    for strip in draft {
        if stays_after(*strip, whole) {
            found.push(*strip)?;
        }
    }
    Ok(found)
}

/// Adds the strips at the end.
fn append(list: &mut List<Strip>, more: &[Strip]) -> Result<(), NoMemory>
    ensures { OnOk result (list.new ≡ list.old ++ more.now) }
{
    for strip in more {
        list.push(*strip)?;
    }
    Ok(())
}

/// The draft with one more piece, which is joined with the strips that it continues.
pub fn add(alloc: Global, draft: &[Strip], piece: Strip) -> Result<List<Strip>, NoMemory>
    requires apart { AreApart draft.now }
    requires in_order { IsInOrder draft.now }
    ensures draft { IfOk result (λ new. (domain : Area) (label_at : Place → Mark) → IsDraft domain label_at draft.now → IsRunInEachRow domain label_at piece → IsDraft domain label_at new) }
    ensures keeps { IfOk result (KeepsPoints draft.now) }
    ensures adds { IfOk result (λ new. (p : Place) → HasPoint piece.area p → IsHeld new p) }
{
    let whole = joined_with(draft, piece);
    let mut new = before(alloc, draft, whole)?;
    new.push(whole)?;
    let rest = after(alloc, draft, whole)?;
    append(&mut new, rest.as_slice())?;
    Ok(new)
}

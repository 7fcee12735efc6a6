//! Rules between two numbers of a board's lists: the gaps of a pair of classes, and a pad with its inner
//! pad.

ghost use Rattle.std.specs.Prelude.{◌≡◌, ◌↔◌, ◌<◌, ◌≤◌, ◌*◌, IsTrue, length, All};
ghost use Rattle.geo_rect.specs.declared.ids.ClassId.{ClassId};
ghost use Rattle.geo_rect.specs.declared.ids.KindId.{KindId};
ghost use Rattle.geo_rect.specs.declared.ids.LayerId.{LayerId};
ghost use Rattle.board_model.specs.Groups.{HasKinds};
ghost use Rattle.board_parts.specs.Lookup.{gap_of, pad_of, inner_of};
ghost use Rattle.board_parts.specs.Rules.{IsMeasure, IsGapOfPairs, HasNoInnerLayer, IsPlainWithoutInner};

use board_parts::{BoardParts, MAX_CLASSES, MAX_LAYERS};

/// The gap of two classes on a layer, by their numbers.
fn gap_at(parts: &BoardParts, layer: usize, c: usize, d: usize) -> i32
    requires layers { length parts.now.layers ≤ MAX_LAYERS }
    requires classes { length parts.now.classes ≤ MAX_CLASSES }
    requires gaps { length parts.now.gaps ≡ (length parts.now.layers * length parts.now.classes) * length parts.now.classes }
    requires each { All IsMeasure parts.now.gaps }
    requires layer { layer < length parts.now.layers }
    requires first { c < length parts.now.classes }
    requires second { d < length parts.now.classes }
    ensures value { result ≡ gap_of parts.now (record { 0 = layer }) (record { 0 = c }) (record { 0 = d }) }
    ensures measure { IsMeasure result }
{
    let classes = parts.classes.len();
    let row = layer * classes + c;
    parts.gaps.as_slice()[row * classes + d]
}

/// Whether the gap of each pair of classes on each layer is one, whichever of them is named first.
pub fn are_gaps_of_pairs(parts: &BoardParts) -> bool
    requires layers { length parts.now.layers ≤ MAX_LAYERS }
    requires classes { length parts.now.classes ≤ MAX_CLASSES }
    requires gaps { length parts.now.gaps ≡ (length parts.now.layers * length parts.now.classes) * length parts.now.classes }
    requires each { All IsMeasure parts.now.gaps }
    ensures { IsTrue result ↔ IsGapOfPairs parts.now }
{
    for layer in 0..parts.layers.len() {
        if !are_pairs_on(parts, layer) {
            return false;
        }
    }
    true
}

/// Whether it is so on a layer.
fn are_pairs_on(parts: &BoardParts, layer: usize) -> bool
    requires layers { length parts.now.layers ≤ MAX_LAYERS }
    requires classes { length parts.now.classes ≤ MAX_CLASSES }
    requires gaps { length parts.now.gaps ≡ (length parts.now.layers * length parts.now.classes) * length parts.now.classes }
    requires each { All IsMeasure parts.now.gaps }
    requires layer { layer < length parts.now.layers }
    ensures { IsTrue result ↔ ((c d : ClassId) → c.0 < length parts.now.classes → d.0 < length parts.now.classes
        → gap_of parts.now (record { 0 = layer }) c d ≡ gap_of parts.now (record { 0 = layer }) d c) }
{
    for c in 0..parts.classes.len() {
        if !are_pairs_with(parts, layer, c) {
            return false;
        }
    }
    true
}

/// Whether it is so on a layer for the pairs of a class.
fn are_pairs_with(parts: &BoardParts, layer: usize, c: usize) -> bool
    requires layers { length parts.now.layers ≤ MAX_LAYERS }
    requires classes { length parts.now.classes ≤ MAX_CLASSES }
    requires gaps { length parts.now.gaps ≡ (length parts.now.layers * length parts.now.classes) * length parts.now.classes }
    requires each { All IsMeasure parts.now.gaps }
    requires layer { layer < length parts.now.layers }
    requires first { c < length parts.now.classes }
    ensures { IsTrue result ↔ ((d : ClassId) → d.0 < length parts.now.classes
        → gap_of parts.now (record { 0 = layer }) (record { 0 = c }) d ≡ gap_of parts.now (record { 0 = layer }) d (record { 0 = c })) }
{
    for d in 0..parts.classes.len() {
        if gap_at(parts, layer, c, d) != gap_at(parts, layer, d, c) {
            return false;
        }
    }
    true
}

/// Whether each kind without a layer between its two has its pads for inner pads.
pub fn are_plain_without_inner(parts: &BoardParts) -> bool
    requires classes { length parts.now.classes ≤ MAX_CLASSES }
    requires kinds { HasKinds parts.now }
    requires inners { length parts.now.inners ≡ length parts.now.kinds * length parts.now.classes }
    requires each { All IsMeasure parts.now.inners }
    ensures { IsTrue result ↔ IsPlainWithoutInner parts.now }
{
    for kind in 0..parts.kinds.len() {
        if !is_plain_without_inner(parts, kind) {
            return false;
        }
    }
    true
}

/// Whether it is so for a kind.
fn is_plain_without_inner(parts: &BoardParts, kind: usize) -> bool
    requires classes { length parts.now.classes ≤ MAX_CLASSES }
    requires kinds { HasKinds parts.now }
    requires inners { length parts.now.inners ≡ length parts.now.kinds * length parts.now.classes }
    requires each { All IsMeasure parts.now.inners }
    requires kind { kind < length parts.now.kinds }
    ensures { IsTrue result ↔ ((c : ClassId) → c.0 < length parts.now.classes → HasNoInnerLayer parts.now (record { 0 = kind })
        → inner_of parts.now (record { 0 = kind }) c ≡ pad_of parts.now (record { 0 = kind }) c) }
{
    let span = parts.kinds.as_slice()[kind];
    if span.last.0 - span.first.0 != 1 {
        return true;
    }
    are_pads_alike(parts, kind)
}

/// Whether the inner pads of a kind are its pads.
fn are_pads_alike(parts: &BoardParts, kind: usize) -> bool
    requires classes { length parts.now.classes ≤ MAX_CLASSES }
    requires kinds { HasKinds parts.now }
    requires inners { length parts.now.inners ≡ length parts.now.kinds * length parts.now.classes }
    requires each { All IsMeasure parts.now.inners }
    requires kind { kind < length parts.now.kinds }
    ensures { IsTrue result ↔ ((c : ClassId) → c.0 < length parts.now.classes
        → inner_of parts.now (record { 0 = kind }) c ≡ pad_of parts.now (record { 0 = kind }) c) }
{
    let row = kind * parts.classes.len();
    for c in 0..parts.classes.len() {
        if parts.inners.as_slice()[row + c] != parts.pads.as_slice()[row + c] {
            return false;
        }
    }
    true
}

//! Whether the lists of a board keep every rule of the board text.

ghost use Rattle.std.specs.Prelude.{◌↔◌, ◌<◌, ◌≤◌, IsTrue, length, All};
ghost use Rattle.geo_rect.specs.declared.ids.ClassId.{ClassId};
ghost use Rattle.board_parts.specs.Rules.{IsBoard, IsRule, IsKind, IsMeasure, IsBlock, IsKeepout, IsPin, AreNames};
ghost use Rattle.board_model.specs.Groups.{HasFrame, HasLayers, HasRules, HasGaps, HasKinds, HasInners, HasNets, HasAreas};

use crate::names::are_names;
use crate::pairs::{are_gaps_of_pairs, are_plain_without_inner};
use crate::rules::{is_block, is_keepout, is_kind, is_measure, is_name, is_pin, is_rule, is_side};
use board_parts::{
    Block, BoardParts, Keepout, MAX_BLOCKS, MAX_CLASSES, MAX_KINDS, MAX_LAYERS, MAX_NETS, MAX_PINS,
    Rule, ViaKind,
};
use geo_rect::ClassId;

/// Whether the lists keep every rule of the board text. It takes no memory, and time in the
/// square of the number of nets.
pub fn is_board(parts: &BoardParts) -> bool
    ensures { IsTrue result ↔ IsBoard parts.now }
{
    if !has_frame(parts) {
        return false;
    }
    if !has_layers(parts) {
        return false;
    }
    if !has_rules(parts) {
        return false;
    }
    if !has_gaps(parts) {
        return false;
    }
    if !has_kinds(parts) {
        return false;
    }
    if !has_inners(parts) {
        return false;
    }
    if !has_nets(parts) {
        return false;
    }
    has_areas(parts)
}

fn has_frame(parts: &BoardParts) -> bool
    ensures { IsTrue result ↔ HasFrame parts.now }
{
    if !is_name(parts.name.as_bytes()) {
        return false;
    }
    if !is_side(parts.width) {
        return false;
    }
    is_side(parts.height)
}

fn has_layers(parts: &BoardParts) -> bool
    ensures { IsTrue result ↔ HasLayers parts.now }
{
    if parts.layers.is_empty() {
        return false;
    }
    if parts.classes.is_empty() {
        return false;
    }
    if !are_names(MAX_LAYERS, parts.layers.as_slice()) {
        return false;
    }
    are_names(MAX_CLASSES, parts.classes.as_slice())
}

fn has_rules(parts: &BoardParts) -> bool
    requires layers { length parts.now.layers ≤ MAX_LAYERS }
    requires classes { length parts.now.classes ≤ MAX_CLASSES }
    ensures { IsTrue result ↔ HasRules parts.now }
{
    if parts.rules.len() != parts.layers.len() * parts.classes.len() {
        return false;
    }
    parts.rules.as_slice().iter().all(is_rule)
}

fn has_gaps(parts: &BoardParts) -> bool
    requires layers { length parts.now.layers ≤ MAX_LAYERS }
    requires classes { length parts.now.classes ≤ MAX_CLASSES }
    ensures { IsTrue result ↔ HasGaps parts.now }
{
    let classes = parts.classes.len();
    if parts.gaps.len() != parts.layers.len() * classes * classes {
        return false;
    }
    if !parts.gaps.as_slice().iter().all(is_measure) {
        return false;
    }
    are_gaps_of_pairs(parts)
}

fn are_kinds(layers: usize, kinds: &[ViaKind]) -> bool
    ensures { IsTrue result ↔ All (IsKind layers) kinds.now }
{
    kinds.iter().all(|kind| is_kind(layers, *kind))
}

fn has_kinds(parts: &BoardParts) -> bool
    requires { length parts.now.classes ≤ MAX_CLASSES }
    ensures { IsTrue result ↔ HasKinds parts.now }
{
    if !are_names(MAX_KINDS, parts.kind_names.as_slice()) {
        return false;
    }
    if parts.kinds.len() != parts.kind_names.len() {
        return false;
    }
    if !are_kinds(parts.layers.len(), parts.kinds.as_slice()) {
        return false;
    }
    if parts.pads.len() != parts.kinds.len() * parts.classes.len() {
        return false;
    }
    parts.pads.as_slice().iter().all(is_measure)
}

fn has_inners(parts: &BoardParts) -> bool
    requires classes { length parts.now.classes ≤ MAX_CLASSES }
    requires kinds { HasKinds parts.now }
    ensures { IsTrue result ↔ HasInners parts.now }
{
    if parts.inners.len() != parts.kinds.len() * parts.classes.len() {
        return false;
    }
    if !parts.inners.as_slice().iter().all(is_measure) {
        return false;
    }
    are_plain_without_inner(parts)
}

fn has_nets(parts: &BoardParts) -> bool
    ensures { IsTrue result ↔ HasNets parts.now }
{
    if !are_names(MAX_NETS, parts.net_names.as_slice()) {
        return false;
    }
    if parts.net_classes.len() != parts.net_names.len() {
        return false;
    }
    let classes = parts.classes.len();
    let ids = parts.net_classes.as_slice();
    ids.iter().all(|id| (id.0 as usize) < classes)
}

fn are_blocks(parts: &BoardParts, blocks: &[Block]) -> bool
    ensures { IsTrue result ↔ All (IsBlock parts.now) blocks.now }
{
    blocks.iter().all(|block| is_block(parts, *block))
}

fn are_keepouts(parts: &BoardParts, keepouts: &[Keepout]) -> bool
    ensures { IsTrue result ↔ All (IsKeepout parts.now) keepouts.now }
{
    keepouts.iter().all(|keepout| is_keepout(parts, *keepout))
}

fn has_areas(parts: &BoardParts) -> bool
    ensures { IsTrue result ↔ HasAreas parts.now }
{
    if parts.blocks.len() > MAX_BLOCKS {
        return false;
    }
    if parts.keepouts.len() > MAX_BLOCKS - parts.blocks.len() {
        return false;
    }
    if parts.pins.len() > MAX_PINS {
        return false;
    }
    if !are_blocks(parts, parts.blocks.as_slice()) {
        return false;
    }
    if !are_keepouts(parts, parts.keepouts.as_slice()) {
        return false;
    }
    let pins = parts.pins.as_slice();
    pins.iter().all(|pin| is_pin(parts, *pin))
}

//! Whether one item of a board keeps its rules.

ghost use Rattle.std.specs.Prelude.{◌↔◌, IsTrue, length, All};
ghost use Rattle.board_parts.specs.Rules.{IsWordByte, IsName, IsSide, IsMeasure, IsRule, IsKind, IsBlock, IsKeepout, IsPin};

use crate::outlines::has_area;
use board_parts::{
    Block, BoardParts, Keepout, MAX_CHARGE, MAX_MEASURE, MAX_NAME, MAX_SIDE, Pin, Rule, ViaKind,
};

fn is_word_byte(byte: &u8) -> bool
    ensures { IsTrue result ↔ IsWordByte byte.now }
{
    if *byte < 33 {
        return false;
    }
    if *byte > 126 {
        return false;
    }
    true
}

fn is_word(bytes: &[u8]) -> bool
    ensures { IsTrue result ↔ All IsWordByte bytes.now }
{
    bytes.iter().all(is_word_byte)
}

pub fn is_name(bytes: &[u8]) -> bool
    ensures { IsTrue result ↔ IsName bytes.now }
{
    if bytes.is_empty() {
        return false;
    }
    if bytes.len() > MAX_NAME {
        return false;
    }
    is_word(bytes)
}

pub fn is_side(measure: i32) -> bool
    ensures { IsTrue result ↔ IsSide measure }
{
    if measure < 1 {
        return false;
    }
    if measure > MAX_SIDE {
        return false;
    }
    true
}

pub fn is_measure(measure: &i32) -> bool
    ensures { IsTrue result ↔ IsMeasure measure.now }
{
    if *measure < 1 {
        return false;
    }
    if *measure > MAX_MEASURE {
        return false;
    }
    true
}

pub fn is_rule(rule: &Rule) -> bool
    ensures { IsTrue result ↔ IsRule rule.now }
{
    if !is_measure(&rule.half) {
        return false;
    }
    is_measure(&rule.gap)
}

pub fn is_kind(layers: usize, kind: ViaKind) -> bool
    ensures { IsTrue result ↔ IsKind layers kind }
{
    if kind.last.0 as usize >= layers {
        return false;
    }
    if kind.first.0 >= kind.last.0 {
        return false;
    }
    if kind.charge > MAX_CHARGE {
        return false;
    }
    true
}

pub fn is_block(parts: &BoardParts, block: Block) -> bool
    ensures { IsTrue result ↔ IsBlock parts.now block }
{
    if block.layer.0 as usize >= parts.layers.len() {
        return false;
    }
    has_area(parts, block.area)
}

pub fn is_keepout(parts: &BoardParts, keepout: Keepout) -> bool
    ensures { IsTrue result ↔ IsKeepout parts.now keepout }
{
    if keepout.layer.0 as usize >= parts.layers.len() {
        return false;
    }
    has_area(parts, keepout.area)
}

pub fn is_pin(parts: &BoardParts, pin: Pin) -> bool
    ensures { IsTrue result ↔ IsPin parts.now pin }
{
    if pin.net.0 as usize >= parts.net_names.len() {
        return false;
    }
    if pin.first.0 > pin.last.0 {
        return false;
    }
    if pin.last.0 as usize >= parts.layers.len() {
        return false;
    }
    has_area(parts, pin.area)
}

ghost use Rattle.std.specs.Prelude.{◌≡◌, ◌≢◌, ◌<◌, ◌≤◌, ◌+◌, ◌^◌, ℕ, ℤ, length, decimal, IfSome, IfNone, IsTrue, ◌↔◌};
ghost use Rattle.std.specs.Str.{IsAscii};
ghost use Rattle.board_parts.specs.declared.parts.BoardParts.{BoardParts};
ghost use Rattle.geo_rect.specs.declared.ids.ClassId.{ClassId};
ghost use Rattle.geo_rect.specs.declared.ids.KindId.{KindId};
ghost use Rattle.geo_rect.specs.declared.ids.LayerId.{LayerId};
ghost use Rattle.geo_rect.specs.declared.ids.NetId.{NetId};
ghost use Rattle.geo_rect.specs.declared.ids.Node.{Node};
ghost use Rattle.geo_rect.specs.declared.shapes.Rect.{Rect};
ghost use Rattle.route_law.specs.Regular.{IsLayerOf, IsKindOf, IsNetOf};
ghost use Rattle.board_parts.specs.Lookup.{layer_name, class_name, kind_name, net_name};
ghost use Rattle.reply_reader.specs.Fields.{IsForm, IsClassOf, IsCoordinateAt, IsAreaAt, IsNodeAt};
ghost use Rattle.reply_reader.specs.Forms.{word};

use crate::words::Words;
use board_model::Board;
use geo_rect::{ClassId, KindId, LayerId, NetId, Node, Rect};
use itoa::Buffer;
use std::str::from_utf8;

/// The word as a text, if it is one.
fn text(word: &[u8]) -> Option<&str>
    ensures some { IfSome result (λ t. t.now ≡ word.now) }
    ensures none { IfNone result (IsAscii word.now → ⊥) }
{
    match from_utf8(word) {
        Ok(text) => Some(text),
        Err(_) => None,
    }
}

fn are_alike(a: &[u8], b: &[u8]) -> bool
    ensures { IsTrue result ↔ (a.now ≡ b.now) }
{
    a == b
}

/// The number of at most `most` that the word spells.
fn number(word: &[u8], most: u128) -> Option<u128>
    ensures some { IfSome result (λ n. decimal n ≡ word.now) }
    ensures most { IfSome result (λ n. n ≤ most) }
    ensures none { IfNone result ((n : ℕ) → n ≤ most → decimal n ≡ word.now → ⊥) }
{
    let Some(digits) = text(word) else {
        return None;
    };
    let Ok(value) = digits.parse::<u128>() else {
        return None;
    };
    if value > most {
        return None;
    }
    let mut buffer = Buffer::new();
    if !are_alike(buffer.format(value).as_bytes(), word) {
        return None;
    }
    Some(value)
}

/// The number below 2^64 in a place.
pub fn count(words: &Words, place: usize) -> Option<u64>
    ensures some { IfSome result (λ n. (decimal n ≡ word words.now place) × (n < 2 ^ 64)) }
    ensures none { IfNone result ((n : ℕ) → n < 2 ^ 64 → decimal n ≡ word words.now place → ⊥) }
{
    let value = number(words.get(place), u64::MAX as u128)?;
    Some(value as u64)
}

/// The number below 2^128 in a place.
pub fn cost(words: &Words, place: usize) -> Option<u128>
    ensures some { IfSome result (λ n. (decimal n ≡ word words.now place) × (n < 2 ^ 128)) }
    ensures none { IfNone result ((n : ℕ) → n < 2 ^ 128 → decimal n ≡ word words.now place → ⊥) }
{
    number(words.get(place), u128::MAX)
}

/// The coordinate in a place, from 0 to 2^31 - 1.
fn coordinate(words: &Words, place: usize) -> Option<i32>
    ensures some { IfSome result (λ z. IsCoordinateAt words.now place z) }
    ensures none { IfNone result ((z : ℤ) → IsCoordinateAt words.now place z → ⊥) }
{
    let value = number(words.get(place), i32::MAX as u128)?;
    Some(value as i32)
}

/// The rectangle whose corners are the four words from a place on.
pub fn area(words: &Words, place: usize) -> Option<Rect>
    requires { place < 100 }
    ensures some { IfSome result (λ r. IsAreaAt words.now place r) }
    ensures none { IfNone result ((r : Rect) → IsAreaAt words.now place r → ⊥) }
{
    let x0 = coordinate(words, place)?;
    let y0 = coordinate(words, place + 1)?;
    let x1 = coordinate(words, place + 2)?;
    let y1 = coordinate(words, place + 3)?;
    if x0 > x1 {
        return None;
    }
    if y0 > y1 {
        return None;
    }
    Some(Rect::new(x0, y0, x1, y1))
}

/// The layer that the word in a place names.
pub fn layer(board: &Board, words: &Words, place: usize) -> Option<LayerId>
    ensures some { IfSome result (λ l. IsLayerOf board.now.parts l × (layer_name board.now.parts l ≡ word words.now place)) }
    ensures none { IfNone result ((l : LayerId) → IsLayerOf board.now.parts l → layer_name board.now.parts l ≡ word words.now place → ⊥) }
{
    let Some(name) = text(words.get(place)) else {
        return None;
    };
    board.find_layer(name)
}

/// The class that the word in a place names.
pub fn class(board: &Board, words: &Words, place: usize) -> Option<ClassId>
    ensures some { IfSome result (λ c. IsClassOf board.now.parts c × (class_name board.now.parts c ≡ word words.now place)) }
    ensures none { IfNone result ((c : ClassId) → IsClassOf board.now.parts c → class_name board.now.parts c ≡ word words.now place → ⊥) }
{
    let Some(name) = text(words.get(place)) else {
        return None;
    };
    board.find_class(name)
}

/// The kind of via that the word in a place names.
pub fn kind(board: &Board, words: &Words, place: usize) -> Option<KindId>
    ensures some { IfSome result (λ k. IsKindOf board.now.parts k × (kind_name board.now.parts k ≡ word words.now place)) }
    ensures none { IfNone result ((k : KindId) → IsKindOf board.now.parts k → kind_name board.now.parts k ≡ word words.now place → ⊥) }
{
    let Some(name) = text(words.get(place)) else {
        return None;
    };
    board.find_kind(name)
}

/// The net that the word in a place names.
pub fn net(board: &Board, words: &Words, place: usize) -> Option<NetId>
    ensures some { IfSome result (λ n. IsNetOf board.now.parts n × (net_name board.now.parts n ≡ word words.now place)) }
    ensures none { IfNone result ((n : NetId) → IsNetOf board.now.parts n → net_name board.now.parts n ≡ word words.now place → ⊥) }
{
    let Some(name) = text(words.get(place)) else {
        return None;
    };
    board.find_net(name)
}

/// The node that the three words from a place on are.
pub fn node(board: &Board, words: &Words, place: usize) -> Option<Node>
    requires { place < 100 }
    ensures some { IfSome result (λ v. IsNodeAt board.now.parts words.now place v) }
    ensures none { IfNone result ((v : Node) → IsNodeAt board.now.parts words.now place v → ⊥) }
{
    let x = coordinate(words, place)?;
    let y = coordinate(words, place + 1)?;
    let layer = layer(board, words, place + 2)?;
    Some(Node { x, y, layer })
}

/// Whether the line has so many words, and this one first.
pub fn is_form(words: &Words, first: &[u8], number: usize) -> bool
    ensures { IsTrue result ↔ IsForm words.now first.now number }
{
    if words.len() != number {
        return false;
    }
    words.get(0) == first
}

/// Whether this word stands in the place.
pub fn is_word(words: &Words, place: usize, expected: &[u8]) -> bool
    ensures { IsTrue result ↔ (word words.now place ≡ expected.now) }
{
    words.get(place) == expected
}

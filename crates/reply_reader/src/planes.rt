ghost use Rattle.std.specs.Prelude.{◌≡◌, ◌<◌, ◌≤◌, ◌+◌, ℕ, Option, IfSome, IfNone};
ghost use Rattle.geo_rect.specs.declared.ids.Label.{Label};
ghost use Rattle.geo_rect.specs.declared.ids.LayerId.{LayerId};
ghost use Rattle.geo_rect.specs.declared.ids.NetId.{NetId};
ghost use Rattle.board_model.specs.declared.shapes.Owned.{Owned};
ghost use Rattle.board_model.specs.declared.shapes.Violation.{Violation};
ghost use Rattle.plane_core.specs.declared.strips.Strip.{Strip};
ghost use Rattle.reply_reader.specs.Said.{violation_line, violation_words, owner_place, IsOwnerAt, IsOwnedAt, after_owned, IsCloseAt, IsOutlineAt, IsViolationAt, strip_line, strip_words, label_place, IsOneAt, IsLabelAt, IsStripAt};

use crate::fields::{area, is_form, is_word, layer, net};
use crate::parts::Line;
use crate::words::Words;
use board_model::{Board, Owned, Violation};
use geo_rect::{Label, NetId};
use plane_core::Strip;

/// Whose the shape is that is told of in a place.
fn owner(board: &Board, words: &Words, place: usize) -> Option<Option<NetId>>
    requires { place < 50 }
    ensures some { IfSome result (λ o. IsOwnerAt board.now.parts words.now place o) }
    ensures none { IfNone result ((o : Option NetId) → IsOwnerAt board.now.parts words.now place o → ⊥) }
{
    if is_word(words, place, b"block") {
        return Some(None);
    }
    if !is_word(words, place, b"net") {
        return None;
    }
    let net = net(board, words, place + 1)?;
    Some(Some(net))
}

/// How many words tell whose a shape is.
fn owner_place(owner: Option<NetId>) -> usize
    ensures value { result ≡ owner_place owner }
    ensures few { result ≤ 2 }
{
    match owner {
        None => 1,
        Some(_) => 2,
    }
}

/// The shape that is told of from a place on.
fn owned(board: &Board, words: &Words, place: usize) -> Option<Owned>
    requires { place < 50 }
    ensures some { IfSome result (λ o. IsOwnedAt board.now.parts words.now place o) }
    ensures none { IfNone result ((o : Owned) → IsOwnedAt board.now.parts words.now place o → ⊥) }
{
    let owner = owner(board, words, place)?;
    let area = area(words, place + owner_place(owner))?;
    Some(Owned { owner, area })
}

/// The place after a shape.
fn after_owned(place: usize, shape: Owned) -> usize
    requires { place < 50 }
    ensures value { result ≡ after_owned place shape }
    ensures small { result ≤ place + 6 }
{
    place + owner_place(shape.owner) + 4
}

fn close(board: &Board, words: &Words) -> Option<Violation>
    ensures some { IfSome result (λ v. IsViolationAt board.now.parts words.now v) }
    ensures none { IfNone result ((l : LayerId) (o q : Owned) → IsCloseAt board.now.parts words.now l o q → ⊥) }
{
    if !is_word(words, 0, b"close") {
        return None;
    }
    let layer = layer(board, words, 1)?;
    let first = owned(board, words, 2)?;
    let place = after_owned(2, first);
    let Some(second) = owned(board, words, place) else {
        return None;
    };
    if words.len() != after_owned(place, second) {
        return None;
    }
    Some(Violation::Close(layer, first, second))
}

fn outline(board: &Board, words: &Words) -> Option<Violation>
    ensures some { IfSome result (λ v. IsViolationAt board.now.parts words.now v) }
    ensures none { IfNone result ((l : LayerId) (o : Owned) → IsOutlineAt board.now.parts words.now l o → ⊥) }
{
    if !is_word(words, 0, b"outline") {
        return None;
    }
    let layer = layer(board, words, 1)?;
    let shape = owned(board, words, 2)?;
    if words.len() != after_owned(2, shape) {
        return None;
    }
    Some(Violation::Outline(layer, shape))
}

fn violation(board: &Board, words: &Words) -> Option<Violation>
    ensures some { IfSome result (λ v. IsViolationAt board.now.parts words.now v) }
    ensures none { IfNone result ((v : Violation) → IsViolationAt board.now.parts words.now v → ⊥) }
{
    if let Some(violation) = close(board, words) {
        return Some(violation);
    }
    outline(board, words)
}

impl Line for Violation {
    ghost part = { violation_line };

    ghost spelling = { violation_words };

    fn of_words(board: &Board, words: &Words) -> Option<Violation> {
        violation(board, words)
    }
}

/// For whom the points of a strip are free.
fn label(board: &Board, words: &Words) -> Option<Label>
    ensures some { IfSome result (λ l. IsLabelAt board.now.parts words.now l) }
    ensures none { IfNone result ((l : Label) → IsLabelAt board.now.parts words.now l → ⊥) }
{
    if is_form(words, b"free", 5) {
        return Some(Label::Free);
    }
    if is_form(words, b"many", 5) {
        return Some(Label::Many);
    }
    if !is_form(words, b"one", 6) {
        return None;
    }
    let net = net(board, words, 1)?;
    Some(Label::One(net))
}

/// How many words tell for whom points are free.
fn label_place(label: Label) -> usize
    ensures value { result ≡ label_place label }
    ensures few { result ≤ 2 }
{
    match label {
        Label::Free => 1,
        Label::One(_) => 2,
        Label::Many => 1,
    }
}

fn strip(board: &Board, words: &Words) -> Option<Strip>
    ensures some { IfSome result (λ s. IsStripAt board.now.parts words.now s) }
    ensures none { IfNone result ((s : Strip) → IsStripAt board.now.parts words.now s → ⊥) }
{
    let label = label(board, words)?;
    let area = area(words, label_place(label))?;
    Some(Strip { area, label })
}

impl Line for Strip {
    ghost part = { strip_line };

    ghost spelling = { strip_words };

    fn of_words(board: &Board, words: &Words) -> Option<Strip> {
        strip(board, words)
    }
}

ghost use Rattle.std.specs.Prelude.{◌≡◌, ◌++◌, ◌∷◌, [], ◌<◌, length, OnOk};
ghost use Rattle.std.specs.Fmt.{signed_decimal};
ghost use Rattle.std.specs.List.{flat_map, range_with_len};
ghost use Rattle.board_parts.specs.Lookup.{kind_name, class_name};
ghost use Rattle.board_reader.specs.declared.forms.Form.TheVariants as form;
ghost use Rattle.board_text.specs.Spelled.{kind_line, pad_line, pad_lines, inner_line, inner_lines, via_lines, kind_at, line};

use crate::words::{push_charge, push_length, push_word};
use board_model::Board;
use geo_rect::{ClassId, KindId, List, NoMemory};

#[tactic(auto, unfolding(crate::specs::Spelled::line))]
fn push_kind(text: &mut List<u8>, board: &Board, k: KindId) -> Result<(), NoMemory>
    requires { k.0 < length board.now.parts.kinds }
    ensures { OnOk result (text.new ≡ text.old ++ kind_line board.now.parts k) }
{
    let kind = board.kind(k);
    text.extend_from_slice(b"viakind")?;
    push_word(text, board.kind_name(k))?;
    push_word(text, board.layer_name(kind.first))?;
    push_word(text, board.layer_name(kind.last))?;
    push_charge(text, kind.charge)?;
    text.extend_from_slice(b"\n")
}

fn push_kinds(text: &mut List<u8>, board: &Board) -> Result<(), NoMemory>
    ensures { OnOk result
        (text.new ≡ text.old ++ flat_map (λ k. kind_line board.now.parts (kind_at k)) (range_with_len 0 (length board.now.parts.kinds))) }
{
    let kinds = board.kinds();
    for kind in 0..kinds {
        push_kind(text, board, KindId(kind))?;
    }
    Ok(())
}

#[tactic(auto, unfolding(crate::specs::Spelled::line))]
fn push_pad(text: &mut List<u8>, board: &Board, k: KindId, c: ClassId) -> Result<(), NoMemory>
    requires kind { k.0 < length board.now.parts.kinds }
    requires class { c.0 < length board.now.parts.classes }
    ensures { OnOk result (text.new ≡ text.old ++ pad_line board.now.parts k c) }
{
    text.extend_from_slice(b"pad")?;
    push_word(text, board.kind_name(k))?;
    push_word(text, board.class_name(c))?;
    push_length(text, board.pad(k, c))?;
    text.extend_from_slice(b"\n")
}

/// Adds the lines of the pads of a kind.
fn push_kind_pads(text: &mut List<u8>, board: &Board, k: KindId) -> Result<(), NoMemory>
    requires { k.0 < length board.now.parts.kinds }
    ensures { OnOk result (text.new ≡ text.old ++ pad_lines board.now.parts k) }
{
    let classes = board.classes();
    for class in 0..classes {
        push_pad(text, board, k, ClassId(class))?;
    }
    Ok(())
}

fn push_pads(text: &mut List<u8>, board: &Board) -> Result<(), NoMemory>
    ensures { OnOk result
        (text.new ≡ text.old ++ flat_map (λ k. pad_lines board.now.parts (kind_at k)) (range_with_len 0 (length board.now.parts.kinds))) }
{
    let kinds = board.kinds();
    for kind in 0..kinds {
        push_kind_pads(text, board, KindId(kind))?;
    }
    Ok(())
}

/// Adds the line that gives a kind and a class an inner pad of this half width, in micrometres.
#[tactic(auto, unfolding(crate::specs::Spelled::line))]
fn push_half(
    text: &mut List<u8>,
    board: &Board,
    k: KindId,
    c: ClassId,
    half: i32,
) -> Result<(), NoMemory>
    requires kind { k.0 < length board.now.parts.kinds }
    requires class { c.0 < length board.now.parts.classes }
    ensures { OnOk result
        (text.new ≡ text.old ++ line form.Inner (kind_name board.now.parts k ∷ class_name board.now.parts c ∷ signed_decimal half ∷ [])) }
{
    text.extend_from_slice(b"inner")?;
    push_word(text, board.kind_name(k))?;
    push_word(text, board.class_name(c))?;
    push_length(text, half)?;
    text.extend_from_slice(b"\n")
}

/// Adds the line of the inner pad of a kind and a class, where it is not the pad.
fn push_inner(text: &mut List<u8>, board: &Board, k: KindId, c: ClassId) -> Result<(), NoMemory>
    requires kind { k.0 < length board.now.parts.kinds }
    requires class { c.0 < length board.now.parts.classes }
    ensures { OnOk result (text.new ≡ text.old ++ inner_line board.now.parts k c) }
{
    let half = board.inner(k, c);
    if half == board.pad(k, c) {
        return Ok(());
    }
    push_half(text, board, k, c, half)
}

/// Adds the lines of the inner pads of a kind.
fn push_kind_inners(text: &mut List<u8>, board: &Board, k: KindId) -> Result<(), NoMemory>
    requires { k.0 < length board.now.parts.kinds }
    ensures { OnOk result (text.new ≡ text.old ++ inner_lines board.now.parts k) }
{
    let classes = board.classes();
    for class in 0..classes {
        push_inner(text, board, k, ClassId(class))?;
    }
    Ok(())
}

fn push_inners(text: &mut List<u8>, board: &Board) -> Result<(), NoMemory>
    ensures { OnOk result
        (text.new ≡ text.old ++ flat_map (λ k. inner_lines board.now.parts (kind_at k)) (range_with_len 0 (length board.now.parts.kinds))) }
{
    let kinds = board.kinds();
    for kind in 0..kinds {
        push_kind_inners(text, board, KindId(kind))?;
    }
    Ok(())
}

/// Adds the lines of the kinds of vias, and of their pads and their inner pads by kinds and classes.
#[tactic(auto, unfolding(crate::specs::Spelled::via_lines))]
pub fn push_vias(text: &mut List<u8>, board: &Board) -> Result<(), NoMemory>
    ensures { OnOk result (text.new ≡ text.old ++ via_lines board.now.parts) }
{
    push_kinds(text, board)?;
    push_pads(text, board)?;
    push_inners(text, board)
}

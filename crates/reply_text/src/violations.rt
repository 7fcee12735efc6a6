ghost use Rattle.std.specs.Prelude.{◌≡◌, ◌++◌, OnOk, All, length};
ghost use Rattle.std.specs.List.{flat_map};
ghost use Rattle.board_parts.specs.Owners.{IsOwner};
ghost use Rattle.route_law.specs.Regular.{IsLayerOf, IsRegularOwned, IsRegularViolation};
ghost use Rattle.reply_text.specs.Texts.{owner_text, owned_text, close_line, outline_line, violation_text, rules_line};

use crate::words::{push_area, push_count, push_name};
use board_model::{Board, Owned, Violation};
use geo_rect::{LayerId, List, NetId, NoMemory};

fn push_owner(text: &mut List<u8>, board: &Board, owner: Option<NetId>) -> Result<(), NoMemory>
    requires { IsOwner board.now.parts owner }
    ensures { OnOk result (text.new ≡ text.old ++ owner_text board.now.parts owner) }
{
    match owner {
        None => text.extend_from_slice(b"block"),
        Some(net) => push_name(text, b"net ", board.net_name(net)),
    }
}

#[tactic(auto, unfolding(crate::specs::Texts::owned_text))]
fn push_owned(text: &mut List<u8>, board: &Board, shape: &Owned) -> Result<(), NoMemory>
    requires { IsRegularOwned board.now.parts shape.now }
    ensures { OnOk result (text.new ≡ text.old ++ owned_text board.now.parts shape.now) }
{
    push_owner(text, board, shape.owner)?;
    push_area(text, shape.area)
}

#[tactic(auto, unfolding(crate::specs::Texts::close_line))]
fn push_close_line(
    text: &mut List<u8>,
    board: &Board,
    layer: LayerId,
    first: &Owned,
    second: &Owned,
) -> Result<(), NoMemory>
    requires layer { IsLayerOf board.now.parts layer }
    requires first { IsRegularOwned board.now.parts first.now }
    requires second { IsRegularOwned board.now.parts second.now }
    ensures { OnOk result (text.new ≡ text.old ++ close_line board.now.parts layer first.now second.now) }
{
    push_name(text, b"close ", board.layer_name(layer))?;
    text.extend_from_slice(b" ")?;
    push_owned(text, board, first)?;
    text.extend_from_slice(b" ")?;
    push_owned(text, board, second)?;
    text.extend_from_slice(b"\n")
}

#[tactic(auto, unfolding(crate::specs::Texts::outline_line))]
fn push_outline_line(
    text: &mut List<u8>,
    board: &Board,
    layer: LayerId,
    shape: &Owned,
) -> Result<(), NoMemory>
    requires layer { IsLayerOf board.now.parts layer }
    requires shape { IsRegularOwned board.now.parts shape.now }
    ensures { OnOk result (text.new ≡ text.old ++ outline_line board.now.parts layer shape.now) }
{
    push_name(text, b"outline ", board.layer_name(layer))?;
    text.extend_from_slice(b" ")?;
    push_owned(text, board, shape)?;
    text.extend_from_slice(b"\n")
}

fn push_violation(text: &mut List<u8>, board: &Board, violation: &Violation) -> Result<(), NoMemory>
    requires { IsRegularViolation board.now.parts violation.now }
    ensures { OnOk result (text.new ≡ text.old ++ violation_text board.now.parts violation.now) }
{
    match violation {
        Violation::Close(layer, first, second) => {
            push_close_line(text, board, *layer, first, second)
        }
        Violation::Outline(layer, shape) => push_outline_line(text, board, *layer, shape),
    }
}

#[tactic(auto, unfolding(crate::specs::Texts::rules_line))]
fn push_rules_line(text: &mut List<u8>, violations: u64) -> Result<(), NoMemory>
    ensures { OnOk result (text.new ≡ text.old ++ rules_line violations) }
{
    push_count(text, b"rules ", violations)?;
    text.extend_from_slice(b"\n")
}

fn push_each_violation(
    text: &mut List<u8>,
    board: &Board,
    found: &[Violation],
) -> Result<(), NoMemory>
    requires { All (IsRegularViolation board.now.parts) found.now }
    ensures { OnOk result (text.new ≡ text.old ++ flat_map (violation_text board.now.parts) found.now) }
{
    for violation in found {
        push_violation(text, board, violation)?;
    }
    Ok(())
}

/// Adds the lines of the reply to `rules`.
pub fn push_rules(text: &mut List<u8>, board: &Board, found: &[Violation]) -> Result<(), NoMemory>
    requires { All (IsRegularViolation board.now.parts) found.now }
    ensures { OnOk result
        (text.new ≡ text.old ++ rules_line (length found.now) ++ flat_map (violation_text board.now.parts) found.now) }
{
    push_rules_line(text, found.len() as u64)?;
    push_each_violation(text, board, found)
}

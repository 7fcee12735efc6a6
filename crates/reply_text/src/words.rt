ghost use Rattle.std.specs.Prelude.{◌≡◌, ◌++◌, ◌<◌, [], length, OnOk, codes, decimal};
ghost use Rattle.std.specs.Fmt.{signed_decimal};
ghost use Rattle.board_parts.specs.Lookup.{layer_name};
ghost use Rattle.reply_text.specs.Texts.{area_text, node_text};
ghost use Rattle.route_law.specs.Regular.{IsRegularNode};

use board_model::Board;
use geo_rect::{List, NoMemory, Node, Rect};
use itoa::Buffer;

/// Adds these bytes and then a name.
pub fn push_name(text: &mut List<u8>, before: &[u8], name: &str) -> Result<(), NoMemory>
    ensures { OnOk result (text.new ≡ text.old ++ before.now ++ name.now) }
{
    text.extend_from_slice(before)?;
    text.extend_from_slice(name.as_bytes())
}

/// Adds these bytes and then a number, in decimal.
pub fn push_count(text: &mut List<u8>, before: &[u8], number: u64) -> Result<(), NoMemory>
    ensures { OnOk result (text.new ≡ text.old ++ before.now ++ decimal number) }
{
    let mut buffer = Buffer::new();
    push_name(text, before, buffer.format(number))
}

/// Adds these bytes and then a cost, in decimal.
pub fn push_cost(text: &mut List<u8>, before: &[u8], cost: u128) -> Result<(), NoMemory>
    ensures { OnOk result (text.new ≡ text.old ++ before.now ++ decimal cost) }
{
    let mut buffer = Buffer::new();
    push_name(text, before, buffer.format(cost))
}

/// Adds a space and then a coordinate, in decimal.
fn push_coordinate(text: &mut List<u8>, number: i32) -> Result<(), NoMemory>
    ensures { OnOk result (text.new ≡ text.old ++ codes " " ++ signed_decimal number) }
{
    let mut buffer = Buffer::new();
    push_name(text, b" ", buffer.format(number))
}

/// Adds the four numbers of a rectangle.
pub fn push_area(text: &mut List<u8>, area: Rect) -> Result<(), NoMemory>
    ensures { OnOk result (text.new ≡ text.old ++ area_text area) }
{
    push_coordinate(text, area.x0)?;
    push_coordinate(text, area.y0)?;
    push_coordinate(text, area.x1)?;
    push_coordinate(text, area.y1)
}

/// Adds the two numbers of a node and its layer.
#[tactic(auto, unfolding(crate::specs::Texts::node_text))]
pub fn push_node(text: &mut List<u8>, board: &Board, node: Node) -> Result<(), NoMemory>
    requires { IsRegularNode board.now.parts node }
    ensures { OnOk result (text.new ≡ text.old ++ node_text board.now.parts node) }
{
    push_coordinate(text, node.x)?;
    push_coordinate(text, node.y)?;
    push_name(text, b" ", board.layer_name(node.layer))
}

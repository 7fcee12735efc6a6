ghost use Rattle.std.specs.Prelude.{◌≡◌, ◌++◌, [], OnOk, decimal};
ghost use Rattle.std.specs.Fmt.{signed_decimal};
ghost use Rattle.std.specs.List.{flat_map};
ghost use Rattle.board_text.specs.Spelled.{spaced, corners_and};

use geo_rect::{List, NoMemory, Rect};
use itoa::Buffer;

/// Adds a word behind a space.
pub fn push_word(text: &mut List<u8>, word: &str) -> Result<(), NoMemory>
    ensures { OnOk result (text.new ≡ text.old ++ spaced word.now) }
{
    text.extend_from_slice(b" ")?;
    text.extend_from_slice(word.as_bytes())
}

/// Adds a length in micrometres behind a space.
pub fn push_length(text: &mut List<u8>, length: i32) -> Result<(), NoMemory>
    ensures { OnOk result (text.new ≡ text.old ++ spaced (signed_decimal length)) }
{
    let mut buffer = Buffer::new();
    push_word(text, buffer.format(length))
}

/// Adds the charge of a via, in micrometres of wire, behind a space.
pub fn push_charge(text: &mut List<u8>, charge: u32) -> Result<(), NoMemory>
    ensures { OnOk result (text.new ≡ text.old ++ spaced (decimal charge)) }
{
    let mut buffer = Buffer::new();
    push_word(text, buffer.format(charge))
}

/// Adds the four numbers of a rectangle, each behind a space.
pub fn push_area(text: &mut List<u8>, area: Rect) -> Result<(), NoMemory>
    ensures { OnOk result (text.new ≡ text.old ++ flat_map spaced (corners_and area [])) }
{
    push_length(text, area.x0)?;
    push_length(text, area.y0)?;
    push_length(text, area.x1)?;
    push_length(text, area.y1)
}

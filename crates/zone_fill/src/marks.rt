//! The parts that are marked.

ghost use Rattle.std.specs.Prelude.{◌≡◌, length, IfOk};
ghost use Rattle.zone_fill.specs.Marks.{marked};

use geo_rect::{List, NoMemory, Rect};
use std::alloc::Global;

/// The parts whose mark is set, in order.
pub fn marked_parts(alloc: Global, parts: &[Rect], marks: &[bool]) -> Result<List<Rect>, NoMemory>
    requires { length marks.now ≡ length parts.now }
    ensures { IfOk result (λ boxes. boxes ≡ marked marks.now parts.now) }
{
    let mut boxes = List::new(alloc);
    for number in 0..parts.len() {
        if marks[number] {
            boxes.push(parts[number])?;
        }
    }
    Ok(boxes)
}

ghost use Rattle.std.specs.Prelude.{◌≡◌, ◌++◌, ◌<◌, length, OnOk, IfOk, All, codes, decimal};
ghost use Rattle.std.specs.List.{flat_map};
ghost use Rattle.gerber_out.specs.Contours.{IsFillable};
ghost use Rattle.gerber_out.specs.Layers.{areas_text, first_text, is_wanted, has_area, lines_text, region, region_text, wanted, wanted_of, IsWritable};
ghost use Rattle.gerber_out.specs.Reading.{IsRead};
ghost use Rattle.gerber_out.specs.Spelling.{line_text};

use crate::contours::corner_at;
use crate::spelling::{Line, Pen, Word, pen_text, word_text};
use board_model::{Board, Shape};
use geo_rect::{LayerId, List, NoMemory, Rect};
use itoa::Buffer;
use std::alloc::Global;

/// Adds these bytes and then a number, in decimal.
fn push_number(text: &mut List<u8>, before: &[u8], number: u64) -> Result<(), NoMemory>
    ensures { OnOk result (text.new ≡ text.old ++ (before.now ++ decimal number)) }
{
    let mut buffer = Buffer::new();
    text.extend_from_slice(before)?;
    text.extend_from_slice(buffer.format(number).as_bytes())
}

/// Adds a line.
fn push_line(text: &mut List<u8>, line: Line) -> Result<(), NoMemory>
    ensures { OnOk result (text.new ≡ text.old ++ line_text line) }
{
    match line {
        Line::Plain(word) => text.extend_from_slice(word_text(word)),
        Line::Draw(pen, corner) => {
            push_number(text, b"X", corner.x)?;
            push_number(text, b"Y", corner.y)?;
            text.extend_from_slice(pen_text(pen))
        }
    }
}

/// Adds lines.
fn push_lines(text: &mut List<u8>, lines: &[Line]) -> Result<(), NoMemory>
    ensures { OnOk result (text.new ≡ text.old ++ lines_text lines.now) }
{
    for line in lines {
        push_line(text, *line)?;
    }
    Ok(())
}

/// The lines of a region: its contour, drawn from corner to corner.
fn region(area: Rect) -> [Line; 7]
    requires { IsFillable area }
    ensures { result ≡ region area }
{
    [
        Line::Plain(Word::Begin),
        Line::Draw(Pen::Up, corner_at(area.x0, area.y0)),
        Line::Draw(Pen::Down, corner_at(area.x1, area.y0)),
        Line::Draw(Pen::Down, corner_at(area.x1, area.y1)),
        Line::Draw(Pen::Down, corner_at(area.x0, area.y1)),
        Line::Draw(Pen::Down, corner_at(area.x0, area.y0)),
        Line::Plain(Word::Close),
    ]
}

/// Whether the rectangle is more than a line or a point.
fn has_area(area: Rect) -> bool
    ensures { result ≡ has_area area }
{
    area.x0 < area.x1 && area.y0 < area.y1
}

/// Whether the shape is on the layer, belongs to a net, and has area.
fn is_wanted(shape: &Shape, layer: LayerId) -> bool
    ensures { result ≡ is_wanted layer shape.now }
{
    shape.layer.0 == layer.0 && shape.owner.is_some() && has_area(shape.area)
}

/// Adds the lines that fill a rectangle.
#[tactic(auto, unfolding(crate::specs::Layers::region_text))]
fn push_region(text: &mut List<u8>, area: Rect) -> Result<(), NoMemory>
    requires { IsFillable area }
    ensures { OnOk result (text.new ≡ text.old ++ region_text area) }
{
    push_lines(text, region(area).as_slice())
}

/// Adds a shape, if it is wanted on the layer.
#[tactic(auto, using(crate::proofs::Wanted::wanted_is_fillable))]
fn push_shape(text: &mut List<u8>, shape: &Shape, layer: LayerId) -> Result<(), NoMemory>
    requires { IsWritable layer shape.now }
    ensures { OnOk result (text.new ≡ text.old ++ flat_map region_text (wanted_of layer shape.now)) }
{
    if !is_wanted(shape, layer) {
        return Ok(());
    }
    push_region(text, shape.area)
}

fn push_shapes(text: &mut List<u8>, shapes: &[Shape], layer: LayerId) -> Result<(), NoMemory>
    requires { All (IsWritable layer) shapes.now }
    ensures { OnOk result (text.new ≡ text.old ++ flat_map region_text (wanted layer shapes.now)) }
{
    for shape in shapes {
        push_shape(text, shape, layer)?;
    }
    Ok(())
}

/// Adds the four lines with which each text begins.
#[tactic(auto, unfolding(crate::specs::Layers::first_text))]
fn push_first_lines(text: &mut List<u8>) -> Result<(), NoMemory>
    ensures { OnOk result (text.new ≡ text.old ++ first_text) }
{
    let lines = [
        Line::Plain(Word::Format),
        Line::Plain(Word::Measure),
        Line::Plain(Word::Polarity),
        Line::Plain(Word::Linear),
    ];
    push_lines(text, lines.as_slice())
}

/// Adds the text of a layer: the first lines, a region for each rectangle, and the last line.
fn push_layer(text: &mut List<u8>, shapes: &[Shape], layer: LayerId) -> Result<(), NoMemory>
    requires { All (IsWritable layer) shapes.now }
    ensures { OnOk result (text.new ≡ text.old ++ areas_text (wanted layer shapes.now)) }
{
    push_first_lines(text)?;
    push_shapes(text, shapes, layer)?;
    push_line(text, Line::Plain(Word::End))
}

/// The text of a layer of the board: what of these shapes lies on it, belongs to a net and has area
/// is filled, in order. The coordinates of these shapes are from 0 to 9,999,999.
pub fn layer_text(
    alloc: Global,
    board: &Board,
    shapes: &[Shape],
    layer: LayerId,
) -> Result<List<u8>, NoMemory>
    requires layer { layer.0 < length board.now.parts.layers }
    requires shapes { All (IsWritable layer) shapes.now }
    ensures text { IfOk result (λ text. text ≡ areas_text (wanted layer shapes.now)) }
    ensures read { IfOk result (λ text. IsRead text (wanted layer shapes.now)) }
{
    let mut text = List::new(alloc);
    push_layer(&mut text, shapes, layer)?;
    Ok(text)
}

ghost use Rattle.std.specs.Prelude.{◌≡◌, ◌∷◌, ℕ, List, IfSome, IfNone, IsTrue, ◌↔◌};
ghost use Rattle.gerber_out.specs.declared.contours.Corner.{Corner};
ghost use Rattle.gerber_out.specs.declared.spelling.Line.{Line};
ghost use Rattle.gerber_out.specs.declared.spelling.Line.TheVariants.{Draw};
ghost use Rattle.gerber_out.specs.declared.spelling.Pen.{Pen};
ghost use Rattle.gerber_out.specs.declared.spelling.Word.{Word};
ghost use Rattle.gerber_out.specs.Spelling.{word_text, pen_text, IsSpelled};

use crate::contours::{Corner, MOST_UNITS};
use crate::numbers::{are_alike, number_before};

/// A line that says no numbers.
#[derive(Clone, Copy)]
pub enum Word {
    /// Absolute coordinates with six decimals of a millimetre.
    Format,
    /// Lengths are in millimetres.
    Measure,
    /// What is drawn is copper.
    Polarity,
    /// Draws are straight.
    Linear,
    /// A contour begins.
    Begin,
    /// A contour ends and is filled.
    Close,
    /// The text ends.
    End,
}

/// Whether a contour goes on to a point, or starts there.
#[derive(Clone, Copy)]
pub enum Pen {
    Up,
    Down,
}

/// A line of the format.
#[derive(Clone, Copy)]
pub enum Line {
    Plain(Word),
    Draw(Pen, Corner),
}

/// The line that says no numbers, with its line feed.
pub fn word_text(word: Word) -> &'static [u8]
    ensures { result.now ≡ word_text word }
{
    match word {
        Word::Format => b"%FSLAX46Y46*%\n",
        Word::Measure => b"%MOMM*%\n",
        Word::Polarity => b"%LPD*%\n",
        Word::Linear => b"G01*\n",
        Word::Begin => b"G36*\n",
        Word::Close => b"G37*\n",
        Word::End => b"M02*\n",
    }
}

/// How a line with numbers ends, with its line feed.
pub fn pen_text(pen: Pen) -> &'static [u8]
    ensures { result.now ≡ pen_text pen }
{
    match pen {
        Pen::Up => b"D02*\n",
        Pen::Down => b"D01*\n",
    }
}

fn is_word(bytes: &[u8], word: Word) -> bool
    ensures { IsTrue result ↔ (word_text word ≡ bytes.now) }
{
    are_alike(word_text(word), bytes)
}

/// The line without numbers that the bytes are, if they are one.
fn word_of(bytes: &[u8]) -> Option<Word>
    ensures some { IfSome result (λ w. word_text w ≡ bytes.now) }
    ensures none { IfNone result ((w : Word) → word_text w ≡ bytes.now → ⊥) }
{
    if is_word(bytes, Word::Format) {
        return Some(Word::Format);
    }
    if is_word(bytes, Word::Measure) {
        return Some(Word::Measure);
    }
    if is_word(bytes, Word::Polarity) {
        return Some(Word::Polarity);
    }
    if is_word(bytes, Word::Linear) {
        return Some(Word::Linear);
    }
    if is_word(bytes, Word::Begin) {
        return Some(Word::Begin);
    }
    if is_word(bytes, Word::Close) {
        return Some(Word::Close);
    }
    if is_word(bytes, Word::End) {
        return Some(Word::End);
    }
    None
}

/// Whether the pen is up or down, if a line that draws ends so.
fn pen_of(bytes: &[u8]) -> Option<Pen>
    ensures some { IfSome result (λ p. pen_text p ≡ 68 ∷ bytes.now) }
    ensures none { IfNone result ((p : Pen) → pen_text p ≡ 68 ∷ bytes.now → ⊥) }
{
    if are_alike(bytes, b"02*\n") {
        return Some(Pen::Up);
    }
    if are_alike(bytes, b"01*\n") {
        return Some(Pen::Down);
    }
    None
}

/// What stands behind a first byte `X`, if that is the first.
fn behind_x(bytes: &[u8]) -> Option<&[u8]>
    ensures some { IfSome result (λ r. bytes.now ≡ 88 ∷ r.now) }
    ensures none { IfNone result ((r : List ℕ) → bytes.now ≡ 88 ∷ r → ⊥) }
{
    if bytes.is_empty() || bytes[0] != b'X' {
        return None;
    }
    Some(&bytes[1..])
}

/// The line with numbers that the bytes are, if they are one.
fn draw_of(bytes: &[u8]) -> Option<Line>
    ensures some { IfSome result (λ l. IsSpelled l bytes.now) }
    ensures none { IfNone result ((p : Pen) → (c : Corner) → IsSpelled (Draw p c) bytes.now → ⊥) }
{
    let Some(numbers) = behind_x(bytes) else {
        return None;
    };
    let Some((x, rest)) = number_before(numbers, b'Y', MOST_UNITS) else {
        return None;
    };
    let Some((y, end)) = number_before(rest, b'D', MOST_UNITS) else {
        return None;
    };
    let Some(pen) = pen_of(end) else {
        return None;
    };
    Some(Line::Draw(pen, Corner { x, y }))
}

/// The line that the bytes are, if they are one.
pub fn line_of(bytes: &[u8]) -> Option<Line>
    ensures some { IfSome result (λ l. IsSpelled l bytes.now) }
    ensures none { IfNone result ((l : Line) → IsSpelled l bytes.now → ⊥) }
{
    if let Some(word) = word_of(bytes) {
        return Some(Line::Plain(word));
    }
    draw_of(bytes)
}

ghost use Rattle.std.specs.Prelude.{◌≡◌, ◌≢◌, IsTrue, ◌↔◌, true, false};

use crate::contours::{Corner, enclosed};
use crate::spelling::{Line, Pen, Word};
use geo_rect::{List, NoMemory, Rect};
use std::alloc::Global;

/// What may come next.
#[derive(Clone, Copy, PartialEq, Eq)]
pub enum Stage {
    /// The first of the four first lines, and so on to the fourth.
    First,
    Second,
    Third,
    Fourth,
    /// A contour, or the end.
    Outside,
    /// A point of a contour, or its end.
    Inside,
    /// Nothing.
    Ended,
}

/// What the lines so far say.
#[derive(Drop)]
pub struct Machine {
    pub stage: Stage,
    /// The points of the contour so far.
    pub contour: List<Corner>,
    pub filled: List<Rect>,
}

fn are_same(a: Stage, b: Stage) -> bool
    ensures { IsTrue result ↔ (a ≡ b) }
{
    a == b
}

impl Machine {
    ghost use Rattle.gerber_out.specs.Machine.{no_lines, Passes, Appends, Fills, Starts, GoesOn};
    ghost use Rattle.gerber_out.specs.Reading.{TellsStep, TellsAppended};
    ghost use Rattle.gerber_out.specs.declared.machine.Stage.TheVariants as stage;
    ghost use Rattle.gerber_out.specs.declared.spelling.Line.TheVariants as line;
    ghost use Rattle.gerber_out.specs.declared.spelling.Pen.TheVariants as pen;
    ghost use Rattle.gerber_out.specs.declared.spelling.Word.TheVariants as word;

    /// What no lines say. It takes no memory.
    pub fn new(alloc: Global) -> Machine
        ensures { result ≡ no_lines }
    {
        Machine {
            stage: Stage::First,
            contour: List::new(alloc),
            filled: List::new(alloc),
        }
    }

    /// Goes from one stage to the next, if it is at that one.
    fn pass(&mut self, from: Stage, to: Stage) -> bool
        ensures passed { result ≡ true → Passes from to self.old self.new }
        ensures stood { result ≡ false → self.old.stage ≢ from }
    {
        if !are_same(self.stage, from) {
            return false;
        }
        self.stage = to;
        true
    }

    /// Whether the line that ends a text has come.
    pub fn is_ended(&self) -> bool
        ensures { IsTrue result ↔ (self.now.stage ≡ stage.Ended) }
    {
        are_same(self.stage, Stage::Ended)
    }

    /// Adds a point to the contour.
    fn append(&mut self, corner: Corner) -> Result<bool, NoMemory>
        ensures { TellsAppended corner self.old self.new result }
    {
        if !are_same(self.stage, Stage::Inside) {
            return Ok(false);
        }
        self.contour.push(corner)?;
        Ok(true)
    }

    /// Draws to a point: the first of a contour with the pen up, and the next four with it down.
    fn draw(&mut self, pen: Pen, corner: Corner) -> Result<bool, NoMemory>
        ensures { TellsStep (line.Draw pen corner) self.old self.new result }
    {
        let points = self.contour.len();
        match pen {
            Pen::Up => {
                if points != 0 {
                    return Ok(false);
                }
            }
            Pen::Down => {
                if points == 0 || points > 4 {
                    return Ok(false);
                }
            }
        }
        self.append(corner)
    }

    /// Ends the contour and fills it, if it is that of a rectangle.
    fn fill(&mut self, alloc: Global) -> Result<bool, NoMemory>
        ensures { TellsStep (line.Plain word.Close) self.old self.new result }
    {
        if !are_same(self.stage, Stage::Inside) {
            return Ok(false);
        }
        let Some(area) = enclosed(self.contour.as_slice()) else {
            return Ok(false);
        };
        self.filled.push(area)?;
        self.contour = List::new(alloc);
        self.stage = Stage::Outside;
        Ok(true)
    }

    /// Takes a line, if it may stand here. After `NoMemory` the machine is not to be used.
    fn take_word(&mut self, alloc: Global, word: Word) -> Result<bool, NoMemory>
        ensures { TellsStep (line.Plain word) self.old self.new result }
    {
        match word {
            Word::Format => Ok(self.pass(Stage::First, Stage::Second)),
            Word::Measure => Ok(self.pass(Stage::Second, Stage::Third)),
            Word::Polarity => Ok(self.pass(Stage::Third, Stage::Fourth)),
            Word::Linear => Ok(self.pass(Stage::Fourth, Stage::Outside)),
            Word::Begin => Ok(self.pass(Stage::Outside, Stage::Inside)),
            Word::Close => self.fill(alloc),
            Word::End => Ok(self.pass(Stage::Outside, Stage::Ended)),
        }
    }

    /// Takes a line, if it may stand here. After `NoMemory` the machine is not to be used.
    pub fn take(&mut self, alloc: Global, line: Line) -> Result<bool, NoMemory>
        ensures { TellsStep line self.old self.new result }
    {
        match line {
            Line::Plain(word) => self.take_word(alloc, word),
            Line::Draw(pen, corner) => self.draw(pen, corner),
        }
    }
}

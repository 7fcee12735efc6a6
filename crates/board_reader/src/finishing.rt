ghost use Rattle.std.specs.Prelude.{◌≡◌, ◌<◌, ◌^◌, ◌++◌, pos, [], All, Ok, OnOk};
ghost use Rattle.board_parts.specs.Lookup.{empty_parts};
ghost use Rattle.board_parts.specs.Rules.{IsName};
ghost use Rattle.board_reader.specs.declared.forms.Stage.TheVariants.{Commands};
ghost use Rattle.board_reader.specs.Contract.{TellsReading};
ghost use Rattle.board_reader.specs.Drafts.{parts_of};
ghost use Rattle.board_reader.specs.Filling.{with_names, with_tables, with_lists};
ghost use Rattle.board_reader.specs.Kept.{IsDraft, AreTables};
ghost use Rattle.board_reader.specs.Reading.{told, reading_from};
ghost use Rattle.board_reader.specs.Tables.{table};

use crate::drafts::Draft;
use crate::forms::Stage;
use crate::inputs::Input;
use crate::refusals::{ReadInput, Refusal, RefusalKind};
use crate::tables::{Entry, lay_out};
use board_parts::{Board, BoardParts};
use geo_rect::{List, NoMemory};
use std::alloc::Global;
use std::mem::{replace, swap};

/// A length in micrometres as the board holds it.
fn signed(length: u32) -> i32
    requires { length < 2 ^ 31 }
    ensures { result ≡ pos length }
{
    length as i32
}

/// Adds the inner pads by kinds of vias, and in each kind by classes: that of a line `inner`, or else
/// the pad. After it the lines `inner` are not to be used.
fn lay_out_inners(
    list: &mut List<i32>,
    inners: &mut List<Entry<i32>>,
    pads: &[Entry<i32>],
    kinds: u32,
    classes: u32,
) -> Result<(), NoMemory>
    ensures { OnOk result (list.new ≡ list.old ++ table (inners.old ++ pads.now) kinds classes) }
{
    inners.extend_from_slice(pads)?;
    lay_out(list, inners.as_slice(), kinds, classes)
}

impl Draft {
    /// Adds the names.
    fn put_names(&self, alloc: Global, parts: &mut BoardParts) -> Result<(), NoMemory>
        requires layers { All IsName self.now.layers }
        requires classes { All IsName self.now.classes }
        requires kinds { All IsName self.now.kind_names }
        requires nets { All IsName self.now.net_names }
        ensures { OnOk result (parts.new ≡ with_names parts.old self.now) }
    {
        self.layers.put(alloc, &mut parts.layers)?;
        self.classes.put(alloc, &mut parts.classes)?;
        self.kind_names.put(alloc, &mut parts.kind_names)?;
        self.net_names.put(alloc, &mut parts.net_names)
    }

    /// Adds the tables. After it the lines `inner` are not to be used.
    fn put_tables(&mut self, parts: &mut BoardParts) -> Result<(), NoMemory>
        requires { AreTables self.old.rules self.old.clears self.old.pads }
        ensures tables { OnOk result (parts.new ≡ with_tables parts.old self.old) }
        ensures rest { OnOk result (self.new ≡ record self.old { inners = self.new.inners }) }
    {
        let layers = self.layers.len();
        let classes = self.classes.len();
        let kinds = self.kind_names.len();
        lay_out(&mut parts.rules, self.rules.as_slice(), layers, classes)?;
        self.push_gaps(&mut parts.gaps, layers, classes)?;
        lay_out(&mut parts.pads, self.pads.as_slice(), kinds, classes)?;
        let pads = self.pads.as_slice();
        lay_out_inners(&mut parts.inners, &mut self.inners, pads, kinds, classes)
    }

    /// Moves the lists that stay as they are.
    fn put_lists(&mut self, parts: &mut BoardParts)
        ensures lists { parts.new ≡ with_lists parts.old self.old }
        ensures commands { self.new.commands ≡ self.old.commands }
    {
        swap(&mut self.kinds, &mut parts.kinds);
        swap(&mut self.blocks, &mut parts.blocks);
        swap(&mut self.keepouts, &mut parts.keepouts);
        swap(&mut self.net_classes, &mut parts.net_classes);
        swap(&mut self.pins, &mut parts.pins);
    }

    /// Puts all into the lists of a board that has its name and its size alone. After it the draft
    /// has its commands, and is not to be used for more.
    fn fill(&mut self, alloc: Global, parts: &mut BoardParts) -> Result<(), NoMemory>
        requires draft { IsDraft self.old }
        requires empty { parts.old ≡ empty_parts self.old.heading.name (pos self.old.heading.width) (pos self.old.heading.height) }
        ensures parts { OnOk result (parts.new ≡ parts_of self.old) }
        ensures commands { OnOk result (self.new.commands ≡ self.old.commands) }
    {
        self.put_names(alloc, parts)?;
        self.put_tables(parts)?;
        self.put_lists(parts);
        Ok(())
    }

    /// The board and the commands of a whole text. After it the draft is not to be used.
    fn finish(&mut self, alloc: Global) -> Result<Input, ReadInput>
        requires draft { IsDraft self.old }
        requires ended { self.old.stage ≡ Commands }
        ensures { TellsReading result (Ok (told self.old)) }
    {
        let width = signed(self.heading.width);
        let height = signed(self.heading.height);
        let mut parts = BoardParts::new(alloc, self.heading.name.as_str(), width, height)?;
        self.fill(alloc, &mut parts)?;
        let board = Board::build(alloc, parts)?;
        Ok(Input {
            board,
            commands: replace(&mut self.commands, List::new(alloc)),
        })
    }

    /// What a text says whose lines are at their end, where `next` is the number that one more line
    /// would have. After it the draft is not to be used.
    pub fn end(&mut self, alloc: Global, next: u64) -> Result<Input, ReadInput>
        requires { IsDraft self.old }
        ensures { TellsReading result (reading_from self.old next []) }
    {
        match self.stage {
            Stage::Commands => self.finish(alloc),
            Stage::Start | Stage::Parts => Err(ReadInput::Refused(Refusal {
                line: next,
                kind: RefusalKind::NoEnd,
            })),
        }
    }
}

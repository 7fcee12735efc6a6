ghost use Rattle.std.specs.Prelude.{IfOk, All, ◌≡◌, OnOk};
ghost use Rattle.board_parts.specs.Commands.{IsCommandOf};
ghost use Rattle.board_reader.specs.declared.reading.LineError.TheVariants as line_error;
ghost use Rattle.board_reader.specs.Contract.{at_line, TellsReading, TellsStep, TellsLines};
ghost use Rattle.board_reader.specs.Drafts.{after_form};
ghost use Rattle.board_reader.specs.Kept.{IsDraft, IsWord};
ghost use Rattle.line_words.specs.Lines.{lines};
ghost use Rattle.board_reader.specs.Passing.{BreaksNone};
ghost use Rattle.board_reader.specs.Reading.{step, reading_from, reading};

use crate::drafts::Draft;
use crate::forms::{Form, form_of};
use crate::inputs::Input;
use crate::refusals::{ReadInput, Refusal, RefusalKind};
use geo_rect::NoMemory;
use line_words::{Words, counts, next_line};
use std::alloc::Global;

/// Why a line was not read.
#[derive(Clone, Copy)]
pub enum LineError {
    Refused(RefusalKind),
    NoMemory,
}

impl From<NoMemory> for LineError {
    ghost from_gives = { λ _ e. e ≡ line_error.NoMemory };

    fn from(_error: NoMemory) -> LineError {
        LineError::NoMemory
    }
}

impl LineError {
    /// The same of line number `line` of a text.
    fn at(self, line: u64) -> ReadInput
        ensures { result ≡ at_line self line }
    {
        match self {
            LineError::Refused(kind) => ReadInput::Refused(Refusal { line, kind }),
            LineError::NoMemory => ReadInput::NoMemory,
        }
    }
}

impl Draft {
    /// Adds what a line of this form and these words says.
    fn add(&mut self, alloc: Global, form: Form, words: &Words) -> Result<(), NoMemory>
        requires draft { IsDraft self.old }
        requires words { All IsWord words.now }
        requires passes { BreaksNone self.old form words.now }
        ensures { OnOk result (self.new ≡ after_form self.old form words.now) }
    {
        match form {
            Form::Board => self.add_board(alloc, words),
            Form::Layer => self.add_layer(alloc, words),
            Form::Class => self.add_class(alloc, words),
            Form::Rule => self.add_rule(words),
            Form::Clear => self.add_clear(words),
            Form::ViaKind => self.add_kind(alloc, words),
            Form::Pad => self.add_pad(words),
            Form::Inner => self.add_inner(words),
            Form::Block => self.add_block(words),
            Form::Keepout => self.add_keepout(words),
            Form::Net => self.add_net(alloc, words),
            Form::Pin => self.add_pin(words),
            Form::End => {
                self.add_end(words);
                Ok(())
            }
            Form::Route | Form::All | Form::Rip | Form::Show | Form::Rules | Form::Strips =>
                self.add_command(form, words),
        }
    }

    /// Reads one line. After an error the draft is not to be used.
    fn read_line(&mut self, alloc: Global, line: &[u8]) -> Result<(), LineError>
        requires { IsDraft self.old }
        ensures { TellsStep result (step self.old line.now) self.new }
    {
        if !counts(line) {
            return Ok(());
        }
        let words = Words::of(alloc, line)?;
        if let Some(kind) = self.kind_with(line, &words) {
            return Err(LineError::Refused(kind));
        }
        if let Some(form) = form_of(words.get(0)) {
            self.add(alloc, form, &words)?;
        }
        Ok(())
    }

    /// Reads all lines, and gives the number that one more line would have. After an error the
    /// draft is not to be used.
    fn read_lines(&mut self, alloc: Global, text: &[u8]) -> Result<u64, ReadInput>
        requires { IsDraft self.old }
        ensures { TellsLines result (reading_from self.old 1 (lines text.now)) self.new }
    {
        let mut rest = text;
        let mut number = 1;
        while !rest.is_empty() {
            let (line, after) = next_line(rest);
            match self.read_line(alloc, line) {
                Ok(()) => {}
                Err(error) => return Err(error.at(number)),
            }
            rest = after;
            number += 1;
        }
        Ok(number)
    }

    /// Reads a whole text. After it the draft is not to be used.
    fn read(&mut self, alloc: Global, text: &[u8]) -> Result<Input, ReadInput>
        requires { IsDraft self.old }
        ensures { TellsReading result (reading_from self.old 1 (lines text.now)) }
    {
        match self.read_lines(alloc, text) {
            Ok(next) => self.end(alloc, next),
            Err(error) => Err(error),
        }
    }
}

/// Reads a board text: the board and the commands, or the first line that breaks a rule.
pub fn read_input(alloc: Global, bytes: &[u8]) -> Result<Input, ReadInput>
    ensures reading { TellsReading result (reading bytes.now) }
    ensures commands { IfOk result (λ i. All (IsCommandOf i.board.parts) i.commands) }
{
    let mut draft = Draft::new(alloc);
    draft.read(alloc, bytes)
}

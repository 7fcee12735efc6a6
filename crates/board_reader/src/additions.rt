ghost use Rattle.std.specs.Prelude.{◌≡◌, ◌<◌, ◌≤◌, ◌^◌, length, OnOk, pos, min, max, false};
ghost use Rattle.std.specs.Str.{IsAscii};
ghost use Rattle.board_reader.specs.declared.forms.Form.TheVariants as form;
ghost use Rattle.board_reader.specs.Corners.{span};
ghost use Rattle.board_reader.specs.Drafts.{after_form, area_at, command_of, net_of, with_command};
ghost use Rattle.line_words.specs.Lines.{word};
ghost use Rattle.board_reader.specs.Lengths.{IsShort, HaveShortCorners};
ghost use Rattle.board_reader.specs.Names.{is_in};
ghost use Rattle.line_words.specs.Numbers.{number};

use crate::checks::says_wires;
use crate::drafts::{Draft, Heading};
use crate::forms::{Form, Stage};
use crate::gaps::Clear;
use crate::names::text_of;
use crate::tables::Entry;
use board_parts::{Block, Command, Keepout, Pin, Rule, ViaKind};
use geo_rect::{ClassId, Interval, LayerId, NetId, NoMemory, Rect};
use line_words::{Words, number};
use std::alloc::Global;

/// The number of a word as a length in micrometres.
fn micrometres(word: &[u8]) -> i32
    requires { IsShort word.now }
    ensures { result ≡ pos (number word.now) }
{
    number(word) as i32
}

/// The interval between the numbers of two words.
fn span(one: &[u8], other: &[u8]) -> Interval
    requires one { IsShort one.now }
    requires other { IsShort other.now }
    ensures { result ≡ span (number one.now) (number other.now) }
{
    let one = number(one) as u32;
    let other = number(other) as u32;
    Interval {
        low: one.min(other) as i32,
        high: one.max(other) as i32,
    }
}

/// The rectangle of the corners in the four places from this one on.
fn area_at(words: &Words, first: usize) -> Rect
    requires place { first ≤ 3 }
    requires corners { HaveShortCorners words.now first }
    ensures { result ≡ area_at words.now first }
{
    Rect::of(
        span(words.get(first), words.get(first + 2)),
        span(words.get(first + 1), words.get(first + 3)),
    )
}

impl Draft {
    #[tactic(auto, unfolding(crate::specs::Drafts::after_form))]
    pub fn add_board(&mut self, alloc: Global, words: &Words) -> Result<(), NoMemory>
        requires version { IsShort (word words.now 1) }
        requires name { IsAscii (word words.now 2) }
        requires width { IsShort (word words.now 3) }
        requires height { IsShort (word words.now 4) }
        ensures { OnOk result (self.new ≡ after_form self.old form.Board words.now) }
    {
        self.heading = Heading {
            version: number(words.get(1)) as u32,
            name: text_of(alloc, words.get(2))?,
            width: number(words.get(3)) as u32,
            height: number(words.get(4)) as u32,
        };
        self.stage = Stage::Parts;
        Ok(())
    }

    #[tactic(auto, unfolding(crate::specs::Drafts::after_form))]
    pub fn add_layer(&mut self, alloc: Global, words: &Words) -> Result<(), NoMemory>
        requires fresh { is_in self.old.layers (word words.now 1) ≡ false }
        requires room { length self.old.layers < 65536 }
        ensures { OnOk result (self.new ≡ after_form self.old form.Layer words.now) }
    {
        self.layers.push(alloc, words.get(1))
    }

    #[tactic(auto, unfolding(crate::specs::Drafts::after_form))]
    pub fn add_class(&mut self, alloc: Global, words: &Words) -> Result<(), NoMemory>
        requires fresh { is_in self.old.classes (word words.now 1) ≡ false }
        requires room { length self.old.classes < 65536 }
        ensures { OnOk result (self.new ≡ after_form self.old form.Class words.now) }
    {
        self.classes.push(alloc, words.get(1))
    }

    #[tactic(auto, unfolding(crate::specs::Drafts::after_form))]
    pub fn add_rule(&mut self, words: &Words) -> Result<(), NoMemory>
        requires half { IsShort (word words.now 3) }
        requires gap { IsShort (word words.now 4) }
        ensures { OnOk result (self.new ≡ after_form self.old form.Rule words.now) }
    {
        let entry = Entry {
            row: self.layers.number(words.get(1)),
            column: self.classes.number(words.get(2)),
            value: Rule {
                half: micrometres(words.get(3)),
                gap: micrometres(words.get(4)),
            },
        };
        self.rules.push(entry)
    }

    #[tactic(auto, unfolding(crate::specs::Drafts::after_form))]
    pub fn add_clear(&mut self, words: &Words) -> Result<(), NoMemory>
        requires { IsShort (word words.now 4) }
        ensures { OnOk result (self.new ≡ after_form self.old form.Clear words.now) }
    {
        let one = self.classes.number(words.get(2));
        let other = self.classes.number(words.get(3));
        let clear = Clear {
            layer: self.layers.number(words.get(1)),
            low: one.min(other),
            high: one.max(other),
            gap: micrometres(words.get(4)),
        };
        self.clears.push(clear)
    }

    #[tactic(auto, unfolding(crate::specs::Drafts::after_form))]
    pub fn add_kind(&mut self, alloc: Global, words: &Words) -> Result<(), NoMemory>
        requires fresh { is_in self.old.kind_names (word words.now 1) ≡ false }
        requires room { length self.old.kind_names < 65536 }
        requires charge { IsShort (word words.now 4) }
        ensures { OnOk result (self.new ≡ after_form self.old form.ViaKind words.now) }
    {
        let one = self.layers.number(words.get(2));
        let other = self.layers.number(words.get(3));
        let kind = ViaKind {
            first: LayerId(one.min(other)),
            last: LayerId(one.max(other)),
            charge: number(words.get(4)) as u32,
        };
        self.kinds.push(kind)?;
        self.kind_names.push(alloc, words.get(1))
    }

    #[tactic(auto, unfolding(crate::specs::Drafts::after_form))]
    pub fn add_pad(&mut self, words: &Words) -> Result<(), NoMemory>
        requires { IsShort (word words.now 3) }
        ensures { OnOk result (self.new ≡ after_form self.old form.Pad words.now) }
    {
        let entry = Entry {
            row: self.kind_names.number(words.get(1)),
            column: self.classes.number(words.get(2)),
            value: micrometres(words.get(3)),
        };
        self.pads.push(entry)
    }

    #[tactic(auto, unfolding(crate::specs::Drafts::after_form))]
    pub fn add_inner(&mut self, words: &Words) -> Result<(), NoMemory>
        requires { IsShort (word words.now 3) }
        ensures { OnOk result (self.new ≡ after_form self.old form.Inner words.now) }
    {
        let entry = Entry {
            row: self.kind_names.number(words.get(1)),
            column: self.classes.number(words.get(2)),
            value: micrometres(words.get(3)),
        };
        self.inners.push(entry)
    }

    #[tactic(auto, unfolding(crate::specs::Drafts::after_form))]
    pub fn add_block(&mut self, words: &Words) -> Result<(), NoMemory>
        requires { HaveShortCorners words.now 2 }
        ensures { OnOk result (self.new ≡ after_form self.old form.Block words.now) }
    {
        let block = Block {
            layer: LayerId(self.layers.number(words.get(1))),
            area: area_at(words, 2),
        };
        self.blocks.push(block)
    }

    #[tactic(auto, unfolding(crate::specs::Drafts::after_form))]
    pub fn add_keepout(&mut self, words: &Words) -> Result<(), NoMemory>
        requires { HaveShortCorners words.now 3 }
        ensures { OnOk result (self.new ≡ after_form self.old form.Keepout words.now) }
    {
        let keepout = Keepout {
            wires: says_wires(words.get(1)),
            layer: LayerId(self.layers.number(words.get(2))),
            area: area_at(words, 3),
        };
        self.keepouts.push(keepout)
    }

    #[tactic(auto, unfolding(crate::specs::Drafts::after_form))]
    pub fn add_net(&mut self, alloc: Global, words: &Words) -> Result<(), NoMemory>
        requires fresh { is_in self.old.net_names (word words.now 1) ≡ false }
        requires room { length self.old.net_names < 65536 }
        ensures { OnOk result (self.new ≡ after_form self.old form.Net words.now) }
    {
        let class = ClassId(self.classes.number(words.get(2)));
        self.net_classes.push(class)?;
        self.net_names.push(alloc, words.get(1))
    }

    /// The net that a word names.
    fn net_of(&self, word: &[u8]) -> NetId
        ensures { result ≡ net_of self.now word.now }
    {
        NetId(self.net_names.number(word))
    }

    #[tactic(auto, unfolding(crate::specs::Drafts::after_form))]
    pub fn add_pin(&mut self, words: &Words) -> Result<(), NoMemory>
        requires { HaveShortCorners words.now 2 }
        ensures { OnOk result (self.new ≡ after_form self.old form.Pin words.now) }
    {
        let one = self.layers.number(words.get(6));
        let other = self.layers.number(words.get(7));
        let pin = Pin {
            net: self.net_of(words.get(1)),
            area: area_at(words, 2),
            first: LayerId(one.min(other)),
            last: LayerId(one.max(other)),
        };
        self.pins.push(pin)
    }

    #[tactic(auto, unfolding(crate::specs::Drafts::after_form))]
    pub fn add_end(&mut self, _words: &Words)
        ensures { self.new ≡ after_form self.old form.End _words.now }
    {
        self.stage = Stage::Commands;
    }

    /// The command that a line of this form and these words gives, if it gives one.
    fn command_of(&self, form: Form, words: &Words) -> Option<Command>
        ensures { result ≡ command_of self.now form words.now }
    {
        match form {
            Form::Route => Some(Command::Route(self.net_of(words.get(1)))),
            Form::All => Some(Command::All),
            Form::Rip => Some(Command::Rip(self.net_of(words.get(1)))),
            Form::Show => Some(Command::Show(self.net_of(words.get(1)))),
            Form::Rules => Some(Command::Rules),
            Form::Strips => {
                let layer = LayerId(self.layers.number(words.get(1)));
                let class = ClassId(self.classes.number(words.get(2)));
                Some(Command::Strips(layer, class))
            }
            _ => None,
        }
    }

    pub fn add_command(&mut self, form: Form, words: &Words) -> Result<(), NoMemory>
        ensures { OnOk result (self.new ≡ with_command self.old (command_of self.old form words.now)) }
    {
        match self.command_of(form, words) {
            Some(command) => self.commands.push(command),
            None => Ok(()),
        }
    }
}

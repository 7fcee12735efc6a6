ghost use Rattle.std.specs.Prelude.{◌≡◌, ◌+◌, length};
ghost use Rattle.std.specs.Prelude.{find, nat_lt, ◌≤◌, ◌==◌, ◌&&◌, ◌||◌, not};
ghost use Rattle.board_parts.specs.declared.limits.TheConstants.{MAX_BLOCKS};
ghost use Rattle.board_reader.specs.Checks.{names_of, is_bad_word, is_no_number, is_unknown, is_taken, is_outside, fails, some_fails, is_given, has_two_layers, is_crossed, is_bad_rect, is_one_too_many, is_complete, is_missing, is_too_new, is_too_great, fails_whole, breaks, kind_with, form_order};
ghost use Rattle.board_reader.specs.Drafts.{kind_of, nth_kind, says_wires, says_vias};
ghost use Rattle.board_reader.specs.Forms.{places};
ghost use Rattle.line_words.specs.Lines.{word};
ghost use Rattle.line_words.specs.Numbers.{number};

use crate::drafts::Draft;
use crate::forms::{Form, Place, Sort, form_of};
use crate::gaps::clear_at;
use crate::names::Names;
use crate::refusals::RefusalKind;
use crate::tables::{is_full, value_at};
use board_parts::{
    MAX_BLOCKS, MAX_CLASSES, MAX_COMMANDS, MAX_KINDS, MAX_LAYERS, MAX_NAME, MAX_NETS, MAX_PINS,
};
use line_words::{Words, has_other_byte, is_number, number};

/// The kinds that are left for a line whose first word is a form, in the order in which they are told.
const ORDER: [RefusalKind; 9] = [
    RefusalKind::BadWord,
    RefusalKind::WrongPlace,
    RefusalKind::BadNumber,
    RefusalKind::UnknownName,
    RefusalKind::TwiceNamed,
    RefusalKind::OutOfRange,
    RefusalKind::BadRect,
    RefusalKind::TooMany,
    RefusalKind::MissingRule,
];

/// Whether a word says that a keep-out is for wires.
pub fn says_wires(word: &[u8]) -> bool
    ensures { result ≡ says_wires word.now }
{
    let wires: &[u8] = b"wires";
    word == wires
}

/// Whether a word says neither that a keep-out is for wires nor that it is for vias.
fn says_neither(word: &[u8]) -> bool
    ensures { result ≡ not (says_wires word.now || says_vias word.now) }
{
    if says_wires(word) {
        return false;
    }
    let vias: &[u8] = b"vias";
    word != vias
}

fn is_bad_word(place: Place, word: &[u8]) -> bool
    ensures { result ≡ is_bad_word place word.now }
{
    match place {
        Place::Title | Place::NewName(_) | Place::KnownName(_) => word.len() > MAX_NAME,
        Place::KeptOut => says_neither(word),
        Place::Number(_, _) | Place::Across | Place::Up => false,
    }
}

fn is_no_number(place: Place, word: &[u8]) -> bool
    ensures { result ≡ is_no_number place word.now }
{
    match place {
        Place::Title | Place::NewName(_) | Place::KnownName(_) | Place::KeptOut => false,
        Place::Number(_, _) | Place::Across | Place::Up => !is_number(word),
    }
}

impl Draft {
    /// The names of a sort that the lines so far gave.
    fn names_of(&self, sort: Sort) -> &Names
        ensures { result.now ≡ names_of self.now sort }
    {
        match sort {
            Sort::Layer => &self.layers,
            Sort::Class => &self.classes,
            Sort::Kind => &self.kind_names,
            Sort::Net => &self.net_names,
        }
    }

    fn is_unknown(&self, place: Place, word: &[u8]) -> bool
        ensures { result ≡ is_unknown self.now place word.now }
    {
        match place {
            Place::KnownName(sort) => !self.names_of(sort).contains(word),
            Place::Title | Place::NewName(_) | Place::KeptOut => false,
            Place::Number(_, _) | Place::Across | Place::Up => false,
        }
    }

    fn is_taken(&self, place: Place, word: &[u8]) -> bool
        ensures { result ≡ is_taken self.now place word.now }
    {
        match place {
            Place::NewName(sort) => self.names_of(sort).contains(word),
            Place::Title | Place::KnownName(_) | Place::KeptOut => false,
            Place::Number(_, _) | Place::Across | Place::Up => false,
        }
    }

    fn is_outside(&self, place: Place, word: &[u8]) -> bool
        ensures { result ≡ is_outside self.now place word.now }
    {
        match place {
            Place::Number(from, to) => {
                let number = number(word);
                number < u128::from(from) || number > u128::from(to)
            }
            Place::Across => number(word) > u128::from(self.heading.width),
            Place::Up => number(word) > u128::from(self.heading.height),
            Place::Title | Place::NewName(_) | Place::KnownName(_) | Place::KeptOut => false,
        }
    }

    /// Whether a word breaks a rule of its place of this kind.
    #[tactic(auto, unfolding(crate::specs::Checks::fails))]
    fn fails(&self, kind: RefusalKind, place: Place, word: &[u8]) -> bool
        ensures { result ≡ fails self.now kind place word.now }
    {
        match kind {
            RefusalKind::BadWord => is_bad_word(place, word),
            RefusalKind::BadNumber => is_no_number(place, word),
            RefusalKind::UnknownName => self.is_unknown(place, word),
            RefusalKind::TwiceNamed => self.is_taken(place, word),
            RefusalKind::OutOfRange => self.is_outside(place, word),
            _ => false,
        }
    }

    /// Whether a word after the first breaks a rule of its place of this kind.
    fn some_fails(&self, kind: RefusalKind, places: &[Place], words: &Words) -> bool
        ensures { result ≡ some_fails self.now kind words.now 1 places.now }
    {
        for (index, place) in places.iter().enumerate() {
            if self.fails(kind, *place, words.get(index + 1)) {
                return true;
            }
        }
        false
    }

    /// Whether a line before gave the same rule, gap, pad or inner pad.
    fn is_given(&self, form: Form, words: &Words) -> bool
        ensures { result ≡ is_given self.now form words.now }
    {
        match form {
            Form::Rule => {
                let layer = self.layers.number(words.get(1));
                let class = self.classes.number(words.get(2));
                value_at(self.rules.as_slice(), layer, class).is_some()
            }
            Form::Clear => {
                let layer = self.layers.number(words.get(1));
                let one = self.classes.number(words.get(2));
                let other = self.classes.number(words.get(3));
                clear_at(self.clears.as_slice(), layer, one, other).is_some()
            }
            Form::Pad => {
                let kind = self.kind_names.number(words.get(1));
                let class = self.classes.number(words.get(2));
                value_at(self.pads.as_slice(), kind, class).is_some()
            }
            Form::Inner => {
                let kind = self.kind_names.number(words.get(1));
                let class = self.classes.number(words.get(2));
                value_at(self.inners.as_slice(), kind, class).is_some()
            }
            _ => false,
        }
    }

    /// Whether the kind that a word names joins two layers and none between them.
    fn has_two_layers(&self, word: &[u8]) -> bool
        ensures { result ≡ has_two_layers (nth_kind self.now.kinds (kind_of self.now word.now)) }
    {
        let number = self.kind_names.number(word);
        match self.kinds.as_slice().get(number as usize) {
            Some(kind) => u64::from(kind.last.0) == u64::from(kind.first.0) + 1,
            None => false,
        }
    }

    /// Whether the corners are not in order, the two layers of a kind are one, or an inner pad is of
    /// a kind of two layers.
    fn is_bad_rect(&self, form: Form, words: &Words) -> bool
        ensures { result ≡ is_bad_rect self.now form words.now }
    {
        match form {
            Form::Block | Form::Pin => is_crossed(words, 2),
            Form::Keepout => is_crossed(words, 3),
            Form::ViaKind => {
                let one = self.layers.number(words.get(2));
                let other = self.layers.number(words.get(3));
                one == other
            }
            Form::Inner => self.has_two_layers(words.get(1)),
            _ => false,
        }
    }

    /// Whether there are more blockages and keep-outs than the limit with one more.
    fn is_full_of_areas(&self) -> bool
        ensures { result ≡ nat_lt MAX_BLOCKS (length self.now.blocks + length self.now.keepouts + 1) }
    {
        let blocks = self.blocks.len();
        if blocks >= MAX_BLOCKS {
            return true;
        }
        self.keepouts.len() >= MAX_BLOCKS - blocks
    }

    /// Whether there are more than the limit with a line of this form.
    fn is_one_too_many(&self, form: Form) -> bool
        ensures { result ≡ is_one_too_many self.now form }
    {
        match form {
            Form::Layer => self.layers.len() as usize >= MAX_LAYERS,
            Form::Class => self.classes.len() as usize >= MAX_CLASSES,
            Form::ViaKind => self.kind_names.len() as usize >= MAX_KINDS,
            Form::Net => self.net_names.len() as usize >= MAX_NETS,
            Form::Pin => self.pins.len() >= MAX_PINS,
            Form::Block | Form::Keepout => self.is_full_of_areas(),
            Form::Route | Form::All | Form::Rip | Form::Show | Form::Rules | Form::Strips => self
                .commands
                .len()
                >= MAX_COMMANDS,
            _ => false,
        }
    }

    /// Whether there is all that a board has at `end`.
    #[tactic(auto, unfolding(crate::specs::Checks::is_complete))]
    fn is_complete(&self) -> bool
        ensures { result ≡ is_complete self.now }
    {
        let layers = self.layers.len();
        let classes = self.classes.len();
        if layers == 0 || classes == 0 {
            return false;
        }
        if !is_full(self.rules.as_slice(), layers, classes) {
            return false;
        }
        is_full(self.pads.as_slice(), self.kind_names.len(), classes)
    }

    fn is_missing(&self, form: Form) -> bool
        ensures { result ≡ is_missing self.now form }
    {
        match form {
            Form::End => !self.is_complete(),
            _ => false,
        }
    }

    /// Whether the text's version has no such form.
    fn is_too_new(&self, form: Form) -> bool
        ensures { result ≡ is_too_new self.now form }
    {
        match form {
            Form::Clear => self.heading.version != 2,
            _ => false,
        }
    }

    /// Whether the line has not the words of its form, or is of no form of the text's version.
    fn is_misspelt(&self, form: Form, words: &Words) -> bool
        ensures { result ≡ (not (length words.now == length (places form) + 1) || is_too_new self.now form) }
    {
        if words.len() != form.places().len() + 1 {
            return true;
        }
        self.is_too_new(form)
    }

    /// Whether the line as a whole breaks a rule of this kind.
    #[tactic(auto, unfolding(crate::specs::Checks::fails_whole))]
    fn fails_whole(&self, kind: RefusalKind, form: Form, words: &Words) -> bool
        ensures { result ≡ fails_whole self.now kind form words.now }
    {
        match kind {
            RefusalKind::BadWord => self.is_misspelt(form, words),
            RefusalKind::WrongPlace => !form.stands_in(self.stage),
            RefusalKind::TwiceNamed => self.is_given(form, words),
            RefusalKind::OutOfRange => is_too_great(form, words),
            RefusalKind::BadRect => self.is_bad_rect(form, words),
            RefusalKind::TooMany => self.is_one_too_many(form),
            RefusalKind::MissingRule => self.is_missing(form),
            _ => false,
        }
    }

    /// Whether a line of this form and these words breaks a rule of this kind.
    #[tactic(auto, unfolding(crate::specs::Checks::breaks))]
    fn breaks(&self, kind: RefusalKind, form: Form, words: &Words) -> bool
        ensures { result ≡ breaks self.now form words.now kind }
    {
        if self.some_fails(kind, form.places(), words) {
            return true;
        }
        self.fails_whole(kind, form, words)
    }

    /// The first kind in order of a rule that a line of this form breaks.
    fn kind_of_form(&self, form: Form, words: &Words) -> Option<RefusalKind>
        ensures { result ≡ find (breaks self.now form words.now) form_order }
    {
        for kind in &ORDER {
            if self.breaks(*kind, form, words) {
                return Some(*kind);
            }
        }
        None
    }

    /// The kind with which a line of these words is refused, if it is.
    #[tactic(auto, unfolding(crate::specs::Checks::kind_with, crate::specs::Checks::applies))]
    pub fn kind_with(&self, line: &[u8], words: &Words) -> Option<RefusalKind>
        ensures { result ≡ kind_with self.now line.now words.now }
    {
        if has_other_byte(line) {
            return Some(RefusalKind::NotAscii);
        }
        match form_of(words.get(0)) {
            Some(form) => self.kind_of_form(form, words),
            None => Some(RefusalKind::BadWord),
        }
    }
}

/// Whether the corners in the four places from this one on are not in order.
fn is_crossed(words: &Words, first: usize) -> bool
    requires { first ≤ 3 }
    ensures { result ≡ is_crossed words.now first }
{
    if number(words.get(first + 2)) < number(words.get(first)) {
        return true;
    }
    number(words.get(first + 3)) < number(words.get(first + 1))
}

/// Whether a board of version 1 is greater than that version lets it be.
fn is_too_great_for_first(words: &Words) -> bool
    ensures { result ≡ (number (word words.now 1) == 1 && (nat_lt 1048576 (number (word words.now 3)) || nat_lt 1048576 (number (word words.now 4)))) }
{
    if number(words.get(1)) != 1 {
        return false;
    }
    if number(words.get(3)) > 1_048_576 {
        return true;
    }
    number(words.get(4)) > 1_048_576
}

fn is_too_great(form: Form, words: &Words) -> bool
    ensures { result ≡ is_too_great form words.now }
{
    match form {
        Form::Board => is_too_great_for_first(words),
        _ => false,
    }
}

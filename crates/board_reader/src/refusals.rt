ghost use Rattle.std.specs.Prelude.{◌≡◌};
ghost use Rattle.board_reader.specs.declared.refusals.ReadInput.TheVariants as read_input_error;
ghost use Rattle.board_reader.specs.Kinds.{number_of_kind};

use geo_rect::NoMemory;

/// What is wrong with a line of the board text.
#[derive(Clone, Copy)]
pub enum RefusalKind {
    /// The line is no comment and has a byte that is neither a blank nor printable ASCII.
    NotAscii = 1,
    /// The first word is no form of the text's version, the number of words is not the form's, a name
    /// is too long, or a keep-out is neither for wires nor for vias.
    BadWord = 2,
    /// A word that must be a number is none.
    BadNumber = 3,
    /// A number is outside its range, or the version is neither 1 nor 2.
    OutOfRange = 4,
    /// No line before gave the name.
    UnknownName = 5,
    /// A line before gave the name, the rule, the gap of the two classes, the pad or the inner pad.
    TwiceNamed = 6,
    /// The form does not stand here.
    WrongPlace = 7,
    /// At `end` a layer, a class, a rule or a pad is missing.
    MissingRule = 8,
    /// The text has no line `end`.
    NoEnd = 9,
    /// There are more layers, classes, kinds, nets, pins or commands than the limit, or more blockages
    /// and keep-outs together.
    TooMany = 10,
    /// The corners are not in order, the two layers of a kind of via are one, or an inner pad is of a
    /// kind of two layers.
    BadRect = 11,
    /// A line of a reply text. No board text is refused so.
    BadReply = 13,
}

impl RefusalKind {
    /// The number under which the program tells the kind.
    pub fn number(self) -> u8
        ensures { result ≡ number_of_kind self }
    {
        self as u8
    }
}

/// The first line that breaks a rule, counted from 1, and the kind of that rule.
#[derive(Clone, Copy)]
pub struct Refusal {
    pub line: u64,
    pub kind: RefusalKind,
}

/// Why a board text was not read.
#[derive(Clone, Copy)]
pub enum ReadInput {
    Refused(Refusal),
    NoMemory,
}

impl From<NoMemory> for ReadInput {
    ghost from_gives = { λ _ e. e ≡ read_input_error.NoMemory };

    fn from(_error: NoMemory) -> ReadInput {
        ReadInput::NoMemory
    }
}

ghost use Rattle.std.specs.Prelude.{◌≡◌};
ghost use Rattle.board_reader.specs.Forms.{spelling, places, form_of, stage_of, is_stage};

/// What a name names. Each sort has names of its own.
#[derive(Clone, Copy)]
pub enum Sort {
    Layer,
    Class,
    Kind,
    Net,
}

/// What stands in the place of a word.
#[derive(Clone, Copy)]
pub enum Place {
    /// A name that may stand in other lines.
    Title,
    /// A name that no line before gave.
    NewName(Sort),
    /// A name that a line before gave.
    KnownName(Sort),
    /// A number from the first to the second.
    Number(u32, u32),
    /// A number from 0 to the width of the board.
    Across,
    /// A number from 0 to the height of the board.
    Up,
    /// What a keep-out keeps out: `wires` or `vias`.
    KeptOut,
}

/// A form of a line, which its first word names.
#[derive(Clone, Copy)]
pub enum Form {
    Board,
    Layer,
    Class,
    Rule,
    Clear,
    ViaKind,
    Pad,
    Inner,
    Block,
    Keepout,
    Net,
    Pin,
    End,
    Route,
    All,
    Rip,
    Show,
    Rules,
    Strips,
}

/// The parts of a board text.
#[derive(Clone, Copy)]
pub enum Stage {
    /// Before the line `board`.
    Start,
    /// After it and before `end`.
    Parts,
    /// After `end`.
    Commands,
}

const FORMS: [Form; 19] = [
    Form::Board,
    Form::Layer,
    Form::Class,
    Form::Rule,
    Form::Clear,
    Form::ViaKind,
    Form::Pad,
    Form::Inner,
    Form::Block,
    Form::Keepout,
    Form::Net,
    Form::Pin,
    Form::End,
    Form::Route,
    Form::All,
    Form::Rip,
    Form::Show,
    Form::Rules,
    Form::Strips,
];

static BOARD: [Place; 4] = [
    Place::Number(1, 2),
    Place::Title,
    Place::Number(1, 8_388_608),
    Place::Number(1, 8_388_608),
];

static LAYER: [Place; 1] = [Place::NewName(Sort::Layer)];

static CLASS: [Place; 1] = [Place::NewName(Sort::Class)];

static RULE: [Place; 4] = [
    Place::KnownName(Sort::Layer),
    Place::KnownName(Sort::Class),
    Place::Number(1, 65_535),
    Place::Number(1, 65_535),
];

static CLEAR: [Place; 4] = [
    Place::KnownName(Sort::Layer),
    Place::KnownName(Sort::Class),
    Place::KnownName(Sort::Class),
    Place::Number(1, 65_535),
];

static VIA_KIND: [Place; 4] = [
    Place::NewName(Sort::Kind),
    Place::KnownName(Sort::Layer),
    Place::KnownName(Sort::Layer),
    Place::Number(0, 65_535),
];

static PAD: [Place; 3] = [
    Place::KnownName(Sort::Kind),
    Place::KnownName(Sort::Class),
    Place::Number(1, 65_535),
];

static BLOCK: [Place; 5] = [
    Place::KnownName(Sort::Layer),
    Place::Across,
    Place::Up,
    Place::Across,
    Place::Up,
];

static KEEPOUT: [Place; 6] = [
    Place::KeptOut,
    Place::KnownName(Sort::Layer),
    Place::Across,
    Place::Up,
    Place::Across,
    Place::Up,
];

static NET: [Place; 2] = [Place::NewName(Sort::Net), Place::KnownName(Sort::Class)];

static PIN: [Place; 7] = [
    Place::KnownName(Sort::Net),
    Place::Across,
    Place::Up,
    Place::Across,
    Place::Up,
    Place::KnownName(Sort::Layer),
    Place::KnownName(Sort::Layer),
];

static ONE_NET: [Place; 1] = [Place::KnownName(Sort::Net)];

static STRIPS: [Place; 2] = [Place::KnownName(Sort::Layer), Place::KnownName(Sort::Class)];

static ALONE: [Place; 0] = [];

impl Form {
    /// The first word of the form.
    fn spelling(self) -> &'static [u8]
        ensures { result.now ≡ spelling self }
    {
        match self {
            Form::Board => b"board",
            Form::Layer => b"layer",
            Form::Class => b"class",
            Form::Rule => b"rule",
            Form::Clear => b"clear",
            Form::ViaKind => b"viakind",
            Form::Pad => b"pad",
            Form::Inner => b"inner",
            Form::Block => b"block",
            Form::Keepout => b"keepout",
            Form::Net => b"net",
            Form::Pin => b"pin",
            Form::End => b"end",
            Form::Route => b"route",
            Form::All => b"all",
            Form::Rip => b"rip",
            Form::Show => b"show",
            Form::Rules => b"rules",
            Form::Strips => b"strips",
        }
    }

    /// What stands in the places of the words after the first.
    pub fn places(self) -> &'static [Place]
        ensures { result.now ≡ places self }
    {
        match self {
            Form::Board => &BOARD,
            Form::Layer => &LAYER,
            Form::Class => &CLASS,
            Form::Rule => &RULE,
            Form::Clear => &CLEAR,
            Form::ViaKind => &VIA_KIND,
            Form::Pad | Form::Inner => &PAD,
            Form::Block => &BLOCK,
            Form::Keepout => &KEEPOUT,
            Form::Net => &NET,
            Form::Pin => &PIN,
            Form::End | Form::All | Form::Rules => &ALONE,
            Form::Route | Form::Rip | Form::Show => &ONE_NET,
            Form::Strips => &STRIPS,
        }
    }

    /// Where the form stands.
    fn stage(self) -> Stage
        ensures { result ≡ stage_of self }
    {
        match self {
            Form::Board => Stage::Start,
            Form::Layer
            | Form::Class
            | Form::Rule
            | Form::Clear
            | Form::ViaKind
            | Form::Pad
            | Form::Inner
            | Form::Block
            | Form::Keepout
            | Form::Net
            | Form::Pin
            | Form::End => Stage::Parts,
            Form::Route | Form::All | Form::Rip | Form::Show | Form::Rules | Form::Strips =>
                Stage::Commands,
        }
    }

    /// Whether the form stands in this part of the text.
    pub fn stands_in(self, stage: Stage) -> bool
        ensures { result ≡ is_stage (stage_of self) stage }
    {
        matches!(
            (self.stage(), stage),
            (Stage::Start, Stage::Start)
                | (Stage::Parts, Stage::Parts)
                | (Stage::Commands, Stage::Commands)
        )
    }
}

/// The form that a first word names.
#[tactic(auto, unfolding(crate::specs::Forms::form_of))]
pub fn form_of(word: &[u8]) -> Option<Form>
    ensures { result ≡ form_of word.now }
{
    for form in &FORMS {
        if form.spelling() == word {
            return Some(*form);
        }
    }
    None
}

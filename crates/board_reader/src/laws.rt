ghost use Rattle.std.specs.Prelude.{◌≡◌, ◌↔◌, ℕ, List, Ok, Err, Some, None, All};
ghost use Rattle.board_reader.specs.declared.refusals.Refusal.{Refusal};
ghost use Rattle.board_reader.specs.Drafts.{no_draft};
ghost use Rattle.board_reader.specs.Law.{IsRefusal, IsTold};
ghost use Rattle.line_words.specs.Lines.{lines};
ghost use Rattle.board_reader.specs.Reading.{Told, reading};
ghost use Rattle.board_reader.specs.Splits.{split_of, IsSplit, IsNoMark};
ghost use Rattle.board_reader.specs.declared.splits.Split.{Split};

/// What the reading of a text is, in words about its lines. A refusal names the first line that
/// breaks a rule: no line before it breaks one, and the kind is the first that applies there. Or no
/// line breaks a rule, there is no line `end`, and the line is the number of the lines plus one. And
/// a text is read exactly where no line breaks a rule and there is a line `end`.
pub fn refusals_are_first()
    ensures refused { (text : List ℕ) (r : Refusal) → (reading text ≡ Err r) ↔ IsRefusal text r }
    ensures read { (text : List ℕ) (t : Told) → (reading text ≡ Ok t) ↔ IsTold no_draft (lines text) t }
{}

/// What the cut of a text is, in words about its lines: those before it, of which none has `replies`
/// as its only word, then the one that has, then those after it. There is no cut exactly where no
/// line of the text is such a line.
pub fn splits_are_first()
    ensures cut { (text : List ℕ) (s : Split) → split_of text ≡ Some s → IsSplit text s }
    ensures whole { (text : List ℕ) → (split_of text ≡ None) ↔ All IsNoMark (lines text) }
{}

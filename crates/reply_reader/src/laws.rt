//! The law of reading. The function does nothing: its contract is the law.
ghost use Rattle.std.specs.Prelude.{◌≡◌, ℕ, List};
ghost use Rattle.board_parts.specs.declared.parts.BoardParts.{BoardParts};
ghost use Rattle.board_parts.specs.Rules.{IsBoard};
ghost use Rattle.route_law.specs.declared.replies.Reply.{Reply};
ghost use Rattle.reply_reader.specs.Readings.{IsReadingOf, IsRepliesText, IsRefusedLine};

/// A text spells one list of replies at most, and none where a line of it is refused.
pub fn texts_spell_one_list()
    ensures one { (b : BoardParts) (bytes : List ℕ) (rs ss : List Reply) → IsBoard b
        → IsReadingOf b bytes rs → IsReadingOf b bytes ss → rs ≡ ss }
    ensures either { (b : BoardParts) (bytes : List ℕ) (n : ℕ) → IsRefusedLine b bytes n → IsRepliesText b bytes → ⊥ }
{}

//! The words behind the first word of a call.

ghost use Rattle.std.specs.Prelude.{◌≡◌, ℕ, Bool, List, map, string_bytes, MatchOption};
ghost use Rattle.call_words.specs.Asked.{flags_of};
ghost use Rattle.call_words.specs.declared.requests.Corners.{Corners};
ghost use Rattle.call_words.specs.Verbs.{IsCount, IsNoCount, AreCorners, IsNameAlone};

use crate::names::is_call_name;
use crate::numbers::{MAX_NUMBER, count_of, number_of};
use crate::requests::Corners;

/// Whether the words behind `run` ask for quiet replies.
pub fn quiet_of(words: &[String]) -> Option<bool>
    ensures { MatchOption result ((quiet : Bool) → flags_of quiet ≡ map string_bytes words.now → ⊥)
        (λ quiet. flags_of quiet ≡ map string_bytes words.now) }
{
    match words {
        [] => Some(false),
        [flag] if flag.as_str() == "--quiet" => Some(true),
        _ => None,
    }
}

/// The number from 1 to `most` that the words spell, if they are one word.
pub fn lone_count(words: &[String], most: u32) -> Option<u32>
    ensures { MatchOption result (IsNoCount most (map string_bytes words.now))
        (IsCount most (map string_bytes words.now)) }
{
    match words {
        [word] => count_of(word.as_str(), most),
        _ => None,
    }
}

/// The name that the words are, if they are one word.
pub fn lone_name(words: &[String]) -> Option<&str>
    ensures { MatchOption result ((name : List ℕ) → IsNameAlone (map string_bytes words.now) name → ⊥)
        (λ name. IsNameAlone (map string_bytes words.now) name.now) }
{
    match words {
        [word] if is_call_name(word.as_str()) => Some(word.as_str()),
        _ => None,
    }
}

/// The two corners that the words spell, if they are four words.
pub fn corners_of(words: &[String]) -> Option<Corners>
    ensures { MatchOption result ((c : Corners) → AreCorners (map string_bytes words.now) c → ⊥)
        (AreCorners (map string_bytes words.now)) }
{
    match words {
        [x0, y0, x1, y1] => Some(Corners {
            x0: number_of(x0.as_str(), MAX_NUMBER)?,
            y0: number_of(y0.as_str(), MAX_NUMBER)?,
            x1: number_of(x1.as_str(), MAX_NUMBER)?,
            y1: number_of(y1.as_str(), MAX_NUMBER)?,
        }),
        _ => None,
    }
}

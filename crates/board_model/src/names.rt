//! Whether lists of names keep their rules.

ghost use Rattle.std.specs.Prelude.{◌↔◌, ◌≢◌, IsTrue, All, AllPairs, Contains};
ghost use Rattle.board_parts.specs.Rules.{IsName, AreNames};

use crate::rules::is_name;
use geo_rect::Text;

/// Whether `name` is one of the names.
fn has_name(names: &[Text], name: &str) -> bool
    ensures { IsTrue result ↔ Contains names.now name.now }
{
    for other in names {
        if other.as_str() == name {
            return true;
        }
    }
    false
}

/// Whether no two of the names are alike.
fn are_apart(names: &[Text]) -> bool
    ensures { IsTrue result ↔ AllPairs (λ a b. a ≢ b) names.now }
{
    for i in 0..names.len() {
        if has_name(&names[i + 1..], names[i].as_str()) {
            return false;
        }
    }
    true
}

/// Whether each of the texts is a word that is not too long.
fn are_words(names: &[Text]) -> bool
    ensures { IsTrue result ↔ All IsName names.now }
{
    names.iter().all(|name| is_name(name.as_bytes()))
}

/// Whether there are at most so many names, no two of them alike. It takes time in the square of
/// their number.
pub fn are_names(most: usize, names: &[Text]) -> bool
    ensures { IsTrue result ↔ AreNames most names.now }
{
    if names.len() > most {
        return false;
    }
    if !are_words(names) {
        return false;
    }
    are_apart(names)
}

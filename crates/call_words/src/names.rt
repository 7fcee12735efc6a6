//! Words that are names.

ghost use Rattle.std.specs.Prelude.{◌≢◌, ◌↔◌, IsTrue, All, AllPairs, Contains, slice_index, map, string_bytes};
ghost use Rattle.board_parts.specs.Rules.{IsWordByte, IsName};
ghost use Rattle.call_words.specs.Names.{IsCallName, AreOthers};

use board_parts::MAX_NAME;

/// The greatest number of other nets that a call may name.
const MAX_OTHERS: usize = 64;

fn is_word_byte(byte: &u8) -> bool
    ensures { IsTrue result ↔ IsWordByte byte.now }
{
    if *byte < 33 {
        return false;
    }
    if *byte > 126 {
        return false;
    }
    true
}

fn are_word_bytes(bytes: &[u8]) -> bool
    ensures { IsTrue result ↔ All IsWordByte bytes.now }
{
    bytes.iter().all(is_word_byte)
}

fn is_name(bytes: &[u8]) -> bool
    ensures { IsTrue result ↔ IsName bytes.now }
{
    if bytes.is_empty() {
        return false;
    }
    if bytes.len() > MAX_NAME {
        return false;
    }
    are_word_bytes(bytes)
}

/// Whether the bytes do not begin with a hyphen.
fn is_plain(bytes: &[u8]) -> bool
    ensures { IsTrue result ↔ (slice_index bytes.now 0 ≢ 45) }
{
    if bytes.is_empty() {
        return true;
    }
    bytes[0] != b'-'
}

/// Whether the word is a name that a call may have: 1 to 64 bytes, each printable and no blank, of
/// which the first is no hyphen.
pub fn is_call_name(word: &str) -> bool
    ensures { IsTrue result ↔ IsCallName word.now }
{
    if !is_name(word.as_bytes()) {
        return false;
    }
    is_plain(word.as_bytes())
}

fn are_call_names(words: &[String]) -> bool
    ensures { IsTrue result ↔ All IsCallName (map string_bytes words.now) }
{
    for word in words {
        if !is_call_name(word.as_str()) {
            return false;
        }
    }
    true
}

/// Whether the words are from 1 to 64 such names.
pub fn are_others(words: &[String]) -> bool
    ensures { IsTrue result ↔ AreOthers (map string_bytes words.now) }
{
    if words.is_empty() {
        return false;
    }
    if words.len() > MAX_OTHERS {
        return false;
    }
    are_call_names(words)
}

/// Whether `name` is one of the words.
pub fn has_word(words: &[String], name: &str) -> bool
    ensures { IsTrue result ↔ Contains (map string_bytes words.now) name.now }
{
    for word in words {
        if word.as_str() == name {
            return true;
        }
    }
    false
}

/// Whether no two of the words are alike.
pub fn are_apart(words: &[String]) -> bool
    ensures { IsTrue result ↔ AllPairs (λ a b. a ≢ b) (map string_bytes words.now) }
{
    for i in 0..words.len() {
        if has_word(&words[i + 1..], words[i].as_str()) {
            return false;
        }
    }
    true
}

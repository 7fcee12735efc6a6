ghost use Rattle.std.specs.Prelude.{◌≡◌, ◌≢◌, ◌<◌, ◌≤◌, ◌∷◌, ◌++◌, ℕ, List, length, take, drop, decimal, All, IfSome, IfNone, MatchOption, IsTrue, ◌↔◌};
ghost use Rattle.std.specs.Str.{IsAscii};

use itoa::Buffer;
use std::str::from_utf8;

/// The word as a text, if it is one.
fn text(word: &[u8]) -> Option<&str>
    ensures some { IfSome result (λ t. t.now ≡ word.now) }
    ensures none { IfNone result (IsAscii word.now → ⊥) }
{
    match from_utf8(word) {
        Ok(text) => Some(text),
        Err(_) => None,
    }
}

pub fn are_alike(a: &[u8], b: &[u8]) -> bool
    ensures { IsTrue result ↔ (a.now ≡ b.now) }
{
    a == b
}

/// The number of at most `most` that the word spells, without leading zeros.
fn number(word: &[u8], most: u64) -> Option<u64>
    ensures some { IfSome result (λ n. decimal n ≡ word.now) }
    ensures most { IfSome result (λ n. n ≤ most) }
    ensures none { IfNone result ((n : ℕ) → n ≤ most → decimal n ≡ word.now → ⊥) }
{
    let Some(digits) = text(word) else {
        return None;
    };
    let Ok(value) = digits.parse::<u64>() else {
        return None;
    };
    if value > most {
        return None;
    }
    let mut buffer = Buffer::new();
    if !are_alike(buffer.format(value).as_bytes(), word) {
        return None;
    }
    Some(value)
}

/// What stands before the first byte `end`, if there is one, and what stands from it on.
fn cut_at(bytes: &[u8], end: u8) -> Option<(&[u8], &[u8])>
    ensures { MatchOption result (All (λ b. b ≢ end) bytes.now)
        (λ p. All (λ b. b ≢ end) p.0.now × (bytes.now ≡ p.0.now ++ end ∷ p.1.now)) }
{
    for (i, byte) in bytes.iter().enumerate() {
        if *byte == end {
            return Some((&bytes[..i], &bytes[i + 1..]));
        }
    }
    None
}

/// The number of at most `most` with which the bytes begin, up to a byte `end` that is no digit, and
/// what stands behind that byte.
pub fn number_before(bytes: &[u8], end: u8, most: u64) -> Option<(u64, &[u8])>
    requires { 57 < end }
    ensures some { IfSome result (λ p. (bytes.now ≡ decimal p.0 ++ end ∷ p.1.now) × (p.0 ≤ most)) }
    ensures none { IfNone result ((n : ℕ) → (rest : List ℕ) → n ≤ most → bytes.now ≡ decimal n ++ end ∷ rest → ⊥) }
{
    let Some((digits, rest)) = cut_at(bytes, end) else {
        return None;
    };
    let Some(value) = number(digits, most) else {
        return None;
    };
    Some((value, rest))
}

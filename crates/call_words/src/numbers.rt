//! Words that spell numbers.

ghost use Rattle.std.specs.Prelude.{◌≡◌, ◌≤◌, ◌^◌, ◌<◌, ◌↔◌, ℕ, decimal, IsTrue, IfSome, IfNone, MatchOption};
ghost use Rattle.call_words.specs.Numbers.{IsFromOne};

use itoa::Buffer;

/// The greatest number of twenty digits.
pub const MAX_NUMBER: u128 = 99_999_999_999_999_999_999;

/// Whether the word is how the number is written.
fn is_spelled_as(number: u128, word: &str) -> bool
    ensures { IsTrue result ↔ (decimal number ≡ word.now) }
{
    let mut buffer = Buffer::new();
    buffer.format(number) == word
}

/// The number of at most `most` that a word spells, in decimal and without leading zeros.
pub fn number_of(word: &str, most: u128) -> Option<u128>
    ensures some { IfSome result (λ n. decimal n ≡ word.now) }
    ensures most { IfSome result (λ n. n ≤ most) }
    ensures none { IfNone result ((n : ℕ) → n ≤ most → decimal n ≡ word.now → ⊥) }
{
    let Ok(number) = word.parse::<u128>() else {
        return None;
    };
    if number > most {
        return None;
    }
    if !is_spelled_as(number, word) {
        return None;
    }
    Some(number)
}

/// The number from 1 to `most` that a word spells, in decimal and without leading zeros.
pub fn count_of(word: &str, most: u32) -> Option<u32>
    ensures some { IfSome result (λ n. decimal n ≡ word.now) }
    ensures range { IfSome result (IsFromOne most) }
    ensures none { IfNone result ((n : ℕ) → IsFromOne most n → decimal n ≡ word.now → ⊥) }
{
    let number = number_of(word, u128::from(most))?;
    if number < 1 {
        return None;
    }
    Some(number as u32)
}

ghost use Rattle.std.specs.Prelude.{◌≡◌, ◌<◌, ◌≤◌, ◌^◌, length, IsTrue};
ghost use Rattle.std.specs.List.{list_all};
ghost use Rattle.line_words.specs.Numbers.{is_digit, is_number, value_from, number};

fn has_digits_alone(word: &[u8]) -> bool
    ensures { result ≡ list_all is_digit word.now }
{
    for byte in word {
        if !byte.is_ascii_digit() {
            return false;
        }
    }
    true
}

/// Whether the word is a number: at most twenty decimal digits.
pub fn is_number(word: &[u8]) -> bool
    ensures { result ≡ is_number word.now }
{
    if word.len() > 20 {
        return false;
    }
    has_digits_alone(word)
}

/// What at most twenty digits say.
fn value(digits: &[u8]) -> u128
    requires short { length digits.now ≤ 20 }
    requires digits { IsTrue (list_all is_digit digits.now) }
    ensures { result ≡ value_from 0 digits.now }
{
    let mut value = 0;
    for digit in digits {
        value = value * 10 + u128::from(*digit - b'0');
    }
    value
}

/// What the word says as a number, and 0 for a word that is none.
#[tactic(auto, unfolding(crate::specs::Numbers::number))]
pub fn number(word: &[u8]) -> u128
    ensures { result ≡ number word.now }
{
    if !is_number(word) {
        return 0;
    }
    value(word)
}

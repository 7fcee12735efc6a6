ghost use Rattle.std.specs.Prelude.{◌≡◌, ◌≤◌, ◌+◌, ◌∷◌, [], ◌++◌, ◌<◌, take, drop, length, slice_index, MatchOption};
ghost use Rattle.reply_reader.specs.Parts.{IsPassed};
ghost use Rattle.reply_reader.specs.Places.{IsOneLine};

use crate::places::Place;

/// How many bytes stand before the first line feed, if there is one.
fn line_length(bytes: &[u8]) -> Option<usize>
    ensures { MatchOption result (IsOneLine bytes.now)
        (λ n. IsOneLine (take n bytes.now) × (n < length bytes.now) × (slice_index bytes.now n ≡ 10)) }
{
    for (i, byte) in bytes.iter().enumerate() {
        if *byte == b'\n' {
            return Some(i);
        }
    }
    None
}

/// The next line of the bytes, without its line feed; the place is then after it.
pub fn next_line<'a>(bytes: &'a [u8], place: &mut Place) -> Option<&'a [u8]>
    ensures { MatchOption result (IsOneLine (drop place.old.at bytes.now))
        (λ l. IsOneLine l.now × IsPassed (drop place.old.at bytes.now) place.old.line (l.now ++ 10 ∷ []) (drop place.new.at bytes.now) place.new.line) }
{
    if place.at > bytes.len() {
        return None;
    }
    let rest = &bytes[place.at..];
    let length = line_length(rest)?;
    *place = Place {
        at: place.at + length + 1,
        line: place.line + 1,
    };
    Some(&rest[..length])
}

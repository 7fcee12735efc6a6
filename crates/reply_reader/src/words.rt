ghost use Rattle.std.specs.Prelude.{◌≡◌, ◌≢◌, ◌<◌, ◌≤◌, ◌∷◌, [], ◌++◌, length, map, take, drop, slice_index, All, MatchOption, IfOk};
ghost use Rattle.reply_reader.specs.Forms.{AreWordsOf, spaced, word};

use geo_rect::NoMemory;
use std::alloc::Global;
use std::marker::Model;

/// The most words that a line of a reply has.
const MOST_WORDS: usize = 14;

/// The words of a line, which is cut at each space. After the fourteenth stands the rest of the line.
#[derive(Drop)]
pub struct Words<'a> {
    items: Vec<&'a [u8]>,
}

impl<'a> Model for Words<'a> {
    ghost use Rattle.std.specs.Prelude.{List, ℕ, map};

    ghost Value = { List (List ℕ) };

    ghost view = { λ w. map (λ r. r.now) w.items.items };
}

impl<'a> Words<'a> {
    /// The words of a line.
    pub fn of(alloc: Global, line: &'a [u8]) -> Result<Words<'a>, NoMemory>
        ensures { IfOk result (λ w. AreWordsOf line.now w) }
    {
        let mut items = Vec::new(alloc);
        let mut rest = line;
        for _ in 0..MOST_WORDS {
            let Some((word, after)) = next_word(rest) else {
                items.push(rest)?;
                return Ok(Words { items });
            };
            items.push(word)?;
            rest = after;
        }
        items.push(rest)?;
        Ok(Words { items })
    }

    /// The number of words.
    pub fn len(&self) -> usize
        ensures { result ≡ length self.now }
    {
        self.items.len()
    }

    /// The word in a place from 0 on, and nothing where the line has none there.
    pub fn get(&self, place: usize) -> &'a [u8]
        ensures { result.now ≡ word self.now place }
    {
        match self.items.get(place) {
            Some(word) => word,
            None => &[],
        }
    }
}

/// What stands before the first space, if there is one, and what stands after it.
fn next_word(line: &[u8]) -> Option<(&[u8], &[u8])>
    ensures { MatchOption result (All (λ b. b ≢ 32) line.now)
        (λ p. All (λ b. b ≢ 32) p.0.now × (line.now ≡ p.0.now ++ 32 ∷ p.1.now)) }
{
    for (i, byte) in line.iter().enumerate() {
        if *byte == b' ' {
            return Some((&line[..i], &line[i + 1..]));
        }
    }
    None
}

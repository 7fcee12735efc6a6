ghost use Rattle.std.specs.Prelude.{◌≡◌, ◌<◌, ◌≤◌, ◌∷◌, [], ◌++◌, length, map, take, not, MatchOption, IfOk};
ghost use Rattle.std.specs.List.{prefix_len};
ghost use Rattle.line_words.specs.Lines.{is_blank, after_blanks, words, word};

use crate::lines::is_blank;
use geo_rect::NoMemory;
use std::alloc::Global;
use std::marker::Model;

/// How many words of a line are kept.
const MOST_WORDS: usize = 9;

/// The first nine words of a line, or all if it has no more.
#[derive(Drop)]
pub struct Words<'a> {
    items: Vec<&'a [u8]>,
}

impl<'a> Model for Words<'a> {
    ghost use Rattle.std.specs.Prelude.{List, ℕ, map};

    ghost Value = { List (List ℕ) };

    ghost view = { λ w. map (λ r. r.now) w.items.items };
}

impl<'a> Words<'a> {
    /// The first nine words of a line, or all if it has no more.
    pub fn of(alloc: Global, line: &'a [u8]) -> Result<Words<'a>, NoMemory>
        ensures { IfOk result (λ w. w ≡ take 9 (words line.now)) }
    {
        let mut items = Vec::new(alloc);
        let mut rest = line;
        for _ in 0..MOST_WORDS {
            let Some((word, after)) = next_word(rest) else {
                return Ok(Words { items });
            };
            items.push(word)?;
            rest = after;
        }
        Ok(Words { items })
    }

    /// The number of words, up to nine.
    pub fn len(&self) -> usize
        ensures { result ≡ length self.now }
    {
        self.items.len()
    }

    /// The word in a place from 0 on, and nothing where the line has none there.
    pub fn get(&self, place: usize) -> &'a [u8]
        ensures { result.now ≡ word self.now place }
    {
        match self.items.get(place) {
            Some(word) => word,
            None => &[],
        }
    }
}

/// The first word of a line, and what follows it. `None` where the line has no word.
pub fn next_word(line: &[u8]) -> Option<(&[u8], &[u8])>
    ensures { MatchOption result (words line.now ≡ []) (λ p. words line.now ≡ p.0.now ∷ words p.1.now) }
{
    let line = skip_blanks(line);
    if line.is_empty() {
        return None;
    }
    let length = word_length(line);
    Some((&line[..length], &line[length..]))
}

fn skip_blanks(line: &[u8]) -> &[u8]
    ensures { result.now ≡ after_blanks line.now }
{
    for (index, byte) in line.iter().enumerate() {
        if !is_blank(*byte) {
            return &line[index..];
        }
    }
    &[]
}

/// How many bytes stand before the first blank.
fn word_length(line: &[u8]) -> usize
    ensures value { result ≡ prefix_len (λ b. not (is_blank b)) line.now }
    ensures within { result ≤ length line.now }
{
    for (index, byte) in line.iter().enumerate() {
        if is_blank(*byte) {
            return index;
        }
    }
    line.len()
}

ghost use Rattle.std.specs.Prelude.{◌≡◌, ◌<◌, [], ◌∷◌, ◌++◌, length, IfOk, OnOk, OnErr, false, map, All};
ghost use Rattle.std.specs.Str.{IsAscii};
ghost use Rattle.board_parts.specs.Rules.{IsName};
ghost use Rattle.board_reader.specs.Names.{is_in, number_in};

use geo_rect::{List, NoMemory, Text};
use indexmap::IndexSet;
use std::alloc::Global;
use std::marker::Model;
use std::str::from_utf8;

/// The names of a sort, in the order of the text. Finding one does not go through them all.
#[derive(Drop)]
pub struct Names {
    index: IndexSet<Vec<u8>>,
}

impl Model for Names {
    ghost use Rattle.std.specs.Prelude.{List, ℕ, map, ◌≤◌, length};

    ghost Value = { List (List ℕ) };

    ghost view = { λ n. map (λ v. v.items) n.index.keys };

    ghost invariant = { λ n. length n.index.keys ≤ 65536 };
}

impl Names {
    /// No names. It takes no memory.
    pub fn new(alloc: Global) -> Names
        ensures { result ≡ [] }
    {
        Names {
            index: IndexSet::new(alloc),
        }
    }

    /// The number of names.
    pub fn len(&self) -> u32
        ensures { result ≡ length self.now }
    {
        self.index.len() as u32
    }

    pub fn contains(&self, word: &[u8]) -> bool
        ensures { result ≡ is_in self.now word.now }
    {
        self.index.contains(word)
    }

    /// The number of a name, and 0 for a name that is not one of these.
    pub fn number(&self, word: &[u8]) -> u32
        ensures { result ≡ number_in self.now word.now }
    {
        match self.index.get_index_of(word) {
            Some(place) => place as u32,
            None => 0,
        }
    }

    /// Adds a name at the end. After `NoMemory` the names are as before.
    pub fn push(&mut self, alloc: Global, word: &[u8]) -> Result<(), NoMemory>
        requires fresh { is_in self.old word.now ≡ false }
        requires room { length self.old < 65536 }
        ensures ok { OnOk result (self.new ≡ self.old ++ word.now ∷ []) }
        ensures err { OnErr result (self.new ≡ self.old) }
    {
        let key = Vec::from_slice(alloc, word)?;
        self.index.insert(key)?;
        Ok(())
    }

    /// Adds all names to the texts.
    pub fn put(&self, alloc: Global, texts: &mut List<Text>) -> Result<(), NoMemory>
        requires { All IsName self.now }
        ensures { OnOk result (texts.new ≡ texts.old ++ self.now) }
    {
        put_texts(alloc, texts, self.index.as_slice())
    }
}

fn put_texts(alloc: Global, texts: &mut List<Text>, words: &[Vec<u8>]) -> Result<(), NoMemory>
    requires { All IsName (map (λ v. v.items) words.now) }
    ensures { OnOk result (texts.new ≡ texts.old ++ map (λ v. v.items) words.now) }
{
    for word in words {
        texts.push(text_of(alloc, word)?)?;
    }
    Ok(())
}

/// A word as a text.
pub fn text_of(alloc: Global, word: &[u8]) -> Result<Text, NoMemory>
    requires { IsAscii word.now }
    ensures { IfOk result (λ t. t ≡ word.now) }
{
    match from_utf8(word) {
        Ok(text) => Text::from_str(alloc, text),
        Err(_) => unreachable!(),
    }
}

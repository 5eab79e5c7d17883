ghost use Rattle.std.specs.Prelude.{◌≡◌, ◌<◌, ◌++◌, [], ◌∷◌, length, map, string_bytes, Some, slice_get, OnOk, OnErr};

use std::alloc::{AllocError, Global};
use std::marker::Model;

/// The words of a command line.
#[derive(Debug, Drop)]
pub struct Words {
    words: Vec<String>,
}

impl Model for Words {
    ghost use Rattle.std.specs.Prelude.{List, ℕ, map, string_bytes};

    ghost Value = { List (List ℕ) };

    ghost view = { λ w. map (λ s. string_bytes s) w.words.items };
}

impl Words {
    /// No words. It takes no memory.
    pub fn new(alloc: Global) -> Words
        ensures empty { result ≡ [] }
    {
        Words {
            words: Vec::new(alloc),
        }
    }

    /// Appends a copy of the word. Where memory is refused, the words stay.
    pub fn push(&mut self, word: &str) -> Result<(), AllocError>
        ensures ok { OnOk result (self.new ≡ self.old ++ word.now ∷ []) }
        ensures err { OnErr result (self.new ≡ self.old) }
    {
        let copy = String::from_str(*self.words.allocator(), word)?;
        self.words.push(copy)?;
        Ok(())
    }

    /// How many words there are.
    pub fn len(&self) -> usize
        ensures counted { result ≡ length self.now }
    {
        self.words.len()
    }

    /// The word at `place`, counted from 0.
    pub fn get(&self, place: usize) -> &str
        requires there { place < length self.now }
        ensures found { slice_get self.now place ≡ Some result.now }
    {
        self.words[place].as_str()
    }

    /// All words, in order.
    pub fn as_slice(&self) -> &[String]
        ensures all { map (λ s. string_bytes s) result.now ≡ self.now }
    {
        self.words.as_slice()
    }
}

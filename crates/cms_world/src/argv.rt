// The program's words.
ghost use Rattle.std.specs.Prelude.{◌≡◌, ◌≤◌, ◌↔◌, List, ℕ, [], ◌∷◌, ◌++◌, map, length, slice_get, IsNone, OnOk, OnErr};
ghost use Rattle.std.specs.Option.{option_copied};
ghost use Rattle.std.specs.String.{string_bytes};

use std::alloc::{AllocError, Global};
use std::marker::Model;

/// The words with which the program was called, its own name first. Contracts see the list of their bytes.
#[derive(Drop)]
pub struct Argv {
    alloc: Global,
    words: Vec<String>,
}

impl Model for Argv {
    ghost Value = { List (List ℕ) };

    ghost view = { λ a. map string_bytes a.words.items };
}

impl Argv {
    /// No words.
    pub fn new(alloc: Global) -> Self
        ensures { result ≡ [] }
    {
        Argv {
            alloc,
            words: Vec::new(alloc),
        }
    }

    /// Adds a word at the end.
    pub fn push(&mut self, word: &str) -> Result<(), AllocError>
        ensures ok { OnOk result (self.new ≡ self.old ++ word.now ∷ []) }
        ensures err { OnErr result (self.new ≡ self.old) }
    {
        self.words.push(String::from_str(self.alloc, word)?)?;
        Ok(())
    }

    /// How many words there are.
    pub fn len(&self) -> usize
        ensures { result ≡ length self.now }
    {
        self.words.len()
    }

    /// The word at a place, from 0: none exactly past the end.
    pub fn get(&self, place: usize) -> Option<&str>
        ensures word { option_copied result ≡ slice_get self.now place }
        ensures past { IsNone result ↔ (length self.now ≤ place) }
    {
        match self.words.get(place) {
            None => None,
            Some(word) => Some(word.as_str()),
        }
    }
}

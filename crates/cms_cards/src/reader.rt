// A virtual reader.
ghost use Rattle.std.specs.Prelude.{◌≡◌, ◌==◌, ◌<◌, ◌≤◌, ◌++◌, [], ◌∷◌, OnErr, OnOk, drop, length, slice_get};
ghost use Rattle.std.specs.Option.{option_copied};
ghost use Rattle.cms_cards.specs.Readers.{most_decks};

use crate::deck::Deck;
use std::alloc::{AllocError, Global};
use std::marker::Model;

/// The most decks of a reader.
pub const MOST_DECKS: usize = 20;

/// The decks that wait to be read, the first punched first: at most 20. Seen as their list.
#[derive(Drop)]
pub struct Reader {
    decks: Vec<Deck>,
}

impl Model for Reader {
    ghost use Rattle.std.specs.Prelude.{List, ℕ, length, ◌≤◌};
    ghost use Rattle.cms_cards.specs.Readers.{most_decks};

    ghost Value = { List (List (List ℕ)) };

    ghost view = { λ r. r.decks.items };

    ghost invariant = { λ r. length r.decks.items ≤ most_decks };
}

impl Reader {
    /// No decks.
    pub fn new(alloc: Global) -> Reader
        ensures { result ≡ [] }
    {
        Reader {
            decks: Vec::new(alloc),
        }
    }

    /// Whether it has 20 decks, so that no further one is taken.
    pub fn is_full(&self) -> bool
        ensures full { result ≡ (length self.now == most_decks) }
        ensures few { length self.now ≤ most_decks }
    {
        self.decks.len() == MOST_DECKS
    }

    /// The deck that was punched first.
    pub fn first(&self) -> Option<&Deck>
        ensures { option_copied result ≡ slice_get self.now 0 }
    {
        self.decks.first()
    }

    /// Takes a deck behind all others. Without memory it takes none.
    pub fn push(&mut self, deck: Deck) -> Result<(), AllocError>
        requires { length self.old < most_decks }
        ensures ok { OnOk result (self.new ≡ self.old ++ deck ∷ []) }
        ensures err { OnErr result (self.new ≡ self.old) }
    {
        self.decks.push(deck)?;
        Ok(())
    }

    /// The deck that was punched first goes, where there is one.
    pub fn drop_first(&mut self)
        ensures { self.new ≡ drop 1 self.old }
    {
        if !self.decks.is_empty() {
            let _first = self.decks.remove(0);
        }
    }
}

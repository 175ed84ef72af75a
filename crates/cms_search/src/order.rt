// The letters of a search.
ghost use Rattle.std.specs.Prelude.{◌≡◌, ◌∷◌, [], ◌++◌, ◌<◌, length};

use arrayvec::ArrayVec;
use std::marker::Model;

// All letters, and one that is searched before them.
const MOST: usize = 27;

/// The letters of a search, in its order.
#[derive(Drop)]
pub struct SearchOrder {
    letters: ArrayVec<u8, MOST>,
}

impl Model for SearchOrder {
    ghost use Rattle.std.specs.Prelude.{List, ℕ};

    ghost Value = { List ℕ };

    ghost view = { λ o. o.letters.items };
}

impl SearchOrder {
    /// No letter.
    pub fn new() -> SearchOrder
        ensures { result ≡ [] }
    {
        SearchOrder {
            letters: ArrayVec::new(),
        }
    }

    /// One letter.
    pub fn of(letter: u8) -> SearchOrder
        ensures { result ≡ letter ∷ [] }
    {
        let mut order = SearchOrder::new();
        order.push(letter);
        order
    }

    /// Adds a letter last.
    pub fn push(&mut self, letter: u8)
        requires { length self.old < 27 }
        ensures { self.new ≡ self.old ++ letter ∷ [] }
    {
        self.letters.push(letter);
    }

    /// The letters.
    pub fn as_slice(&self) -> &[u8]
        ensures { result.now ≡ self.now }
    {
        self.letters.as_slice()
    }
}

// Names that have values.
ghost use Rattle.std.specs.Prelude.{◌≡◌, IfOk};
ghost use Rattle.exec2_parse.specs.Expansion.{Binding};
ghost use Rattle.exec2_parse.specs.Variables.{value_of};

use crate::Vars;
use cms_text::Word;
use std::alloc::{AllocError, Global};

/// What gives the names in a word their values.
pub trait Scope {
    /// What each name stands for.
    ghost binding: { Self → Binding };

    /// The value of a name, which is empty where it has none.
    fn value(&self, alloc: Global, name: &[u8]) -> Result<Word, AllocError>
        ensures { IfOk result (λ value. value ≡ binding self.now name.now) };
}

impl Scope for Vars {
    ghost binding = { value_of };

    fn value(&self, alloc: Global, name: &[u8]) -> Result<Word, AllocError> {
        match self.get(name) {
            Some(value) => Word::of(alloc, value.bytes()),
            None => Ok(Word::take(Vec::new(alloc))),
        }
    }
}

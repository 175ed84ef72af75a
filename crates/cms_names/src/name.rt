// File names and record formats.
ghost use Rattle.std.specs.Prelude.{◌≡◌, true};
ghost use Rattle.std.specs.Cmp;
ghost use Rattle.std.specs.Cmp.Lexicographic.{nat_list_eq_equiv};
ghost use Rattle.std.specs.Str.{bytes_eq};
ghost use Rattle.cms_names.specs.Names.{is_part, part_of, filled};

use crate::fault::NameFault;
use crate::text::{Alphabet, Text};
use std::hash::{Hash, Hasher};
use std::marker::Model;

/// A file name or a file type: 1 to 8 name characters, in EBCDIC.
#[derive(Clone, Copy, Debug)]
pub struct Part {
    text: Text,
}

impl Model for Part {
    ghost use Rattle.std.specs.Prelude.{◌≡◌, true, List, ℕ};
    ghost use Rattle.cms_names.specs.Names.{is_part};

    ghost Value = { List ℕ };

    ghost view = { λ p. p.text };

    ghost invariant = { λ p. is_part p.text ≡ true };

    ghost inverse = { λ text. record { text = text } };
}

impl Part {
    /// The part that a word spells: a file name or a file type has 1 to 8 name characters (VM/SP
    /// CMS Command and Macro Reference, "File identifiers").
    pub fn read(word: &[u8]) -> Result<Part, NameFault>
        ensures { result ≡ part_of word.now }
    {
        let text = Text::read(word, Alphabet::Names)?;
        Ok(Part { text })
    }

    /// The characters.
    pub fn as_bytes(&self) -> &[u8]
        ensures value { result.now ≡ self.now }
        ensures part { is_part self.now ≡ true }
    {
        self.text.as_bytes()
    }

    /// The characters, filled with blanks.
    pub fn padded(&self) -> &[u8; 8]
        ensures value { result.now ≡ filled self.now }
        ensures part { is_part self.now ≡ true }
    {
        self.text.padded()
    }
}

impl PartialEq for Part {
    ghost eq = { bytes_eq };

    ghost laws = { Cmp.partial_equiv_from_equiv nat_list_eq_equiv };

    fn eq(&self, other: &Part) -> bool {
        self.as_bytes() == other.as_bytes()
    }
}

impl Eq for Part {
    ghost laws = { nat_list_eq_equiv };
}

impl Hash for Part {
    ghost use Rattle.std.specs.Prelude.{nat_eq};
    ghost use Rattle.std.proofs.Common.{rules};
    ghost use Rattle.std.specs.Hash as fed;
    ghost use Rattle.std.specs.Hash.{items_Alike};

    ghost hash_input = { fed.slice fed.u8 };

    ghost respects_eq = { (items_Alike {E = nat_eq} {F = fed.u8} (record { fed = Prim.search rules })).fed };

    fn hash<H: Hasher>(&self, state: &mut H) {
        self.as_bytes().hash(state);
    }
}

/// A file's name and type.
#[derive(Clone, Copy, PartialEq, Eq, Hash)]
pub struct Name {
    pub file: Part,
    pub kind: Part,
}

/// How a file's records are stored: all of one length, or each with its own.
#[derive(Clone, Copy, Debug, PartialEq, Eq)]
pub enum Format {
    F,
    V,
}

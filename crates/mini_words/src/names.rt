// Names of files and of volumes among the words, in either case.
ghost use Rattle.std.specs.Prelude.{◌≡◌, IfOk, option_map};
ghost use Rattle.mini_words.specs.Names.{codes_of, label_of, name_of, name_pattern_of, part_word, pattern_word, patterns_of};

use arrayvec::ArrayVec;
use cms_ebcdic::{fold_upper, from_host};
use cms_names::{Name, Part, Pattern};
use cms_world::ImageName;
use std::alloc::{AllocError, Global};

/// Files by their names: a pattern of file names, and one of file types.
#[derive(Drop)]
pub struct NamePattern {
    pub file: Pattern,
    pub kind: Pattern,
    /// the word that spells them, as it was given
    pub word: ImageName,
}

// The most characters of a part.
const LONGEST: usize = 8;

// The codes of a word in EBCDIC capitals; none where it has a character without one, or more than eight.
#[tactic(auto, using(crate::proofs::Codes::too_long))]
fn codes(word: &[u8]) -> Option<ArrayVec<u8, LONGEST>>
    ensures { option_map (λ codes. codes.items) result ≡ codes_of word.now }
{
    if word.len() > LONGEST {
        return None;
    }
    let mut codes = ArrayVec::new();
    for byte in word {
        match from_host(*byte) {
            Some(code) => codes.push(fold_upper(code)),
            None => return None,
        }
    }
    Some(codes)
}

#[tactic(auto, unfolding(crate::specs::Names::part_word))]
fn part(word: &str) -> Option<Part>
    ensures { result ≡ part_word word.now }
{
    Part::read(&codes(word.as_bytes())?).ok()
}

#[tactic(auto, unfolding(crate::specs::Names::pattern_word))]
fn pattern(word: &str) -> Option<Pattern>
    ensures { result ≡ pattern_word word.now }
{
    Pattern::read(&codes(word.as_bytes())?).ok()
}

/// The name that a word spells, FN.FT.
#[tactic(auto, using(crate::proofs::Codes::name_without_dot), unfolding(crate::specs::Names::name_of))]
pub fn name(word: &str) -> Option<Name>
    ensures { result ≡ name_of word.now }
{
    let (file, kind) = word.split_once('.')?;
    let file = part(file)?;
    let kind = part(kind)?;
    Some(Name { file, kind })
}

// The two patterns of a word.
#[tactic(auto, using(crate::proofs::Codes::patterns_without_dot), unfolding(crate::specs::Names::patterns_of))]
fn patterns(word: &str) -> Option<(Pattern, Pattern)>
    ensures { result ≡ patterns_of word.now }
{
    let (file, kind) = word.split_once('.')?;
    let file = pattern(file)?;
    let kind = pattern(kind)?;
    Some((file, kind))
}

/// The pattern of names that a word spells, FN.FT with `*` and `%`.
#[tactic(auto, unfolding(crate::specs::Names::name_pattern_of))]
pub fn name_pattern(alloc: Global, word: &str) -> Result<Option<NamePattern>, AllocError>
    ensures { IfOk result (λ pattern. pattern ≡ name_pattern_of word.now) }
{
    let Some((file, kind)) = patterns(word) else {
        return Ok(None);
    };
    let word = ImageName::of(alloc, word)?;
    Ok(Some(NamePattern { file, kind, word }))
}

/// The label that a word spells, 1 to 6 name characters, filled with blanks.
#[tactic(auto, unfolding(crate::specs::Names::label_of))]
pub fn label(word: &str) -> Option<[u8; 6]>
    ensures { result ≡ label_of word.now }
{
    let part = part(word)?;
    if part.as_bytes().len() > 6 {
        return None;
    }
    let mut label = [0; 6];
    label.copy_from_slice(&part.padded()[..6]);
    Some(label)
}

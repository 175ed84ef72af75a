// Words of which there may be many.
ghost use Rattle.std.specs.Prelude.{◌≡◌, map, IfOk};
ghost use Rattle.mini_words.specs.Names.{name_pattern_of};
ghost use Rattle.mini_words.specs.Readings.{IsAnswer};
ghost use Rattle.mini_words.specs.Requests.{each_of};
ghost use Rattle.mini_words.specs.Words.{number_of};
ghost use Rattle.mini_words.specs.declared.fault.WordFault.TheVariants.{Block, Name};

use crate::WordFault;
use crate::names::{NamePattern, name_pattern};
use crate::numbers::number;
use cms_journal::MOST_BLOCKS;
use cms_text::Series;
use cms_world::ImageName;
use std::alloc::{AllocError, Global};

/// The names that the words spell, with `*` and `%`, or the first word that is no name.
pub fn name_patterns(alloc: Global, words: &[&str]) -> Result<Series<NamePattern>, WordFault>
    ensures { IsAnswer result (each_of name_pattern_of Name 1 (map (λ s. s.now) words.now)) }
{
    let mut names = Series::new(alloc);
    for (place, word) in words.iter().enumerate() {
        match name_pattern(alloc, word)? {
            Some(name) => names.push(name)?,
            None => return Err(WordFault::Name(place + 1)),
        }
    }
    Ok(names)
}

/// The numbers of blocks that the words spell, or the first word that is none.
pub fn block_numbers(alloc: Global, words: &[&str]) -> Result<Series<u32>, WordFault>
    ensures { IsAnswer result (each_of (number_of 1 1048576) Block 1 (map (λ s. s.now) words.now)) }
{
    let mut blocks = Series::new(alloc);
    for (place, word) in words.iter().enumerate() {
        match number(word, 1, MOST_BLOCKS) {
            Some(block) => blocks.push(block)?,
            None => return Err(WordFault::Block(place + 1)),
        }
    }
    Ok(blocks)
}

/// The words as names of host files.
pub fn host_names(alloc: Global, words: &[&str]) -> Result<Series<ImageName>, AllocError>
    ensures { IfOk result (λ names. names ≡ map (λ s. s.now) words.now) }
{
    let mut names = Series::new(alloc);
    for word in words {
        names.push(ImageName::of(alloc, word)?)?;
    }
    Ok(names)
}

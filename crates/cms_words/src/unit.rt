// A unit word.
ghost use Rattle.std.specs.Prelude.{◌≡◌, MatchOption, None, IfOk};
ghost use Rattle.cms_words.specs.UnitWords.{bsize_of, count_of, new_image_of, access_of, unit_word_of};
ghost use Rattle.cms_words.specs.Readings.{AreFields, IsReading};

use crate::numbers::{decimal, device};
use cms_journal::{BlockSize, MOST_BLOCKS};
use cms_world::{Access, ImageName};
use std::alloc::{AllocError, Global};

/// The fewest blocks that a new image may have.
const FEWEST_BLOCKS: u32 = 8;

/// A unit: its device, its block size, how its image is attached, and the image's name.
#[derive(Drop)]
pub struct UnitWord {
    /// 1 to 0xFFF
    pub vdev: u16,
    /// the size of the image's blocks
    pub bsize: BlockSize,
    /// a new image has 8 to 1,048,576 blocks
    pub access: Access,
    /// not empty; it may hold commas and blanks
    pub name: ImageName,
}

/// The block size that a word says, 512, 1024, 2048 or 4096.
#[tactic(auto, unfolding(crate::specs::UnitWords::bsize_of))]
pub fn block_size(word: &str) -> Option<BlockSize>
    ensures { result ≡ bsize_of word.now }
{
    match word {
        "512" => Some(BlockSize::new(512)),
        "1024" => Some(BlockSize::new(1024)),
        "2048" => Some(BlockSize::new(2048)),
        "4096" => Some(BlockSize::new(4096)),
        _ => None,
    }
}

// The blocks of a new image.
#[tactic(auto, unfolding(crate::specs::UnitWords::count_of))]
fn block_count(digits: &[u8]) -> Option<u32>
    ensures { result ≡ count_of digits.now }
{
    if let [b'0', ..] = digits {
        return None;
    }
    let count = decimal(digits, MOST_BLOCKS)?;
    if count < FEWEST_BLOCKS {
        None
    } else {
        Some(count)
    }
}

#[tactic(auto, unfolding(crate::specs::UnitWords::new_image_of))]
fn new_image(word: &[u8]) -> Option<Access>
    ensures { result ≡ new_image_of word.now }
{
    match word {
        [b'n', digits @ ..] => Some(Access::New(block_count(digits)?)),
        _ => None,
    }
}

#[tactic(auto, unfolding(crate::specs::UnitWords::access_of))]
fn access(word: &str) -> Option<Access>
    ensures { result ≡ access_of word.now }
{
    match word {
        "rw" => Some(Access::ReadWrite),
        "ro" => Some(Access::ReadOnly),
        _ => new_image(word.as_bytes()),
    }
}

// The four fields of a unit word.
#[derive(Clone, Copy)]
struct Fields<'a> {
    device: &'a str,
    size: &'a str,
    access: &'a str,
    name: &'a str,
}

#[tactic(auto, using(crate::proofs::UnitLemmas::without_name), unfolding(crate::specs::UnitWords::unit_word_of))]
fn split_fields(word: &str) -> Option<Fields<'_>>
    ensures { MatchOption result (unit_word_of word.now ≡ None)
        (λ parts. AreFields parts word.now) }
{
    let (device, rest) = word.split_once(',')?;
    let (size, rest) = rest.split_once(',')?;
    let (access, name) = rest.split_once(',')?;
    Some(Fields {
        device,
        size,
        access,
        name,
    })
}

// What a unit word says, with its image's name as a text.
#[derive(Clone, Copy)]
struct UnitText<'a> {
    vdev: u16,
    bsize: BlockSize,
    access: Access,
    name: &'a str,
}

#[tactic(auto, unfolding(crate::specs::UnitWords::unit_word_of))]
fn unit_text(word: &str) -> Option<UnitText<'_>>
    ensures { IsReading result (unit_word_of word.now) }
{
    let parts = split_fields(word)?;
    let vdev = device(parts.device.as_bytes())?;
    let bsize = block_size(parts.size)?;
    let access = access(parts.access)?;
    if parts.name.is_empty() {
        return None;
    }
    Some(UnitText {
        vdev,
        bsize,
        access,
        name: parts.name,
    })
}

/// The unit that a word says, or none where it isn't a unit word.
pub fn unit_word(alloc: Global, word: &str) -> Result<Option<UnitWord>, AllocError>
    ensures { IfOk result (λ unit. unit ≡ unit_word_of word.now) }
{
    let Some(text) = unit_text(word) else {
        return Ok(None);
    };
    let name = ImageName::of(alloc, text.name)?;
    Ok(Some(UnitWord {
        vdev: text.vdev,
        bsize: text.bsize,
        access: text.access,
        name,
    }))
}

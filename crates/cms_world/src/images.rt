// The images of a world in memory.
ghost use Rattle.std.specs.Prelude.{◌≡◌, ◌<◌, length, option_map, All, IfOk, IfSome};
ghost use Rattle.cms_journal.specs.Journal.{IsMade};
ghost use Rattle.std.specs.List.{concat};
ghost use Rattle.cms_world.specs.Images.{over, starting};

use crate::Access;
use cms_journal::{Blocks, Bytes};
use std::alloc::{AllocError, Global};

/// An image as it was given.
#[derive(Drop)]
pub struct Image {
    pub bytes: Bytes,
    /// How many units were attached before it was given: what is written to the later units of its name stands in it.
    pub since: usize,
}

fn joined(alloc: Global, blocks: &Blocks) -> Result<Vec<u8>, AllocError>
    ensures { IfOk result (λ bytes. bytes.items ≡ concat blocks.now) }
{
    let mut bytes = Vec::new(alloc);
    for place in 0..blocks.len() {
        bytes.extend_from_slice(blocks.get(place))?;
    }
    Ok(bytes)
}

/// These bytes with those of the blocks over their beginning.
pub fn overlaid(alloc: Global, blocks: &Blocks, bytes: &[u8]) -> Result<Vec<u8>, AllocError>
    ensures { IfOk result (λ written. written.items ≡ over (concat blocks.now) bytes.now) }
{
    let mut written = joined(alloc, blocks)?;
    if written.len() < bytes.len() {
        written.extend_from_slice(&bytes[written.len()..])?;
    }
    Ok(written)
}

/// The blocks with which a unit is attached, by what stands under its name.
pub fn starting_blocks(
    alloc: Global,
    standing: Option<Vec<u8>>,
    bsize: u32,
    access: Access,
) -> Result<Option<Blocks>, AllocError>
    requires { 0 < bsize }
    ensures start { IfOk result (λ start. start
        ≡ starting (option_map (λ bytes. bytes.items) standing) access bsize) }
    ensures sizes { IfOk result (λ start. IfSome start (All (λ block. length block ≡ bsize))) }
    ensures made { IfOk result (λ start. IfSome start (IsMade access bsize)) }
{
    match (standing, access) {
        (Some(bytes), Access::ReadOnly) => Ok(Some(Blocks::cut(alloc, &bytes, bsize as usize)?)),
        (Some(bytes), Access::ReadWrite) => Ok(Some(Blocks::cut(alloc, &bytes, bsize as usize)?)),
        (None, Access::New(count)) => Ok(Some(Blocks::zeros(alloc, count, bsize as usize)?)),
        _ => Ok(None),
    }
}

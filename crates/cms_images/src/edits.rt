// Bytes of an image at places of its blocks.
use std::alloc::{AllocError, Global};

/// Bytes at a place of a block of 512 bytes: the block, of which the first is block 1, the place from 0, and the bytes.
pub type Edit = (u16, u16, &'static [u8]);

/// An image of so many bytes, all of them zeros.
pub fn zeros(alloc: Global, size: usize) -> Result<Vec<u8>, AllocError> {
    vec![in alloc; 0; size]
}

/// Puts bytes at a place of an image, from 0; what isn't there is left out.
pub fn put_at(image: &mut [u8], start: usize, bytes: &[u8]) {
    let mut place = start;
    for byte in bytes {
        if place < image.len() {
            image[place] = *byte;
            place += 1;
        }
    }
}

/// Puts edits into an image of 512-byte blocks, one after another; what isn't there is left out.
pub fn put_edits(image: &mut [u8], edits: &[Edit]) {
    for (block, at, bytes) in edits {
        let start = (*block as usize).saturating_sub(1) * 512 + *at as usize;
        put_at(image, start, bytes);
    }
}

/// An image of so many blocks of 512 bytes, with these edits, one table after another, and zeros elsewhere.
pub fn edited(alloc: Global, blocks: u16, tables: &[&[Edit]]) -> Result<Vec<u8>, AllocError> {
    let mut image = zeros(alloc, blocks as usize * 512)?;
    for edits in tables {
        put_edits(image.as_mut_slice(), edits);
    }
    Ok(image)
}

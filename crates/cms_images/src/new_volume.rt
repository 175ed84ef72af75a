// What a volume is that was made and not used yet.
use crate::edits::{put_at, zeros};
use crate::entries;
use crate::entries::{DIRECTORY, Entry, MAP, put_number};
use crate::many::{put_marks, start_of};
use std::alloc::{AllocError, Global};

/// The size of a volume that was made, and how many data blocks and pointer blocks its map has: one of these over more than one of those.
#[derive(Clone, Copy)]
pub struct Made {
    /// the bytes of a block
    pub bsize: u32,
    /// the blocks of the volume
    pub total: u32,
    /// the data blocks of the map
    pub map: u32,
    /// its pointer blocks, none or one
    pub pointers: u32,
}

/// The image of a volume TEST01 that was made at noon on 1 July 2026 on blocks of zeros: the directory in block 4, the map from block 6 on.
pub fn formatted(alloc: Global, made: &Made) -> Result<Vec<u8>, AllocError> {
    let size = (made.bsize as usize).saturating_mul(made.total as usize);
    let mut bytes = zeros(alloc, size)?;
    let image = bytes.as_mut_slice();
    put_label(image, made);
    put_directory(image, made);
    put_map(image, made);
    Ok(bytes)
}

// The blocks in use: the first five and those of the map.
fn used(made: &Made) -> u32 {
    made.map.saturating_add(made.pointers).saturating_add(5)
}

// Block 3.
fn put_label(image: &mut [u8], made: &Made) {
    let Made { bsize, total, .. } = *made;
    let start = start_of(bsize, 3);
    entries::put_label(
        image,
        start,
        &[bsize, 4, total, total, total, used(made), 64, bsize / 64],
    );
    let noon = [0x26, 0x07, 0x01, 0x12, 0x00, 0x00];
    put_at(image, start.saturating_add(44), &noon);
}

// Block 4: the entries of the directory and of the map.
fn put_directory(image: &mut [u8], made: &Made) {
    let start = start_of(made.bsize, 4);
    put_entry(image, start, &DIRECTORY, [64, 4, 1, 2], 0);
    let root = if made.pointers == 0 { 6 } else { used(made) };
    let numbers = [made.bsize, root, made.map, made.map];
    let levels = if made.pointers == 0 { 0 } else { 1 };
    put_entry(image, start.saturating_add(64), &MAP, numbers, levels);
}

// The entry of a system file: the length of its records, its root, its data blocks and its records, and its levels.
fn put_entry(image: &mut [u8], start: usize, name: &[u8; 16], numbers: [u32; 4], levels: u8) {
    let [length, root, blocks, records] = numbers;
    let entry = Entry {
        name: *name,
        format: [0xC6, 0x08],
        length,
        root,
        blocks,
        records,
        levels: [levels, 4],
        stamp: [0x26, 0x07, 0x01, 0x12, 0x00, 0x00],
    };
    entries::put_entry(image, start, &entry);
}

// The blocks from 6 on: a bit for each block in use, and the pointers to these blocks.
fn put_map(image: &mut [u8], made: &Made) {
    put_marks(image, start_of(made.bsize, 6), used(made));
    if made.pointers > 0 {
        let start = start_of(made.bsize, used(made));
        for nth in 0..made.map {
            let at = start.saturating_add((nth as usize).saturating_mul(4));
            put_number(image, at, nth.saturating_add(6));
        }
    }
}

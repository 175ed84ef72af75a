// Small volumes of any block size, with many files.
ghost use Rattle.std.specs.Prelude.{◌≤◌};

use crate::edits::{put_at, zeros};
use crate::entries;
use crate::entries::{DIRECTORY, Entry, MAP, put_label};
use std::alloc::{AllocError, Global};

// FILE0000 TEXT.
const FILE: [u8; 16] = [
    0xC6, 0xC9, 0xD3, 0xC5, 0xF0, 0xF0, 0xF0, 0xF0, 0xE3, 0xC5, 0xE7, 0xE3, 0x40, 0x40, 0x40, 0x40,
];

/// Where a block begins.
pub fn start_of(bsize: u32, block: u32) -> usize {
    block.saturating_sub(1) as usize * bsize as usize
}

/// Puts the entry of a file of one block: its name, the length and the count of its records, and its block.
pub fn put_entry(
    image: &mut [u8],
    start: usize,
    name: &[u8; 16],
    length: u32,
    count: u32,
    root: u32,
) {
    let entry = Entry {
        name: *name,
        format: [0xC6, 0x00],
        length,
        root,
        blocks: 1,
        records: count,
        levels: [0, 4],
        stamp: [0x26, 0x07, 0x01, 0x12, 0x00, 0x00],
    };
    entries::put_entry(image, start, &entry);
}

/// The four digits of a number below 10,000, in EBCDIC.
pub fn digits(number: u32) -> [u8; 4] {
    let digit = |power: u32| 0xF0 + (number / power % 10) as u8;
    [digit(1000), digit(100), digit(10), digit(1)]
}

/// FILEnnnn TEXT, for a number.
pub fn name_of(number: u32) -> [u8; 16] {
    let mut name = FILE;
    put_at(&mut name, 4, &digits(number));
    name
}

/// Marks blocks from the first to the last in the map that begins at a place.
pub fn put_marks(image: &mut [u8], start: usize, last: u32) {
    for place in 0..last {
        let at = start.saturating_add(place as usize / 8);
        if at < image.len() {
            image[at] |= 0x80 >> (place % 8);
        }
    }
}

/// Puts what a volume with so many files of one block each has beside them: the label of TEST01 on so many blocks, the entries of the
/// directory and of the map in block 4, and the marks of the map in block 6.
pub fn put_system(image: &mut [u8], bsize: u32, blocks: u32, files: u32) {
    put_label(image, start_of(bsize, 3), &[bsize, 4, 0, 0, blocks, 0, 64]);
    let directory = start_of(bsize, 4);
    put_entry(image, directory, &DIRECTORY, 64, files.saturating_add(2), 4);
    put_entry(image, directory.saturating_add(64), &MAP, bsize, 1, 6);
    put_marks(image, start_of(bsize, 6), files.saturating_add(6));
}

// Puts a file of a number, from 1: its entry behind those of the directory and the map, and its records.
fn put_file(image: &mut [u8], bsize: u32, number: u32) {
    let entry = start_of(bsize, 4).saturating_add((number as usize + 1) * 64);
    let root = number.saturating_add(6);
    let records = start_of(bsize, root);
    if number == 1 {
        put_entry(image, entry, &name_of(number), 1, bsize, root);
        for place in 0..bsize {
            put_at(image, records.saturating_add(place as usize), &[0xF1]);
        }
    } else {
        put_entry(image, entry, &name_of(number), 4, 1, root);
        put_at(image, records, &digits(number));
    }
}

/// TEST01 on so many blocks of a size: the directory in block 4, the map in block 6, and from block 7 on the files FILE0001 TEXT A1
/// to that of the number of files. The first has as many records as a block has bytes, each of one byte, 1. Each other has one record,
/// the four digits of its number. What isn't there is left out.
pub fn many_files(alloc: Global, bsize: u32, blocks: u32, files: u32) -> Result<Vec<u8>, AllocError>
    requires size { bsize ≤ 4096 }
    requires blocks { blocks ≤ 65536 }
{
    let mut volume = zeros(alloc, blocks as usize * bsize as usize)?;
    let image = volume.as_mut_slice();
    put_system(image, bsize, blocks, files);
    for number in 1..files.saturating_add(1) {
        put_file(image, bsize, number);
    }
    Ok(volume)
}

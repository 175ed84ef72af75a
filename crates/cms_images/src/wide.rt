// A volume whose directory and map have several blocks.
use crate::edits::{put_at, zeros};
use crate::entries::{DIRECTORY, MAP, put_label, put_numbers};
use crate::known::{put, put_number};
use crate::many::{digits, name_of, put_entry, put_marks, start_of};
use std::alloc::{AllocError, Global};

const SIZE: u32 = 512;

const BLOCKS: u32 = 4_104;

const FILES: u32 = 20;

// The blocks of the directory, each with eight entries.
const ENTRIES: [u32; 3] = [4, 9, 10];

// The last block in use, that of the last file.
const LAST: u32 = 31;

// Where the entry of a number stands.
fn entry_at(number: u32) -> usize {
    let block = match number / 8 {
        0 => ENTRIES[0],
        1 => ENTRIES[1],
        _ => ENTRIES[2],
    };
    start_of(SIZE, block).saturating_add(number as usize % 8 * 64)
}

// Says of the entry at a place of the directory's first block that its file has so many blocks below a pointer block.
fn put_level(image: &mut [u8], at: usize, blocks: u32) {
    put_number(image, 4, at.saturating_add(44), blocks);
    put(image, 4, at.saturating_add(52), &[1]);
}

// Puts the label, the entries of the directory and of the map with their pointer blocks, and the marks of the map.
fn put_system(image: &mut [u8]) {
    put_label(image, start_of(SIZE, 3), &[SIZE, 4, 0, 0, BLOCKS, 0, 64]);
    put_entry(image, entry_at(0), &DIRECTORY, 64, FILES + 2, 11);
    put_level(image, 0, 3);
    put_numbers(image, start_of(SIZE, 11), &ENTRIES);
    put_entry(image, entry_at(1), &MAP, SIZE, 2, 8);
    put_level(image, 64, 2);
    put_numbers(image, start_of(SIZE, 8), &[6, 7]);
    put_marks(image, start_of(SIZE, 6), LAST);
}

// Puts the files: their entries and their records.
fn put_files(image: &mut [u8]) {
    for number in 1..FILES + 1 {
        let root = number + 11;
        put_entry(image, entry_at(number + 1), &name_of(number), 4, 1, root);
        put_at(image, start_of(SIZE, root), &digits(number));
    }
}

/// TEST01 on 4,104 blocks of 512 bytes: the directory in blocks 4, 9 and 10 below the pointer block 11, the map in blocks 6 and 7 below
/// the pointer block 8, and from block 12 on the files FILE0001 TEXT A1 to FILE0020 TEXT A1, each with one record, the four digits of its
/// number.
pub fn wide_volume(alloc: Global) -> Result<Vec<u8>, AllocError> {
    let mut volume = zeros(alloc, BLOCKS as usize * SIZE as usize)?;
    put_system(volume.as_mut_slice());
    put_files(volume.as_mut_slice());
    Ok(volume)
}

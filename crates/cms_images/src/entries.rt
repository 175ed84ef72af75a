// Entries of a directory.
use crate::edits::put_at;

/// The name of the directory, as it is written.
pub const DIRECTORY: [u8; 16] = [
    0, 0, 0, 1, 0, 0, 0, 0, 0xC4, 0xC9, 0xD9, 0xC5, 0xC3, 0xE3, 0xD6, 0xD9,
];

/// The name of the allocation map.
pub const MAP: [u8; 16] = [
    0, 0, 0, 2, 0, 0, 0, 0, 0xC1, 0xD3, 0xD3, 0xD6, 0xC3, 0xD4, 0xC1, 0xD7,
];

/// An entry of a file with mode A1.
#[derive(Clone, Copy)]
pub struct Entry {
    pub name: [u8; 16],
    /// the format, and whether the year is one from 2000 on
    pub format: [u8; 2],
    /// the length of the records
    pub length: u32,
    /// the root block
    pub root: u32,
    /// the data blocks
    pub blocks: u32,
    pub records: u32,
    /// the levels of pointer blocks, and the bytes of a pointer
    pub levels: [u8; 2],
    /// year, month, day, hour, minute and second
    pub stamp: [u8; 6],
}

/// Puts a number of four bytes at a place of an image, the highest first.
pub fn put_number(image: &mut [u8], start: usize, number: u32) {
    put_at(image, start, &number.to_be_bytes());
}

/// Puts numbers of four bytes one behind another, from a place of an image on.
pub fn put_numbers(image: &mut [u8], start: usize, numbers: &[u32]) {
    for (nth, number) in numbers.iter().enumerate() {
        put_number(image, start.saturating_add(nth.saturating_mul(4)), *number);
    }
}

/// Puts the label of TEST01 at a place of an image: what it is, the volume id, and its numbers, from that of the bytes of a block on.
pub fn put_label(image: &mut [u8], start: usize, numbers: &[u32]) {
    put_at(
        image,
        start,
        &[0xC3, 0xD4, 0xE2, 0xF1, 0xE3, 0xC5, 0xE2, 0xE3, 0xF0, 0xF1],
    );
    put_numbers(image, start.saturating_add(12), numbers);
}

/// Puts an entry at a place of an image.
pub fn put_entry(image: &mut [u8], start: usize, entry: &Entry) {
    put_at(image, start, &entry.name);
    put_at(image, start.saturating_add(24), &[0xC1, 0xF1]);
    put_at(image, start.saturating_add(30), &entry.format);
    put_numbers(
        image,
        start.saturating_add(32),
        &[entry.length, 0, entry.root, entry.blocks, entry.records],
    );
    put_at(image, start.saturating_add(52), &entry.levels);
    put_at(image, start.saturating_add(54), &entry.stamp);
}

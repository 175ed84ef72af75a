// Volumes of a few files, each of one data block.
use crate::edits::{put_at, zeros};
use crate::entries::{Entry, put_entry, put_number};
use crate::many::{put_system, start_of};
use std::alloc::{AllocError, Global};

const SIZE: u32 = 512;

const BLOCKS: u32 = 24;

// The first block of a file.
const FIRST: u32 = 7;

const BLANK: u8 = 0x40;

/// A file: its name and its type, its mode number, whether its records have one length, and its records. All is in capitals, digits and
/// blanks.
#[derive(Clone, Copy)]
pub struct SmallFile {
    pub name: &'static str,
    pub kind: &'static str,
    pub number: u8,
    pub fixed: bool,
    pub records: &'static [&'static str],
}

// A character in EBCDIC.
fn coded(byte: u8) -> u8 {
    match byte {
        b'A'..=b'I' => byte - b'A' + 0xC1,
        b'J'..=b'R' => byte - b'J' + 0xD1,
        b'S'..=b'Z' => byte - b'S' + 0xE2,
        b'0'..=b'9' => byte - b'0' + 0xF0,
        _ => BLANK,
    }
}

// A length that a record may have.
fn small(length: usize) -> u16 {
    (length % 65536) as u16
}

// Puts a text at a place.
fn put_text(image: &mut [u8], start: usize, text: &str) {
    for (nth, byte) in text.as_bytes().iter().enumerate() {
        put_at(image, start.saturating_add(nth), &[coded(*byte)]);
    }
}

// The file name and the file type, filled with blanks.
fn name_of(file: &SmallFile) -> [u8; 16] {
    let mut name = [BLANK; 16];
    put_text(&mut name, 0, file.name);
    put_text(&mut name, 8, file.kind);
    name
}

// Puts the records of a file from the start of its block on, those of any length with their length before them, and gives the longest.
fn put_records(image: &mut [u8], root: u32, file: &SmallFile) -> u32 {
    let mut at = start_of(SIZE, root);
    let mut longest = 0;
    for record in file.records {
        let length = small(record.len());
        if !file.fixed {
            put_at(image, at, &length.to_be_bytes());
            at = at.saturating_add(2);
        }
        put_text(image, at, record);
        at = at.saturating_add(record.len());
        longest = longest.max(u32::from(length));
    }
    longest
}

// The entry of a file with this root and this length of its longest record. It was written in the last second of 1999.
fn entry_of(file: &SmallFile, root: u32, longest: u32) -> Entry {
    let (format, pointer) = if file.fixed { (0xC6, 4) } else { (0xE5, 12) };
    Entry {
        name: name_of(file),
        format: [format, 0x00],
        length: longest,
        root,
        blocks: 1,
        records: u32::from(small(file.records.len())),
        levels: [0, pointer],
        stamp: [0x99, 0x12, 0x31, 0x23, 0x59, 0x59],
    }
}

// Puts a file of a place, from 0: its entry behind those of the directory and the map, and its records.
fn put_file(image: &mut [u8], place: u32, file: &SmallFile) {
    let root = place.saturating_add(FIRST);
    let longest = put_records(image, root, file);
    let entry = start_of(SIZE, 4).saturating_add(
        (place as usize).saturating_add(2).saturating_mul(64),
    );
    put_entry(image, entry, &entry_of(file, root, longest));
    put_at(image, entry.saturating_add(25), &[0xF0 + file.number % 10]);
}

// Puts all that a volume of this volume id has with these files.
fn put_volume(image: &mut [u8], volid: &str, files: &[SmallFile]) {
    let count = u32::from(small(files.len()));
    let label = start_of(SIZE, 3);
    put_system(image, SIZE, BLOCKS, count);
    put_text(image, label.saturating_add(4), volid);
    put_number(image, label.saturating_add(32), count.saturating_add(6));
    for (place, file) in files.iter().enumerate() {
        put_file(image, u32::from(small(place)), file);
    }
}

/// A volume of this volume id on 24 blocks of 512 bytes: the directory in block 4, the map in block 6, and from block 7 on these files, at
/// most 6 of them.
pub fn small_volume(
    alloc: Global,
    volid: &str,
    files: &[SmallFile],
) -> Result<Vec<u8>, AllocError> {
    let mut volume = zeros(alloc, BLOCKS as usize * SIZE as usize)?;
    let files = files.get(..6).unwrap_or(files);
    put_volume(volume.as_mut_slice(), volid, files);
    Ok(volume)
}

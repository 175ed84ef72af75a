//! Volumes of 512-byte blocks as a system would leave them, one after another change.
use crate::edits::{put_at, zeros};
use crate::entries;
use crate::entries::{DIRECTORY, Entry, MAP, put_entry};
use crate::many::start_of;
use std::alloc::{AllocError, Global};

// Bytes of a block.
const BLOCK: usize = 512;

/// Puts bytes at a place of a block, the first of which is block 1; what isn't there is left out.
pub fn put(image: &mut [u8], block: usize, at: usize, bytes: &[u8]) {
    let start = block.saturating_sub(1).saturating_mul(BLOCK);
    put_at(image, start.saturating_add(at), bytes);
}

/// Puts a number of four bytes, the highest first.
pub fn put_number(image: &mut [u8], block: usize, at: usize, number: u32) {
    put(image, block, at, &number.to_be_bytes());
}

// Whose entry it is: the directory's, the allocation map's, or that of a file of type FILE, whose name is one letter, with the length of
// its longest record.
#[derive(Clone, Copy)]
enum Of {
    Directory,
    Map,
    File(u8, u32),
}

// The root, the data blocks, the records and the levels of pointer blocks of a file that was written in this second of 2000.
#[derive(Clone, Copy)]
struct Row(u32, u32, u32, u8, u8);

// What a system wrote.
#[derive(Clone, Copy)]
enum Change {
    // The label of a volume TEST01 that was formatted at 2000-01-01 00:00:00: the first block of its directory, its blocks, and how many are
    // in use.
    Label(u32, u32, u32),
    // An entry at a place of a block of the directory.
    Entry(u32, usize, Of, Row),
    // The record HELLO at the front of each block from one to another.
    Hello(usize, usize),
    // Bytes at a place of a block.
    Bytes(usize, usize, &'static [u8]),
}

// TEST01 with 9 blocks as it was formatted: the directory in block 4, the map in block 6, no files.
const EMPTY: &[Change] = &[
    Change::Label(4, 9, 6),
    Change::Entry(4, 0, Of::Directory, Row(4, 1, 2, 0, 0)),
    Change::Entry(4, 64, Of::Map, Row(6, 1, 1, 0, 0)),
    Change::Bytes(6, 0, &[0xFC, 0x00]),
];

// Then A FILE is written, one record HELLO: its data in block 7, the new map in block 8, the new directory in block 5.
const ONE_FILE: &[Change] = &[
    Change::Hello(7, 7),
    Change::Bytes(8, 0, &[0xFB, 0x00]),
    Change::Entry(5, 0, Of::Directory, Row(5, 1, 3, 0, 2)),
    Change::Entry(5, 64, Of::Map, Row(8, 1, 1, 0, 2)),
    Change::Entry(5, 128, Of::File(0xC1, 5), Row(7, 1, 1, 0, 2)),
    Change::Label(5, 9, 7),
];

// Then A FILE is erased again: the map in block 6, the directory in block 4; blocks 5, 7 and 8 stay as they were.
const ERASED: &[Change] = &[
    Change::Entry(4, 0, Of::Directory, Row(4, 1, 2, 0, 0)),
    Change::Entry(4, 64, Of::Map, Row(6, 1, 1, 0, 0)),
    Change::Bytes(6, 0, &[0xFC, 0x00]),
    Change::Label(4, 9, 6),
];

// Or B FILE is written behind A FILE: its data in block 6, the map in block 9, the directory in block 4.
const TWO_FILES: &[Change] = &[
    Change::Hello(6, 6),
    Change::Bytes(9, 0, &[0xFE, 0x80]),
    Change::Entry(4, 0, Of::Directory, Row(4, 1, 4, 0, 3)),
    Change::Entry(4, 64, Of::Map, Row(9, 1, 1, 0, 3)),
    Change::Entry(4, 128, Of::File(0xC1, 5), Row(7, 1, 1, 0, 2)),
    Change::Entry(4, 192, Of::File(0xC2, 5), Row(6, 1, 1, 0, 3)),
    Change::Label(4, 9, 8),
];

// A volume of 12 blocks with V FILE, records of 509 and 3 bytes: data in blocks 7 and 8, the pointer block in block 9.
const SPANNING: &[Change] = &[
    Change::Label(4, 12, 9),
    Change::Entry(4, 0, Of::Directory, Row(4, 1, 3, 0, 0)),
    Change::Entry(4, 64, Of::Map, Row(6, 1, 1, 0, 0)),
    Change::Entry(4, 128, Of::File(0xE5, 509), Row(9, 2, 2, 1, 0)),
    Change::Bytes(6, 0, &[0xFF, 0x80]),
    Change::Bytes(7, 0, &[0x01, 0xFD]),
    Change::Bytes(7, 510, &[0xC1, 0x00]),
    Change::Bytes(8, 0, &[0x03, 0xC1, 0xC2, 0xC3]),
    Change::Bytes(9, 0, &[0, 0, 0, 7, 0, 0, 0, 2, 0, 0, 0, 0]),
    Change::Bytes(9, 12, &[0, 0, 0, 8, 0, 0, 0, 2, 0xFF, 0xFF, 0xFF, 0xFF]),
];

// The empty volume with A FILE in block 7, and blocks 8 and 9 marked but not met.
const FULL: &[Change] = &[
    Change::Entry(4, 0, Of::Directory, Row(4, 1, 3, 0, 0)),
    Change::Entry(4, 128, Of::File(0xC1, 5), Row(7, 1, 1, 0, 0)),
    Change::Bytes(6, 0, &[0xFF, 0x80]),
    Change::Hello(7, 7),
    Change::Bytes(3, 32, &[0, 0, 0, 9]),
];

// A volume of 16 blocks with the files A to G: the directory in blocks 4 and 8 below the pointer block 7, the data in blocks 9 to 15.
const LONG_DIRECTORY: &[Change] = &[
    Change::Label(4, 16, 15),
    Change::Entry(4, 0, Of::Directory, Row(7, 2, 9, 1, 0)),
    Change::Entry(4, 64, Of::Map, Row(6, 1, 1, 0, 0)),
    Change::Entry(4, 128, Of::File(0xC1, 5), Row(9, 1, 1, 0, 0)),
    Change::Entry(4, 192, Of::File(0xC2, 5), Row(10, 1, 1, 0, 0)),
    Change::Entry(4, 256, Of::File(0xC3, 5), Row(11, 1, 1, 0, 0)),
    Change::Entry(4, 320, Of::File(0xC4, 5), Row(12, 1, 1, 0, 0)),
    Change::Entry(4, 384, Of::File(0xC5, 5), Row(13, 1, 1, 0, 0)),
    Change::Entry(4, 448, Of::File(0xC6, 5), Row(14, 1, 1, 0, 0)),
    Change::Entry(8, 0, Of::File(0xC7, 5), Row(15, 1, 1, 0, 0)),
    Change::Bytes(6, 0, &[0xFF, 0xFE]),
    Change::Bytes(7, 0, &[0, 0, 0, 4, 0, 0, 0, 8]),
    Change::Hello(9, 15),
];

// It has 17 blocks, of which its label says.
const ON_17: &[Change] = &[Change::Bytes(3, 31, &[17])];

// It has 20 blocks, of which its label says.
const ON_20: &[Change] = &[Change::Bytes(3, 31, &[20])];

// The files A to P: the directory in blocks 4, 7 and 8 below the pointer block 9, the data in blocks 10 to 25.
const SIXTEEN_FILES: &[Change] = &[
    Change::Entry(4, 0, Of::Directory, Row(9, 3, 18, 1, 0)),
    Change::Entry(4, 64, Of::Map, Row(6, 1, 1, 0, 0)),
    Change::Entry(4, 128, Of::File(0xC1, 5), Row(10, 1, 1, 0, 0)),
    Change::Entry(4, 192, Of::File(0xC2, 5), Row(11, 1, 1, 0, 0)),
    Change::Entry(4, 256, Of::File(0xC3, 5), Row(12, 1, 1, 0, 0)),
    Change::Entry(4, 320, Of::File(0xC4, 5), Row(13, 1, 1, 0, 0)),
    Change::Entry(4, 384, Of::File(0xC5, 5), Row(14, 1, 1, 0, 0)),
    Change::Entry(4, 448, Of::File(0xC6, 5), Row(15, 1, 1, 0, 0)),
    Change::Entry(7, 0, Of::File(0xC7, 5), Row(16, 1, 1, 0, 0)),
    Change::Entry(7, 64, Of::File(0xC8, 5), Row(17, 1, 1, 0, 0)),
    Change::Entry(7, 128, Of::File(0xC9, 5), Row(18, 1, 1, 0, 0)),
    Change::Entry(7, 192, Of::File(0xD1, 5), Row(19, 1, 1, 0, 0)),
    Change::Entry(7, 256, Of::File(0xD2, 5), Row(20, 1, 1, 0, 0)),
    Change::Entry(7, 320, Of::File(0xD3, 5), Row(21, 1, 1, 0, 0)),
    Change::Entry(7, 384, Of::File(0xD4, 5), Row(22, 1, 1, 0, 0)),
    Change::Entry(7, 448, Of::File(0xD5, 5), Row(23, 1, 1, 0, 0)),
    Change::Entry(8, 0, Of::File(0xD6, 5), Row(24, 1, 1, 0, 0)),
    Change::Entry(8, 64, Of::File(0xD7, 5), Row(25, 1, 1, 0, 0)),
    Change::Hello(10, 25),
    Change::Bytes(6, 0, &[0xFF, 0xFF, 0xFF, 0x80]),
    Change::Bytes(9, 0, &[0, 0, 0, 4, 0, 0, 0, 7, 0, 0, 0, 8]),
];

// Of them, the label of a volume of 27 blocks.
const LABEL_27: &[Change] = &[Change::Label(4, 27, 25)];

// Of them, the label of a volume of 28 blocks.
const LABEL_28: &[Change] = &[Change::Label(4, 28, 25)];

// A volume of 4,112 blocks with A FILE in block 9: the directory in block 4, the map in blocks 6 and 7 below the pointer block 8.
const WIDE_MAP: &[Change] = &[
    Change::Label(4, 4112, 9),
    Change::Entry(4, 0, Of::Directory, Row(4, 1, 3, 0, 0)),
    Change::Entry(4, 64, Of::Map, Row(8, 2, 2, 1, 0)),
    Change::Entry(4, 128, Of::File(0xC1, 5), Row(9, 1, 1, 0, 0)),
    Change::Bytes(6, 0, &[0xFF, 0x80]),
    Change::Bytes(8, 0, &[0, 0, 0, 6, 0, 0, 0, 7]),
    Change::Hello(9, 9),
];

// The tables of what was written.
#[derive(Clone, Copy)]
enum Table {
    Empty,
    OneFile,
    Erased,
    TwoFiles,
    Spanning,
    Full,
    LongDirectory,
    On17,
    On20,
    SixteenFiles,
    Label27,
    Label28,
    WideMap,
}

// What stands in a table. Each is named here alone, since the proof of a function takes longer with each constant that it names.
fn changes_of(table: Table) -> &'static [Change] {
    match table {
        Table::Empty => EMPTY,
        Table::OneFile => ONE_FILE,
        Table::Erased => ERASED,
        Table::TwoFiles => TWO_FILES,
        Table::Spanning => SPANNING,
        Table::Full => FULL,
        Table::LongDirectory => LONG_DIRECTORY,
        Table::On17 => ON_17,
        Table::On20 => ON_20,
        Table::SixteenFiles => SIXTEEN_FILES,
        Table::Label27 => LABEL_27,
        Table::Label28 => LABEL_28,
        Table::WideMap => WIDE_MAP,
    }
}

// The volumes by their names: their blocks, and what was written.
const VOLUMES: &[(&str, usize, &[Table])] = &[
    ("zeros", 9, &[]),
    ("empty", 9, &[Table::Empty]),
    ("one file", 9, &[Table::Empty, Table::OneFile]),
    (
        "two files",
        9,
        &[Table::Empty, Table::OneFile, Table::TwoFiles],
    ),
    ("erased", 9, &[Table::Empty, Table::OneFile, Table::Erased]),
    ("full", 9, &[Table::Empty, Table::Full]),
    ("spanning", 12, &[Table::Spanning]),
    ("long directory", 16, &[Table::LongDirectory]),
    (
        "long directory on 17",
        17,
        &[Table::LongDirectory, Table::On17],
    ),
    (
        "long directory on 20",
        20,
        &[Table::LongDirectory, Table::On20],
    ),
    ("sixteen files", 28, &[Table::Label28, Table::SixteenFiles]),
    (
        "sixteen files on 27",
        27,
        &[Table::Label27, Table::SixteenFiles],
    ),
    ("wide map", 4112, &[Table::WideMap]),
];

// Puts the label.
fn put_label(image: &mut [u8], origin: u32, total: u32, in_use: u32) {
    let numbers = [512, origin, total, total, total, in_use, 64, 8];
    entries::put_label(image, start_of(512, 3), &numbers);
    put(image, 3, 44, &[0x00, 0x01, 0x01]);
}

// The name of A FILE, as it is written.
const FILE: [u8; 16] = [
    0xC1, 0x40, 0x40, 0x40, 0x40, 0x40, 0x40, 0x40, 0xC6, 0xC9, 0xD3, 0xC5, 0x40, 0x40, 0x40, 0x40,
];

// The name of whose entry it is, its format, the length of its records, and the bytes of its pointers.
fn naming(of: Of) -> ([u8; 16], u8, u32, u8) {
    match of {
        Of::Directory => (DIRECTORY, 0xC6, 64, 4),
        Of::Map => (MAP, 0xC6, 512, 4),
        Of::File(letter, length) => {
            let mut name = FILE;
            name[0] = letter;
            (name, 0xE5, length, 12)
        }
    }
}

// The entry of a row.
fn entry_of(of: Of, row: Row) -> Entry {
    let (name, format, length, size) = naming(of);
    let Row(root, blocks, records, levels, second) = row;
    Entry {
        name,
        format: [format, 0x08],
        length,
        root,
        blocks,
        records,
        levels: [levels, size],
        stamp: [0x00, 0x01, 0x01, 0x00, 0x00, second],
    }
}

// A record HELLO of V, behind its length.
const HELLO: &[u8] = &[0x00, 0x05, 0xC8, 0xC5, 0xD3, 0xD3, 0xD6];

// Puts that record at the front of each block from one to another.
fn put_hello(image: &mut [u8], first: usize, last: usize) {
    for block in first..=last {
        put(image, block, 0, HELLO);
    }
}

// Puts what was written.
fn put_change(image: &mut [u8], change: &Change) {
    match change {
        Change::Label(origin, total, in_use) => put_label(image, *origin, *total, *in_use),
        Change::Entry(block, at, of, row) => {
            put_entry(
                image,
                start_of(512, *block).saturating_add(*at),
                &entry_of(*of, *row),
            )
        }
        Change::Hello(first, last) => put_hello(image, *first, *last),
        Change::Bytes(block, at, bytes) => put(image, *block, *at, bytes),
    }
}

// Puts what stands in these tables, one after another.
fn put_tables(image: &mut [u8], tables: &[Table]) {
    for table in tables {
        for change in changes_of(*table) {
            put_change(image, change);
        }
    }
}

// A volume of so many blocks, with what was written.
fn volume(alloc: Global, blocks: usize, tables: &[Table]) -> Result<Vec<u8>, AllocError> {
    let mut image = zeros(alloc, blocks.saturating_mul(BLOCK))?;
    put_tables(image.as_mut_slice(), tables);
    Ok(image)
}

/// The volume of a name; no bytes where none has it.
pub fn volume_named(alloc: Global, name: &str) -> Result<Vec<u8>, AllocError> {
    for (known, blocks, tables) in VOLUMES {
        if *known == name {
            return volume(alloc, *blocks, tables);
        }
    }
    Ok(Vec::new(alloc))
}

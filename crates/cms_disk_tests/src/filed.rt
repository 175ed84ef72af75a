// Volumes made byte by byte from their layout, with blocks that are taken in order.
ghost use Rattle.std.specs.Prelude.{◌≡◌, ◌⊎◌};

use cms_cases::number;
use cms_images::known::{put, put_number};
use cms_images::{DIRECTORY, Entry, MAP, digits, put_entry, put_label, zeros};
use std::alloc::Global;
use std::process::Abort;

const SIZE: usize = 512;

const NOT_BEGUN: u32 = 0xFFFF_FFFF;

// A pointer: a block, the number of the last record that begins up to the end of what is below it, and the place of the first record that
// begins in the first data block below it.
#[derive(Clone, Copy)]
struct Cell {
    block: u32,
    last: u32,
    place: u32,
}

// A tree: its root, its data blocks, and its levels of pointer blocks.
#[derive(Clone, Copy)]
struct Tree {
    root: u32,
    blocks: u32,
    levels: u8,
}

// The fields of an entry that differ.
#[derive(Clone, Copy)]
struct Row {
    name: [u8; 16],
    is_wide: bool,
    length: u32,
    records: u32,
    tree: Tree,
}

// A volume, and the next block that is taken.
#[derive(Drop)]
struct Paper {
    alloc: Global,
    image: Vec<u8>,
    next: u32,
}

// A file: whether its records have any length, their stored bytes, where each begins in these, and the length of the longest.
#[derive(Drop)]
struct Filed {
    is_wide: bool,
    data: Vec<u8>,
    begins: Vec<u32>,
    longest: u32,
}

fn short(size: usize) -> u32 {
    u32::try_from(size).unwrap_or(u32::MAX)
}

// The bytes of a pointer.
fn pointer_size(is_wide: bool) -> usize
    ensures { (result ≡ 4) ⊎ (result ≡ 12) }
{
    if is_wide { 12 } else { 4 }
}

impl Filed {
    // Adds a record of this length, of the bytes 0, 1, 2 and so on.
    fn add<R: Abort>(&mut self, rt: &R, length: u32) {
        self.begins
            .push(short(self.data.len()))
            .expect(rt, "memory");
        if self.is_wide {
            let [_, _, high, low] = length.to_be_bytes();
            self.data
                .extend_from_slice(&[high, low])
                .expect(rt, "memory");
        }
        for nth in 0..length {
            self.data.push((nth % 251) as u8).expect(rt, "memory");
        }
        self.longest = self.longest.max(length);
    }

    // Adds the records of a length, which perhaps has with it how many have it, as `512*300`.
    fn add_part<R: Abort>(&mut self, rt: &R, part: &str) {
        let (length, times) = part.split_once('*').unwrap_or((part, "1"));
        let length = number(length);
        for _ in 0..number(times) {
            self.add(rt, length);
        }
    }

    // Of a data block how many records begin up to its end, and where the first begins that begins in it.
    fn mark(&self, nth: usize) -> (u32, u32) {
        let start = nth.saturating_mul(SIZE);
        let (mut last, mut place) = (0u32, NOT_BEGUN);
        for begin in self.begins.iter() {
            let begin = *begin as usize;
            if begin < start.saturating_add(SIZE) {
                last = last.saturating_add(1);
                if begin >= start && place == NOT_BEGUN {
                    place = short(begin % SIZE);
                }
            }
        }
        (last, place)
    }
}

// The file of a text: its format, and the lengths of its records, each perhaps with how many have it, as `F 512*300` or `V 509 3`.
fn read_file<R: Abort>(rt: &R, alloc: Global, text: &str) -> Filed {
    let mut words = text.split_ascii_whitespace();
    let mut file = Filed {
        is_wide: words.next().unwrap_or("") == "V",
        data: Vec::new(alloc),
        begins: Vec::new(alloc),
        longest: 0,
    };
    for part in words {
        file.add_part(rt, part);
    }
    file
}

impl Paper {
    fn take(&mut self) -> u32 {
        let block = self.next;
        self.next = block.saturating_add(1);
        block
    }

    // So many blocks, one after another, of which the first may be given.
    fn take_all<R: Abort>(&mut self, rt: &R, first: Option<u32>, count: u32) -> Vec<Cell> {
        let mut cells = Vec::new(self.alloc);
        for nth in 0..count {
            let block = match first {
                Some(block) if nth == 0 => block,
                _ => self.take(),
            };
            let cell = Cell {
                block,
                last: 0,
                place: 0,
            };
            cells.push(cell).expect(rt, "memory");
        }
        cells
    }

    // Puts a pointer block over some blocks, and gives the pointer to it.
    fn node(&mut self, group: &[Cell], size: usize) -> Cell {
        let block = self.take();
        let mut above = Cell {
            block,
            last: 0,
            place: NOT_BEGUN,
        };
        for (nth, cell) in group.iter().enumerate() {
            let at = nth.saturating_mul(size);
            put_number(self.image.as_mut_slice(), block as usize, at, cell.block);
            if size == 12 {
                let (last, place) = (at.saturating_add(4), at.saturating_add(8));
                put_number(self.image.as_mut_slice(), block as usize, last, cell.last);
                put_number(self.image.as_mut_slice(), block as usize, place, cell.place);
            }
            above.last = cell.last;
            if nth == 0 {
                above.place = cell.place;
            }
        }
        above
    }

    // Puts the pointer blocks over some blocks, and gives the pointers to them.
    fn level<R: Abort>(&mut self, rt: &R, below: &[Cell], size: usize) -> Vec<Cell>
        requires { (size ≡ 4) ⊎ (size ≡ 12) }
    {
        let mut above = Vec::new(self.alloc);
        for group in below.chunks(SIZE / size) {
            above.push(self.node(group, size)).expect(rt, "memory");
        }
        above
    }

    // Puts the pointer blocks over the data blocks of a tree, the lowest level first.
    fn hang<R: Abort>(&mut self, rt: &R, leaves: &[Cell], is_wide: bool) -> Tree {
        let size = pointer_size(is_wide);
        let mut below = leaves.to_vec(self.alloc).expect(rt, "memory");
        let mut levels = 0u8;
        for _ in 0..4 {
            if below.len() > 1 {
                below = self.level(rt, &below, size);
                levels = levels.saturating_add(1);
            }
        }
        let root = below.first().map_or(0, |cell| cell.block);
        Tree {
            root,
            blocks: short(leaves.len()),
            levels,
        }
    }

    // Puts the bytes of a file into data blocks, and the marks of these.
    fn put_bytes(&mut self, leaves: &mut [Cell], file: &Filed) {
        for (nth, cell) in leaves.iter_mut().enumerate() {
            let start = nth.saturating_mul(SIZE);
            let bytes = file.data.get(start..).unwrap_or(&[]);
            let piece = bytes.get(..SIZE).unwrap_or(bytes);
            put(self.image.as_mut_slice(), cell.block as usize, 0, piece);
            (cell.last, cell.place) = file.mark(nth);
        }
    }

    // Puts a file, and gives its entry.
    fn put_file<R: Abort>(&mut self, rt: &R, place: u32, file: &Filed) -> Row {
        let count = file.data.len().div_ceil(SIZE);
        let mut leaves = self.take_all(rt, None, short(count));
        self.put_bytes(leaves.as_mut_slice(), file);
        Row {
            name: name_of(place),
            is_wide: file.is_wide,
            length: file.longest,
            records: short(file.begins.len()),
            tree: self.hang(rt, &leaves, file.is_wide),
        }
    }

    // Puts an entry into the directory's data blocks by its number.
    fn put_row(&mut self, leaves: &[Cell], nth: usize, row: &Row) {
        let Some(cell) = leaves.get(nth / 8) else {
            return;
        };
        let start = (cell.block as usize).saturating_sub(1).saturating_mul(SIZE);
        let at = start.saturating_add(nth % 8 * 64);
        put_entry(self.image.as_mut_slice(), at, &entry_of(row));
    }

    // Puts files, as their texts say them.
    fn put_files<R: Abort>(&mut self, rt: &R, listing: &[Cell], files: &str) {
        let mut place = 0_u32;
        for text in files.split(',') {
            let file = read_file(rt, self.alloc, text);
            let row = self.put_file(rt, place, &file);
            place = place.saturating_add(1);
            self.put_row(listing, place.saturating_add(1) as usize, &row);
        }
    }

    // Puts all that a volume of so many blocks with these files has.
    fn put_all<R: Abort>(&mut self, rt: &R, blocks: u32, files: &str) {
        let count = short(files.split(',').count()).saturating_add(2);
        let map = self.take_all(rt, None, blocks.div_ceil(4096));
        let map_tree = self.hang(rt, &map, false);
        let listing = self.take_all(rt, Some(4), count.div_ceil(8));
        let listing_tree = self.hang(rt, &listing, false);
        self.put_row(&listing, 0, &own_row(DIRECTORY, 64, count, listing_tree));
        self.put_row(&listing, 1, &own_row(MAP, 512, map_tree.blocks, map_tree));
        self.put_files(rt, &listing, files);
        self.put_marks(&map);
        self.put_label(blocks);
    }

    // Marks the blocks that were taken, from block 6 on, and the first five.
    fn put_marks(&mut self, leaves: &[Cell]) {
        for place in 0..self.next.saturating_sub(1) {
            let Some(cell) = leaves.get((place / 4096) as usize) else {
                return;
            };
            let start = (cell.block as usize).saturating_sub(1).saturating_mul(SIZE);
            let at = start.saturating_add((place % 4096 / 8) as usize);
            if let Some(byte) = self.image.get_mut(at) {
                *byte |= 0x80 >> (place % 8);
            }
        }
    }

    fn put_label(&mut self, blocks: u32) {
        let in_use = self.next.saturating_sub(1);
        put_label(
            self.image.as_mut_slice(),
            2 * SIZE,
            &[512, 4, 0, 0, blocks, in_use, 64],
        );
    }
}

// F0000 FILE, by the file's place.
fn name_of(place: u32) -> [u8; 16] {
    let [thousands, hundreds, tens, ones] = digits(place);
    [
        0xC6, thousands, hundreds, tens, ones, 0x40, 0x40, 0x40, 0xC6, 0xC9, 0xD3, 0xC5, 0x40,
        0x40, 0x40, 0x40,
    ]
}

// The entry of a row, of the first second of 2000.
fn entry_of(row: &Row) -> Entry {
    let (format, size) = if row.is_wide { (0xE5, 12) } else { (0xC6, 4) };
    Entry {
        name: row.name,
        format: [format, 0x08],
        length: row.length,
        root: row.tree.root,
        blocks: row.tree.blocks,
        records: row.records,
        levels: [row.tree.levels, size],
        stamp: [0x00, 0x01, 0x01, 0x00, 0x00, 0x00],
    }
}

// The entries of the directory and of the map.
fn own_row(name: [u8; 16], length: u32, records: u32, tree: Tree) -> Row {
    Row {
        name,
        is_wide: false,
        length,
        records,
        tree,
    }
}

/// TEST01 on so many blocks of 512 bytes with these files, as `F 512*300, V 509 3`. Blocks are taken in order: block 4, and from block 6 on
/// those of the map, of the directory and of each file, of each the data blocks and then the pointer blocks, lowest level first.
pub fn volume_of<R: Abort>(rt: &R, alloc: Global, blocks: u32, files: &str) -> Vec<u8> {
    let size = (blocks as usize).saturating_mul(SIZE);
    let mut paper = Paper {
        alloc,
        image: zeros(alloc, size).expect(rt, "memory"),
        next: 6,
    };
    paper.put_all(rt, blocks, files);
    paper.image
}

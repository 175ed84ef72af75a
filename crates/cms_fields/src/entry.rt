// An entry of a directory.
ghost use Rattle.std.specs.Prelude.{◌≡◌, ℕ, ◌-◌, ◌≤◌, length, true, Ok};
ghost use Rattle.cms_text.specs.Bytes.{byte};
ghost use Rattle.cms_fields.specs.Stamps.{is_stamp};
ghost use Rattle.cms_fields.specs.Entries.{name_at, format_at, entry_of, entry_fields, entry_bytes, passes};

use crate::grammar::{
    counts_fit, format_byte, format_in, has_pointer_size, length_fits, levels_fit, mode_number_in,
    name_in, pointer_size,
};
use crate::packed::{has_stamp, packed_stamp, stamp_at, stamp_flags};
use crate::time::Stamp;
use cms_journal::BlockSize;
use cms_names::{Format, Name};
use cms_text::ZERO;
use cms_text::bytes::{put, put_word, word_at};

/// What an entry says of its file, by VM/SP's published description of the file status table; its
/// layout is this product's own.
#[derive(Clone, Copy, PartialEq, Eq)]
pub struct Entry {
    pub name: Name,
    /// the mode number, 0 to 6
    pub number: u8,
    pub format: Format,
    /// the length of each record at F, 1 to 65,535; at V it says nothing when it is read
    pub length: u32,
    /// the block at the tree's root
    pub root: u32,
    /// data blocks
    pub blocks: u32,
    /// records, 1 to 1,048,576
    pub count: u32,
    /// levels of pointer blocks
    pub levels: u8,
    pub stamp: Stamp,
}

/// The first test that an entry fails, in this order.
#[derive(Clone, Copy, Debug)]
pub enum EntryFault {
    /// a part of its name isn't 1 to 8 name characters and then blanks
    Name,
    /// its mode number isn't 0 to 6
    Mode,
    /// its format is neither F nor V
    Format,
    /// at F its records' length isn't 1 to 65,535
    Length,
    /// it doesn't have 1 to 1,048,576 records; at F the records have more than 67,108,864 bytes or
    /// don't fill the data blocks; at V there are no data blocks, or more than hold so many bytes
    Counts,
    /// its levels aren't those of a tree over its data blocks
    Levels,
    /// with pointer blocks, its pointers don't have the size of its format's
    PointerSize,
    /// its date and time don't exist
    Date,
}

/// The letter of the mode that is written.
const LETTER_A: u8 = 0xC1;

/// Where the flags stand, which tell the date's century.
const FLAGS: usize = 31;

/// Where the date stands.
const DATE: usize = 54;

/// The entry that the first 64 bytes spell on a volume with blocks of this size. Bytes in which no field stands, the mode's
/// letter, all flags but the century's and the length of V records in a file aren't tested.
#[tactic(auto, unfolding(crate::specs::Entries::entry_of, crate::specs::Entries::entry_fields))]
pub fn read_entry(bytes: &[u8], bsize: BlockSize) -> Result<Entry, EntryFault>
    requires long { 64 ≤ length bytes.now }
    ensures { result ≡ entry_of bsize bytes.now }
{
    let Some(name) = name_in(bytes) else {
        return Err(EntryFault::Name);
    };
    let Some(number) = mode_number_in(bytes) else {
        return Err(EntryFault::Mode);
    };
    let Some(format) = format_in(bytes) else {
        return Err(EntryFault::Format);
    };
    let entry = fields_in(bytes, name, number, format);
    if !length_fits(&entry) {
        return Err(EntryFault::Length);
    }
    if !counts_fit(bsize, &entry) {
        return Err(EntryFault::Counts);
    }
    if !levels_fit(bsize, &entry) {
        return Err(EntryFault::Levels);
    }
    if !has_pointer_size(bytes, format) {
        return Err(EntryFault::PointerSize);
    }
    if !has_stamp(bytes, DATE, bytes[FLAGS]) {
        return Err(EntryFault::Date);
    }
    Ok(entry)
}

// What the bytes say, with the fields that were read before.
#[tactic(auto, unfolding(crate::specs::Entries::entry_fields))]
fn fields_in(bytes: &[u8], name: Name, number: u8, format: Format) -> Entry
    requires { 64 ≤ length bytes.now }
    ensures { name ≡ name_at bytes.now → number ≡ byte bytes.now 25 - 0xF0
        → format ≡ format_at bytes.now
        → result ≡ entry_fields bytes.now }
{
    Entry {
        name,
        number,
        format,
        length: word_at(bytes, 32),
        root: word_at(bytes, 40),
        blocks: word_at(bytes, 44),
        count: word_at(bytes, 48),
        levels: bytes[52],
        stamp: stamp_at(bytes, DATE, bytes[FLAGS]),
    }
}

/// Writes the 64 bytes of an entry: its fields, the mode's letter as A, no flag but the century's, and
/// zeros where no field stands. On a volume with blocks of a size at which the entry's fields pass, they spell
/// this entry.
pub fn write_entry(entry: &Entry, into: &mut [u8])
    requires long { length into.old ≡ 64 }
    requires number { entry.now.number ≤ 6 }
    requires stamp { is_stamp entry.now.stamp ≡ true }
    ensures written { into.new ≡ entry_bytes entry.now }
    ensures spells { (bsize : ℕ) → passes bsize entry.now ≡ true
        → entry_of bsize into.new ≡ Ok entry.now }
{
    into.fill(0);
    put(into, 0, entry.name.file.padded());
    put(into, 8, entry.name.kind.padded());
    put(into, 24, &[LETTER_A, ZERO + entry.number]);
    put(into, 30, &[format_byte(entry.format)]);
    put(into, FLAGS, &[stamp_flags(&entry.stamp)]);
    put_word(into, 32, entry.length);
    put_word(into, 40, entry.root);
    put_word(into, 44, entry.blocks);
    put_word(into, 48, entry.count);
    put(into, 52, &[entry.levels]);
    put(into, 53, &[pointer_size(entry.format)]);
    put(into, DATE, &packed_stamp(&entry.stamp));
}

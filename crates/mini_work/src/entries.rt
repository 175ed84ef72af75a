// The entries of a directory, and bytes, as they are shown.
ghost use Rattle.std.specs.Prelude.{◌≤◌, length};

use crate::output::name_word;
use cms_ebcdic::to_host;
use cms_fields::{Entry, EntryFault, Stamp, read_entry};
use cms_journal::BlockSize;
use cms_names::Format;
use cms_text::bytes::word_at;
use std::alloc::{AllocError, Global};

/// The first entries of a directory: its own and the map's.
pub(crate) const SYSTEM_ENTRIES: usize = 2;

/// The most entries of a directory.
pub(crate) const MOST_ENTRIES: usize = 16_386;

// The bytes of a line.
const LINE_BYTES: usize = 16;

/// What an entry says, or the first test that it fails and its fields as they stand.
pub(crate) fn entry_text(
    alloc: Global,
    size: BlockSize,
    place: usize,
    bytes: &[u8],
) -> Result<String, AllocError>
    requires { 64 ≤ length bytes.now }
{
    if place < SYSTEM_ENTRIES {
        return system_line(alloc, place, bytes);
    }
    match read_entry(bytes, size) {
        Ok(entry) => entry_line(alloc, place, &entry),
        Err(why) => wrong_lines(alloc, place, why, bytes),
    }
}

// The fields of the directory's own entry, or of the map's.
fn system_line(alloc: Global, place: usize, bytes: &[u8]) -> Result<String, AllocError>
    requires { 64 ≤ length bytes.now }
{
    let what = if place == 0 {
        "the directory"
    } else {
        "the map"
    };
    let mut line = format!(in alloc; "entry {place}: {what}")?;
    push_fields(&mut line, bytes)?;
    Ok(line)
}

// The first test that an entry fails, its fields, and its bytes.
fn wrong_lines(
    alloc: Global,
    place: usize,
    why: EntryFault,
    bytes: &[u8],
) -> Result<String, AllocError>
    requires { 64 ≤ length bytes.now }
{
    let test = entry_test(why);
    let mut text = format!(in alloc; "entry {place}: {test} is wrong: ")?;
    push_entry(&mut text, bytes)?;
    Ok(text)
}

// The fields of an entry as they stand, and its bytes.
fn push_entry(text: &mut String, bytes: &[u8]) -> Result<(), AllocError>
    requires { 64 ≤ length bytes.now }
{
    push_codes(text, &bytes[..8])?;
    text.push('.')?;
    push_codes(text, &bytes[8..16])?;
    text.push_str(" mode number ")?;
    push_codes(text, &bytes[25..26])?;
    push_fields(text, bytes)?;
    push_bytes(text, bytes)
}

// The fields of an entry behind its name and number.
fn push_fields(line: &mut String, bytes: &[u8]) -> Result<(), AllocError>
    requires { 64 ≤ length bytes.now }
{
    let (format, levels) = (char::from(to_host(bytes[30])), bytes[52]);
    let (length, records) = (word_at(bytes, 32), word_at(bytes, 48));
    let (blocks, root) = (word_at(bytes, 44), word_at(bytes, 40));
    write!(
        line,
        ", format {format}, record length {length}, records {records}"
    )?;
    writeln!(line, ", data blocks {blocks}, levels {levels}, root {root}")
}

fn entry_test(why: EntryFault) -> &'static str {
    match why {
        EntryFault::Name => "the name",
        EntryFault::Mode => "the mode number",
        EntryFault::Format => "the format",
        EntryFault::Length => "the record length",
        EntryFault::Counts => "the count of records or of data blocks",
        EntryFault::Levels => "the count of levels",
        EntryFault::PointerSize => "the size of pointers",
        EntryFault::Date => "the date",
    }
}

/// An entry's fields.
pub(crate) fn entry_line(alloc: Global, place: usize, entry: &Entry) -> Result<String, AllocError> {
    let mut line = name_line(alloc, place, entry)?;
    push_facts(&mut line, entry)?;
    Ok(line)
}

// The name of an entry and its mode number, behind its own number.
fn name_line(alloc: Global, place: usize, entry: &Entry) -> Result<String, AllocError> {
    let name = name_word(alloc, &entry.name)?;
    format!(in alloc; "entry {place}: {name} mode number {}", entry.number)
}

// The fields of an entry behind its mode number.
fn push_facts(line: &mut String, entry: &Entry) -> Result<(), AllocError> {
    let format = match entry.format {
        Format::F => "F",
        Format::V => "V",
    };
    write!(line, ", format {format}, record length {}", entry.length)?;
    write!(
        line,
        ", records {}, data blocks {}",
        entry.count, entry.blocks
    )?;
    write!(line, ", levels {}, root {}", entry.levels, entry.root)?;
    push_stamp(line, &entry.stamp)
}

// A date and its time, and the line's end.
fn push_stamp(line: &mut String, stamp: &Stamp) -> Result<(), AllocError> {
    write!(
        line,
        ", {:04}-{:02}-{:02}",
        stamp.year, stamp.month, stamp.day
    )?;
    writeln!(
        line,
        " {:02}:{:02}:{:02}",
        stamp.hour, stamp.minute, stamp.second
    )
}

/// Adds bytes in hexadecimal digits beside their characters, each line with its offset.
pub(crate) fn push_bytes(text: &mut String, bytes: &[u8]) -> Result<(), AllocError> {
    for (place, line) in bytes.chunks(LINE_BYTES).enumerate() {
        write!(text, "{place:03x}0 ")?;
        for byte in line {
            write!(text, " {byte:02x}")?;
        }
        text.push_str("  ")?;
        push_codes(text, line)?;
        text.push('\n')?;
    }
    Ok(())
}

/// Adds codes as characters of the host.
pub(crate) fn push_codes(text: &mut String, codes: &[u8]) -> Result<(), AllocError> {
    for code in codes {
        text.push(char::from(to_host(*code)))?;
    }
    Ok(())
}

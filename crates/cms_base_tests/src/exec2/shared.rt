// Words and procedures for the tests.
ghost use Rattle.std.specs.Prelude.{◌≤◌, length};
ghost use Rattle.cms_fields.specs.Limits.{most_bytes};
ghost use Rattle.cms_model.specs.Records.{IsValid};

use crate::texts::letters;
use cms_cases::Report;
use cms_fields::Stamp;
use cms_model::{FileData, Stored};
use cms_names::Format;
use cms_text::Word;
use exec2_parse::{ProcFault, Procedure, read_procedure};
use std::alloc::Global;
use std::process::Abort;

/// Adds a word between apostrophes, or how many bytes it has, if these are many.
pub fn push_quoted(into: &mut Report, word: &Word) {
    let bytes = word.bytes();
    if bytes.len() > 99 {
        into.value(&bytes.len());
        return into.push_str(" bytes");
    }
    into.push('\'');
    into.ascii(bytes);
    into.push('\'')
}

/// The first of January 1900.
pub const STAMP: Stamp = Stamp {
    year: 1900,
    month: 1,
    day: 1,
    hour: 0,
    minute: 0,
    second: 0,
};

// How often a line stands there, and the line.
fn copies(line: &str) -> (u32, &str) {
    let behind = line.strip_prefix('@').unwrap_or("");
    match behind.split_once(' ') {
        Some((count, text)) => (count.parse().unwrap_or(0), text),
        None => (1, line),
    }
}

// Adds a card so often.
fn push_copies<R: Abort>(bytes: &mut Vec<u8>, rt: &R, card: &[u8], count: u32) {
    for _ in 0..count {
        bytes.extend_from_slice(card).expect(rt, "memory");
    }
}

// Adds a line, as often as it stands there, with blanks behind it up to a size.
fn push_cards<R: Abort>(bytes: &mut Vec<u8>, rt: &R, alloc: Global, size: u16, line: &str) {
    let (count, text) = copies(line);
    let mut card = letters(rt, alloc, text);
    card.resize(usize::from(size), 0x40).expect(rt, "memory");
    push_copies(bytes, rt, &card, count)
}

// The lines between semicolons, each with blanks behind it up to a size.
fn filled<R: Abort>(rt: &R, alloc: Global, size: u16, lines: &str) -> Vec<u8> {
    let mut bytes = Vec::new(alloc);
    for line in lines.split(';') {
        push_cards(&mut bytes, rt, alloc, size, line);
    }
    bytes
}

// A file of records of one length, which has to be one that there may be.
fn cards<R: Abort>(rt: &R, alloc: Global, size: u16, lines: &str) -> FileData
    ensures valid { IsValid result }
    ensures stored { length result.bytes ≤ most_bytes }
{
    assert!(rt; size >= 1 && size <= 300, "no such record");
    let bytes = filled(rt, alloc, size, lines);
    let count = bytes.len() / usize::from(size);
    assert!(rt; count >= 1 && count <= 5000, "too many records");
    assert!(rt; bytes.len() == count * usize::from(size), "half a record");
    FileData {
        format: Format::F,
        length: u32::from(size),
        number: 1,
        stamp: STAMP,
        count: count as u32,
        bytes: Stored::take(bytes),
    }
}

/// What is read of a file of the lines between semicolons, in records of one length, filled with blanks. `@N text` is N lines of that
/// text, and `%N` a line of N letters X.
pub fn procedure_of<R: Abort>(
    rt: &R,
    alloc: Global,
    size: u16,
    lines: &str,
) -> Result<Procedure, ProcFault> {
    read_procedure(alloc, &cards(rt, alloc, size, lines))
}

// What cases say, and what is made of it: where there is no memory, or it can't be made, the test ends.
use cms_cases::{bytes_of, number, word};
use cms_names::{Name, Part};
use cms_text::{LONGEST_TEXT, Word, ebcdic};
use std::alloc::Global;
use std::process::Abort;

/// The word of a case at a place, from 0, where blanks stand between the words. Empty where there is none.
pub fn blank_word(case: &str, place: usize) -> &str {
    case.split(' ').nth(place).unwrap_or("")
}

/// The number that such a word is.
pub fn blank_number(case: &str, place: usize) -> u32 {
    number(blank_word(case, place))
}

/// The number that a word is where strokes stand between the words.
pub fn number_at(case: &str, place: usize) -> u32 {
    number(word(case, place))
}

/// Whether bytes are all the same one.
pub fn are_all(bytes: &[u8], wanted: u8) -> bool {
    for byte in bytes {
        if *byte != wanted {
            return false;
        }
    }
    true
}

/// The bytes that a text says.
pub fn bytes<R: Abort>(rt: &R, alloc: Global, text: &str) -> Vec<u8> {
    bytes_of(alloc, text).expect(rt, "bytes")
}

/// A text in EBCDIC.
pub fn coded<R: Abort>(rt: &R, alloc: Global, text: &str) -> Vec<u8> {
    ebcdic(alloc, text).expect(rt, "memory")
}

/// A text in EBCDIC; behind a percent sign stands how many letters X it is.
pub fn letters<R: Abort>(rt: &R, alloc: Global, text: &str) -> Vec<u8> {
    match text.strip_prefix('%') {
        Some(count) => vec![in alloc; 0xE7; count.parse().unwrap_or(0)].expect(rt, "memory"),
        None => coded(rt, alloc, text),
    }
}

/// A word or a line of such a text, which may not be too long.
pub fn short<R: Abort>(rt: &R, alloc: Global, text: &str) -> Word {
    let bytes = letters(rt, alloc, text);
    assert!(rt; bytes.len() <= LONGEST_TEXT, "a word is too long");
    Word::take(bytes)
}

// A name or a type.
fn part<R: Abort>(rt: &R, text: &[u8]) -> Part {
    Part::read(text).expect(rt, "a part")
}

/// The name of a file.
pub fn file_name<R: Abort>(rt: &R, file: &[u8], kind: &[u8]) -> Name {
    Name {
        file: part(rt, file),
        kind: part(rt, kind),
    }
}

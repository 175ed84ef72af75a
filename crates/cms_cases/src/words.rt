// What cases say.
use crate::report::Report;
use std::alloc::{AllocError, Global};

/// The word of a case at a place, from 0; strokes stand between the words. Empty where there is none.
pub fn word(case: &str, place: usize) -> &str {
    case.split('/').nth(place).unwrap_or("")
}

/// The number that a text is, 0 where it is left out. Any other text is the greatest number, with which no case comes to its answer.
pub fn number(text: &str) -> u32 {
    match text {
        "" => 0,
        _ => text.parse().unwrap_or(u32::MAX),
    }
}

/// The byte that two hexadecimal digits say, if they are such.
pub fn byte(digits: &str) -> Option<u8> {
    u8::from_str_radix(digits, 16).ok()
}

/// The bytes that a text says, each by two hexadecimal digits and a blank behind it, if any; nothing where it says something else.
pub fn bytes_of(alloc: Global, text: &str) -> Result<Vec<u8>, AllocError> {
    let mut bytes = Vec::new(alloc);
    for digits in text.split_ascii_whitespace() {
        let Some(byte) = byte(digits) else {
            return Err(AllocError);
        };
        bytes.push(byte)?;
    }
    Ok(bytes)
}

// What stands in braces in front of the rest: a piece, and behind a star how often.
fn repeated(part: &str) -> Option<(&str, usize, &str)> {
    let (inner, rest) = part.split_once('}')?;
    let (piece, count) = inner.rsplit_once('*')?;
    match count.parse() {
        Ok(count) => Some((piece, count, rest)),
        Err(_) => None,
    }
}

// Adds what stands behind a brace: a piece so often, or the brace and what it is.
fn push_part(into: &mut Report, part: &str) {
    let Some((piece, count, rest)) = repeated(part) else {
        into.push_str("{");
        return into.push_str(part);
    };
    for _ in 0..count {
        into.push_str(piece);
    }
    into.push_str(rest)
}

/// A text in which a piece in braces, with a star and a number behind it, stands that many times. Other braces stand as they are.
pub fn written_out(alloc: Global, text: &str) -> Report {
    let mut parts = text.split('{');
    let mut whole = Report::new(alloc);
    whole.push_str(parts.next().unwrap_or(""));
    for part in parts {
        push_part(&mut whole, part);
    }
    whole
}

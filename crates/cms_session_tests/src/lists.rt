// Lists of extensions.
use cms_cases::Report;
use cms_ext::{ExtList, Extension, PushExt, Tally};
use cms_names::Part;
use cms_text::coded;
use std::alloc::{AllocError, Global};
use std::process::Abort;

/// Steps on a list: a capital letter hands a Tally in under it, its small letter asks for the place, and a digit drops what stands there.
/// What comes of the steps, and the words at last.
pub const ROWS: &str = "\
ABabc => ..01- AB
ABCA1acA0c => ...!.01!.0 C
aA => -. A";

// What comes of handing an object in.
fn pushed(came: &Result<(), PushExt>) -> char {
    match came {
        Ok(()) => '.',
        Err(PushExt::Twice(_)) => '!',
        Err(PushExt::Memory(_)) => '?',
    }
}

// The word of a letter.
fn word_of(letter: u8) -> Option<Part> {
    Part::read(&coded(&[letter.to_ascii_uppercase()])).ok()
}

// Asks for the place of a word, below 10.
fn find(list: &ExtList, word: &Part) -> char {
    match list.find(word) {
        Some(place) => char::from(b'0' + (place % 10) as u8),
        None => '-',
    }
}

// Drops what stands in a place, where there is one.
fn drop_at(list: &mut ExtList, place: u32) -> char {
    if (place as usize) < list.len() {
        list.drop_at(place);
        '.'
    } else {
        '-'
    }
}

// Adds the words in their order.
fn push_words(into: &mut Report, list: &ExtList) {
    for place in 0..list.len() as u32 {
        into.ascii(list.word(place).as_bytes());
    }
}

// Hands a Tally in under a word.
fn hand_in(alloc: Global, list: &mut ExtList, word: Part) -> Result<char, AllocError> {
    let tally: Box<dyn Extension> = Box::new(alloc, Tally::new())?;
    Ok(pushed(&list.push(word, tally)))
}

/// Tells what comes of steps.
pub fn tell<R: Abort>(into: &mut Report, rt: &R, alloc: Global, case: &str) {
    let mut list = ExtList::new(alloc);
    for byte in case.as_bytes() {
        into.push(match word_of(*byte) {
            Some(word) if byte.is_ascii_uppercase() => {
                hand_in(alloc, &mut list, word).expect(rt, "memory")
            }
            Some(word) if byte.is_ascii_lowercase() => find(&list, &word),
            _ => drop_at(&mut list, u32::from(byte.saturating_sub(b'0'))),
        });
    }
    into.push(' ');
    push_words(into, &list)
}

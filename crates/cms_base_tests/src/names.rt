// Words and what they spell, as the manuals' examples and the product's own rules have them.
use crate::texts::{coded, file_name};
use cms_cases::{Report, byte, word};
use cms_names::{ModeWord, Name, NameFault, OutId, Part, Pattern, equal_signs, is_name_character};
use cms_text::without_trailing_blanks;
use std::alloc::Global;
use std::process::Abort;

/// `part/WORD`: what the word is as a part. `filled/WORD`: the field that it fills. `same/WORD/WORD`: whether they are the same part.
/// `character/CODE`: whether the code is that of a name character. `pattern/PATTERN/PART`: whether the pattern fits the part.
/// `mode/WORD`: what the word is as a mode. `output/WORD/WORD`: the name that they make of the name A B.
pub const ROWS: &str = "\
part/A => A
part/$_0 => $_0
part/ABABABAB => ABABABAB
part/ => Empty
part/********* => TooLong
part/* => BadChar(0)
part/Aa  => BadChar(1)
part/ABABABA= => BadChar(7)
filled/AB => [193, 194, 64, 64, 64, 64, 64, 64]
same/AB/AB => true
character/5B => true
character/7B => true
character/7C => true
character/4E => true
character/60 => true
character/7A => true
character/6D => true
character/C1 => true
character/D9 => true
character/E2 => true
character/F9 => true
character/00 => false
character/40 => false
character/5C => false
character/6C => false
character/7E => false
character/81 => false
character/C0 => false
character/CA => false
character/E1 => false
character/FA => false
pattern/A%*/A => Ok(false)
pattern/A%*/AB => Ok(true)
pattern/A%*/ABXZ => Ok(true)
pattern/A%*/BB => Ok(false)
pattern/*A*B/AB => Ok(true)
pattern/*A*B/XAAXBB => Ok(true)
pattern/*A*B/BA => Ok(false)
pattern/*A*B/ABA => Ok(false)
pattern/%/Z => Ok(true)
pattern/%/ZZ => Ok(false)
pattern/*/ABABABAB => Ok(true)
pattern/****/A => Ok(true)
pattern/A*/A => Ok(true)
pattern/AB/AB => Ok(true)
pattern/AB/A => Ok(false)
pattern/A/AB => Ok(false)
pattern/%%*/A => Ok(false)
pattern//A => Err(Empty)
pattern/%%%%%%%%%/A => Err(TooLong)
pattern/*=/A => Err(BadChar(1))
pattern/a/A => Err(BadChar(0))
mode/* => Some(Any)
mode/= => Some(Same)
mode/A => Some(Letter(0))
mode/J => Some(Letter(9))
mode/S => Some(Letter(18))
mode/Z => Some(Letter(25))
mode/B0 => Some(Numbered(1, 0))
mode/Z6 => Some(Numbered(25, 6))
mode/A7 => None
mode/ => None
mode/*0 => None
mode/a => None
mode/A00 => None
output/=/= => A       B
output/=/A => A       A
output/B/= => B       B
output/B/A => B       A
output//* => Empty
output/A/A* => BadChar(1)
output/==/ => BadChar(0)";

// What a word is as a part.
fn tell_part(into: &mut Report, text: &[u8]) {
    match Part::read(text) {
        Ok(part) => into.ascii(part.as_bytes()),
        Err(fault) => into.value(&fault),
    }
}

// The field that a part fills.
fn tell_filled(into: &mut Report, text: &[u8]) {
    match Part::read(text) {
        Ok(part) => into.value(part.padded()),
        Err(fault) => into.value(&fault),
    }
}

// Whether a pattern fits a part.
fn fits(pattern: &[u8], text: &[u8]) -> Result<bool, NameFault> {
    let pattern = Pattern::read(pattern)?;
    let part = Part::read(text)?;
    Ok(pattern.fits(&part))
}

// The parts of a name, each filled with blanks.
fn parts(name: &Name) -> [u8; 16] {
    let mut parts = [0; 16];
    parts[..8].copy_from_slice(name.file.padded());
    parts[8..].copy_from_slice(name.kind.padded());
    parts
}

// The name that an output makes of the name A B, as it is written.
fn tell_made(into: &mut Report, from: &Name, to: &OutId) {
    let parts = parts(&equal_signs(from, to));
    into.ascii(without_trailing_blanks(&parts))
}

// The same of two words.
fn tell_output(into: &mut Report, from: &Name, first: &[u8], second: &[u8]) {
    match OutId::read(first, second) {
        Ok(to) => tell_made(into, from, &to),
        Err(fault) => into.value(&fault),
    }
}

// Whether two words are the same part.
fn tell_same(into: &mut Report, first: &[u8], second: &[u8]) {
    into.value(&(Part::read(first) == Part::read(second)))
}

// What one word is.
fn tell_word(into: &mut Report, what: &str, text: &[u8]) {
    match what {
        "part" => tell_part(into, text),
        "filled" => tell_filled(into, text),
        "mode" => into.value(&ModeWord::read(text)),
        _ => into.value(&what),
    }
}

fn tell_words<R: Abort>(into: &mut Report, rt: &R, what: &str, first: &[u8], second: &[u8]) {
    match what {
        "same" => tell_same(into, first, second),
        "pattern" => into.value(&fits(first, second)),
        "output" => tell_output(into, &file_name(rt, &[0xC1], &[0xC2]), first, second),
        _ => tell_word(into, what, first),
    }
}

fn tell_character(into: &mut Report, code: &str) {
    match byte(code) {
        Some(code) => into.value(&is_name_character(code)),
        None => into.push_str("no code"),
    }
}

/// Tells what a case comes to.
pub fn tell<R: Abort>(into: &mut Report, rt: &R, alloc: Global, case: &str) {
    match word(case, 0) {
        "character" => tell_character(into, word(case, 1)),
        what => tell_words(
            into,
            rt,
            what,
            &coded(rt, alloc, word(case, 1)),
            &coded(rt, alloc, word(case, 2)),
        ),
    }
}

// What functions make of the bytes of a text.
ghost use Rattle.std.specs.Prelude.{◌≡◌, ◌+◌, ◌≤◌, length, position, take, ◌==◌, Ok};
ghost use Rattle.exec2_funcs.specs.Calls.{Answers};
ghost use Rattle.exec2_funcs.specs.Values as spec;
ghost use Rattle.cms_text.specs.Limits.{longest_text};

use crate::FuncFault;
use cms_text::{BLANK, Word};
use std::alloc::Global;

/// The first bytes of a text, filled with blanks on the right.
pub fn first_filled(alloc: Global, text: &[u8], count: usize) -> Result<Word, FuncFault>
    requires { count ≤ longest_text }
    ensures { Answers (Ok (spec.first_filled count text.now)) result }
{
    let mut bytes = text.to_vec(alloc)?;
    bytes.resize(count, BLANK)?;
    Ok(Word::take(bytes))
}

/// The last bytes of a text, filled with blanks on the left.
pub fn last_filled(alloc: Global, text: &[u8], count: usize) -> Result<Word, FuncFault>
    requires { count ≤ longest_text }
    ensures { Answers (Ok (spec.last_filled count text.now)) result }
{
    let kept = count.min(text.len());
    let mut bytes = vec![in alloc; BLANK; count - kept]?;
    bytes.extend_from_slice(&text[text.len() - kept..])?;
    Ok(Word::take(bytes))
}

/// The first place, from 1, at which a text goes on with the part, or 0.
pub fn location(part: &[u8], text: &[u8]) -> usize
    ensures place { result ≡ spec.location_of part.now text.now }
    ensures within { result ≤ length text.now + 1 }
{
    let mut rest = text;
    let mut place = 1;
    while !rest.starts_with(part) {
        let [_, more @ ..] = rest else {
            return 0;
        };
        rest = more;
        place += 1;
    }
    place
}

/// A text from a place on, which counts from 1.
pub fn from_place(text: &[u8], place: usize) -> &[u8]
    ensures { result.now ≡ spec.from_place place text.now }
{
    let before = place.saturating_sub(1).min(text.len());
    &text[before..]
}

/// The first bytes of a text, or all where there aren't so many.
pub fn first_bytes(text: &[u8], count: usize) -> &[u8]
    ensures { result.now ≡ take count text.now }
{
    &text[..count.min(text.len())]
}

/// A text of at most 255 bytes, in which each byte of `from` gives way to the byte of `out` at its first place in `from`, or
/// to a blank where `out` is too short.
pub fn translated(alloc: Global, text: &[u8], out: &[u8], from: &[u8]) -> Result<Word, FuncFault>
    requires { length text.now ≤ longest_text }
    ensures { Answers (Ok (spec.translated text.now out.now from.now)) result }
{
    let bytes: Vec<u8> = text
        .iter()
        .map(|byte| translation(*byte, out, from))
        .collect(alloc)?;
    Ok(Word::take(bytes))
}

fn translation(byte: u8, out: &[u8], from: &[u8]) -> u8
    ensures { result ≡ spec.translation out.now from.now byte }
{
    match place_of(byte, from) {
        Some(place) => out.get(place).copied().unwrap_or(BLANK),
        None => byte,
    }
}

fn place_of(byte: u8, text: &[u8]) -> Option<usize>
    ensures { result ≡ position (λ other. other == byte) text.now }
{
    text.iter().position(|other| *other == byte)
}

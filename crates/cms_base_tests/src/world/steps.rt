// What the steps of a world's sessions say.
use crate::texts::{are_all, blank_word};
use cms_cases::{Report, number};
use cms_world::Access;

/// The unit that the second word of a step is; no unit where it is none.
pub fn unit_of(step: &str) -> u8 {
    blank_word(step, 1).parse().unwrap_or(u8::MAX)
}

/// The access that a word says: `ro`, `rw`, or behind an `n` how many blocks are made.
pub fn access(word: &str) -> Access {
    match word.strip_prefix('n') {
        Some(count) => Access::New(number(count)),
        None if word == "ro" => Access::ReadOnly,
        None => Access::ReadWrite,
    }
}

/// Adds a period where something was done, and a hyphen where not.
pub fn push_done(into: &mut Report, done: bool) {
    into.push(if done { '.' } else { '-' })
}

/// Adds a step and what it comes to.
pub fn push_other(into: &mut Report, what: &str, found: &str) {
    into.push_str(what);
    into.push_str(" = ");
    into.push_str(found)
}

/// Adds bytes as the text that they are.
pub fn push_bytes(into: &mut Report, bytes: &[u8]) {
    into.push_str(str::from_utf8(bytes).unwrap_or("?"))
}

/// The byte that fills a block of 512 bytes, if one does.
pub fn filling(block: &[u8]) -> Option<u8> {
    let first = *block.first()?;
    if block.len() == 512 && are_all(block, first) {
        return Some(first);
    }
    None
}

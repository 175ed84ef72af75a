// Copies as they are shown.
ghost use Rattle.std.specs.Prelude.{◌≡◌, IfOk};
ghost use Rattle.cms_copyfile.specs.Shown as spec;

use cms_files::file_text;
use cms_line::{Token, Word};
use cms_names::Name;
use cms_operands::{WriteMode, coded};
use cms_search::letter_word;
use std::alloc::{AllocError, Global};

/// A file of the disk of a letter, A is 0, as it is shown.
#[derive(Clone, Copy)]
pub struct FileShown {
    pub letter: u8,
    pub name: Name,
    pub number: u8,
}

/// A file, and the file to which it is copied.
pub fn copy_text(alloc: Global, from: &FileShown, to: &FileShown) -> Result<Vec<u8>, AllocError>
    ensures { IfOk result (λ text. text.items ≡ spec.copy_text from.now to.now) }
{
    let mut text = file_text(alloc, from.letter, &from.name, from.number)?;
    text.extend_from_slice(&coded(b" TO "))?;
    text.extend_from_slice(&file_text(alloc, to.letter, &to.name, to.number)?)?;
    Ok(text)
}

/// The output's mode as the line has it; `=` is shown as the letter of the disk.
pub fn mode_shown(
    alloc: Global,
    words: &[Token],
    mode: Option<WriteMode>,
    letter: u8,
) -> Result<Word, AllocError>
    ensures { IfOk result (λ word. word ≡ spec.mode_shown words.now mode letter) }
{
    if mode.is_none() {
        return letter_word(alloc, letter);
    }
    match words.get(6) {
        Some(word) => Word::of(alloc, word.text.bytes()),
        None => Word::of(alloc, &[]),
    }
}

// Words joined to a text.
ghost use Rattle.std.specs.Prelude.{◌≡◌, ◌+◌, ◌<◌, ◌≤◌, ◌⊎◌, ◌∷◌, ◌++◌, length, OnOk, IfErr};
ghost use Rattle.exec2_funcs.specs.Calls.{Answers, concat_call, literal_call, string_call};
ghost use Rattle.cms_text.specs.Limits.{longest_text};

use crate::FuncFault;
use cms_text::{BLANK, LONGEST_TEXT, Word};
use std::alloc::Global;

/// The words joined without blanks.
pub fn concat(alloc: Global, words: &[Word]) -> Result<Word, FuncFault>
    ensures { Answers (concat_call words.now) result }
{
    let mut text = Vec::new(alloc);
    for word in words {
        append(&mut text, word.bytes())?;
    }
    Ok(Word::take(text))
}

/// The words joined by a blank.
pub fn literal(alloc: Global, words: &[Word]) -> Result<Word, FuncFault>
    ensures { Answers (literal_call words.now) result }
{
    let [first, others @ ..] = words else {
        return Ok(Word::take(Vec::new(alloc)));
    };
    let mut text = first.bytes().to_vec(alloc)?;
    for word in others {
        append_word(&mut text, word.bytes())?;
    }
    Ok(Word::take(text))
}

/// The words joined by a blank, the empty ones left out.
pub fn string(alloc: Global, words: &[Word]) -> Result<Word, FuncFault>
    ensures { Answers (string_call words.now) result }
{
    let mut text = Vec::new(alloc);
    for word in words {
        let word = word.bytes();
        if word.is_empty() {
            continue;
        }
        if text.is_empty() {
            append(&mut text, word)?;
        } else {
            append_word(&mut text, word)?;
        }
    }
    Ok(Word::take(text))
}

/// Adds bytes to a text, unless it gets too long.
fn append(text: &mut Vec<u8>, more: &[u8]) -> Result<(), FuncFault>
    requires { length text.old.items ≤ longest_text }
    ensures added { OnOk result (text.new.items ≡ text.old.items ++ more.now) }
    ensures short { OnOk result (length text.new.items ≤ longest_text) }
    ensures fault { IfErr result (λ fault. (fault ≡ FuncFault.Memory)
        ⊎ ((fault ≡ FuncFault.TooLong)
        × (longest_text < length text.old.items + length more.now))) }
{
    if text.len() + more.len() > LONGEST_TEXT {
        return Err(FuncFault::TooLong);
    }
    text.extend_from_slice(more)?;
    Ok(())
}

/// Adds a blank and a word to a text, unless it gets too long.
fn append_word(text: &mut Vec<u8>, word: &[u8]) -> Result<(), FuncFault>
    requires { length text.old.items ≤ longest_text }
    ensures added { OnOk result (text.new.items ≡ text.old.items ++ 0x40 ∷ word.now) }
    ensures short { OnOk result (length text.new.items ≤ longest_text) }
    ensures fault { IfErr result (λ fault. (fault ≡ FuncFault.Memory)
        ⊎ ((fault ≡ FuncFault.TooLong)
        × (longest_text < length text.old.items + length word.now + 1))) }
{
    append(text, &[BLANK])?;
    append(text, word)
}

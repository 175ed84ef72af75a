// Texts in capital letters.
ghost use Rattle.std.specs.Prelude.{◌≡◌, ◌==◌, ◌≤◌, length, map, IfOk};
ghost use Rattle.std.specs.List.{list_all};
ghost use Rattle.cms_ebcdic.specs.CodePage.{upper_of};
ghost use Rattle.cms_text.specs.Limits.{longest_text};

use cms_ebcdic::fold_upper;
use cms_text::Word;
use std::alloc::{AllocError, Global};

/// The text in capital letters.
pub fn folded(alloc: Global, text: &[u8]) -> Result<Word, AllocError>
    requires { length text.now ≤ longest_text }
    ensures { IfOk result (λ word. word ≡ map upper_of text.now) }
{
    let bytes: Vec<u8> = text.iter().map(|byte| fold_upper(*byte)).collect(alloc)?;
    Ok(Word::take(bytes))
}

/// The text in capital letters, which takes no memory where it has no small one.
#[tactic(auto, using(crate::proofs::Folds::same_folded))]
pub fn capitals(alloc: Global, text: Word) -> Result<Word, AllocError>
    ensures { IfOk result (λ word. word ≡ map upper_of text) }
{
    if is_folded(text.bytes()) {
        return Ok(text);
    }
    folded(alloc, text.bytes())
}

/// Whether a text has no small letter.
pub fn is_folded(text: &[u8]) -> bool
    ensures { result ≡ list_all (λ byte. upper_of byte == byte) text.now }
{
    text.iter().all(|byte| fold_upper(*byte) == *byte)
}

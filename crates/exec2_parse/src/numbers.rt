// Numbers as they are written, in one piece of memory each.
ghost use Rattle.std.specs.Prelude.{◌≡◌, ◌≤◌, length, IfOk};
ghost use Rattle.cms_text.specs.Numbers as spec;
ghost use Rattle.cms_text.specs.Texts as texts;
ghost use Rattle.cms_text.specs.Limits.{longest_text};

use cms_ebcdic::from_host;
use cms_text::Word;
use itoa::Buffer;
use std::alloc::{AllocError, Global};

/// A number without leading zeros, with a minus before it where it is below 0.
#[tactic(auto, unfolding(cms_text::specs::Numbers::written))]
pub fn written(alloc: Global, number: i64) -> Result<Word, AllocError>
    ensures { IfOk result (λ word. word ≡ spec.written number) }
{
    let mut buffer = Buffer::new();
    encoded(alloc, buffer.format(number))
}

/// A count without leading zeros.
#[tactic(auto, unfolding(cms_text::specs::Numbers::decimal_of, cms_text::specs::Numbers::written))]
pub fn numeral(alloc: Global, number: usize) -> Result<Word, AllocError>
    ensures { IfOk result (λ word. word ≡ spec.decimal_of number) }
{
    let mut buffer = Buffer::new();
    encoded(alloc, buffer.format(number))
}

/// An ASCII text as a word.
fn encoded(alloc: Global, text: &str) -> Result<Word, AllocError>
    requires { length text.now ≤ longest_text }
    ensures { IfOk result (λ word. word ≡ texts.ebcdic text.now) }
{
    let mut bytes = Vec::with_capacity(alloc, text.len())?;
    for letter in text.as_bytes() {
        if let Some(code) = from_host(*letter) {
            bytes.push(code)?;
        }
    }
    Ok(Word::take(bytes))
}

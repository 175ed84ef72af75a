// The words of a statement.
ghost use Rattle.std.specs.Prelude.{◌≡◌, ◌∷◌, [], drop, IfSome};

use cms_text::Word;

/// The character that stands for passes without end.
pub const ASTERISK: u8 = 0x5C;

/// The words behind the first.
pub fn behind_first(words: &[Word]) -> &[Word]
    ensures { result.now ≡ drop 1 words.now }
{
    match words {
        [_, others @ ..] => others,
        [] => words,
    }
}

/// The only word.
pub fn only(words: &[Word]) -> Option<&Word>
    ensures { IfSome result (λ word. words.now ≡ word.now ∷ []) }
{
    match words {
        [word] => Some(word),
        _ => None,
    }
}

// Numbers among the words, in ASCII.
ghost use Rattle.std.specs.Prelude.{◌≡◌, ◌≤◌, IfSome};
ghost use Rattle.mini_words.specs.Words.{begins_numeral, digit_in, number_of, numeral_of};

// Whether a digit 1 to 9 stands first.
fn begins_numeral(word: &[u8]) -> bool
    ensures { result ≡ begins_numeral word.now }
{
    matches!(word, [b'1'..=b'9', ..])
}

// The value of decimal digits of which the first isn't 0.
#[tactic(auto, using(crate::proofs::Numerals::no_numeral, crate::proofs::Numerals::numeral_read))]
fn numeral(word: &str) -> Option<u32>
    ensures { result ≡ numeral_of word.now }
{
    if !begins_numeral(word.as_bytes()) {
        return None;
    }
    word.parse().ok()
}

/// A decimal number with no sign and no leading zero, from the least to the most.
#[tactic(auto, unfolding(crate::specs::Words::number_of))]
pub fn number(word: &str, least: u32, most: u32) -> Option<u32>
    ensures value { result ≡ number_of least most word.now }
    ensures within { IfSome result (λ n. (least ≤ n) × (n ≤ most)) }
{
    match numeral(word) {
        Some(number) if least <= number && number <= most => Some(number),
        _ => None,
    }
}

/// A digit 0 to 6.
#[tactic(auto, unfolding(crate::specs::Words::digit_in))]
pub fn digit(word: &str) -> Option<u8>
    ensures value { result ≡ digit_in word.now }
    ensures within { IfSome result (λ n. n ≤ 6) }
{
    match word.as_bytes() {
        [digit @ b'0'..=b'6'] => Some(*digit - b'0'),
        _ => None,
    }
}

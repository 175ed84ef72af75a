// Numbers among the words, in ASCII.
ghost use Rattle.cms_fields.specs.Offsets.{IsOffset};
ghost use Rattle.std.specs.Prelude.{◌≡◌, ◌≤◌, ◌<◌, IfSome, IsTrue, length, ◌^◌};
ghost use Rattle.cms_words.specs.Numbers.{is_digit, hex_digit, decimal_from, device_of, number_up_to, offset_of, up_to};

/// A hexadecimal digit's value, in either case.
#[tactic(auto, unfolding(crate::specs::Numbers::hex_digit, crate::specs::Numbers::is_between))]
fn hex_digit(byte: u8) -> Option<u8>
    ensures value { result ≡ hex_digit byte }
    ensures small { IfSome result (λ d. d < 16) }
{
    match byte {
        b'0'..=b'9' => Some(byte - b'0'),
        b'A'..=b'F' => Some(byte - b'A' + 10),
        b'a'..=b'f' => Some(byte - b'a' + 10),
        _ => None,
    }
}

/// A device's number: three hexadecimal digits, not 000.
#[tactic(auto, unfolding(crate::specs::Numbers::device_of, crate::specs::Numbers::hex_from))]
pub fn device(word: &[u8]) -> Option<u16>
    ensures { result ≡ device_of word.now }
{
    let [a, b, c] = word else {
        return None;
    };
    let high = hex_digit(*a)? as u16;
    let middle = hex_digit(*b)? as u16;
    let low = hex_digit(*c)? as u16;
    let number = (high * 16 + middle) * 16 + low;
    if number == 0 { None } else { Some(number) }
}

#[tactic(auto, unfolding(crate::specs::Numbers::is_digit, crate::specs::Numbers::is_between))]
fn is_digit(byte: u8) -> bool
    ensures digit { result ≡ is_digit byte }
    ensures ascii { IsTrue result → (48 ≤ byte) × (byte ≤ 57) }
{
    byte.is_ascii_digit()
}

/// The value of decimal digits, of which there may be none, where it is at most so much: at most 2^31.
#[tactic(auto, using(crate::proofs::NumberLemmas::digit_stops, crate::proofs::NumberLemmas::at_the_end))]
pub fn decimal(digits: &[u8], most: u32) -> Option<u32>
    requires { most ≤ 2 ^ 31 }
    ensures value { result ≡ up_to most (decimal_from 0 digits.now) }
    ensures within { IfSome result (λ n. n ≤ most) }
{
    let mut count: u64 = 0;
    for digit in digits {
        if !is_digit(*digit) {
            return None;
        }
        count = count * 10 + u64::from(*digit - b'0');
        if count > most as u64 {
            return None;
        }
    }
    Some(count as u32)
}

/// A number of 1 to 10 digits, where it is at most so much: at most 2^31.
#[tactic(auto, unfolding(crate::specs::Numbers::number_up_to))]
pub fn number(word: &[u8], most: u32) -> Option<u32>
    requires { most ≤ 2 ^ 31 }
    ensures value { result ≡ number_up_to most word.now }
    ensures within { IfSome result (λ n. n ≤ most) }
{
    match word.len() {
        1..=10 => decimal(word, most),
        _ => None,
    }
}

/// The seconds that a zone adds to the clock, at most 53,940 either way: E or W, and hhmm, hours to 14 and minutes to 59.
#[tactic(auto, unfolding(crate::specs::Numbers::offset_of))]
pub fn offset(word: &[u8]) -> Option<i32>
    ensures value { result ≡ offset_of word.now }
    ensures within { IfSome result (λ seconds. IsOffset seconds) }
{
    let [side, digits @ ..] = word else {
        return None;
    };
    if digits.len() != 4 {
        return None;
    }
    let hours = decimal(&digits[..2], 14)?;
    let minutes = decimal(&digits[2..], 59)?;
    let seconds = ((hours * 60 + minutes) * 60) as i32;
    match side {
        b'E' => Some(seconds),
        b'W' => Some(-seconds),
        _ => None,
    }
}

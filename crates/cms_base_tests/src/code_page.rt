// Code page 037, by the manual's table.
use cms_cases::{Report, byte};
use cms_ebcdic::{fold_lower, fold_upper, from_host, to_host};

/// A character and its code. `outside BYTE`: a byte of ASCII that has no code. `unused CODE`: a code that has no character.
/// `capital of CODE CODE`: a small letter and its capital. `no letter CODE`: a code that doesn't fold.
pub const ROWS: &str = "\
. 4B => true
< 4C => true
( 4D => true
+ 4E => true
| 4F => true
& 50 => true
! 5A => true
$ 5B => true
* 5C => true
) 5D => true
; 5E => true
- 60 => true
/ 61 => true
, 6B => true
% 6C => true
_ 6D => true
> 6E => true
? 6F => true
` 79 => true
: 7A => true
# 7B => true
@ 7C => true
' 7D => true
= 7E => true
\" 7F => true
~ A1 => true
^ B0 => true
[ BA => true
] BB => true
{ C0 => true
} D0 => true
\\ E0 => true
A C1 => true
I C9 => true
J D1 => true
R D9 => true
S E2 => true
Z E9 => true
a 81 => true
i 89 => true
j 91 => true
r 99 => true
s A2 => true
z A9 => true
0 F0 => true
9 F9 => true
  40 => true
outside 00 => true
outside 09 => true
outside 0A => true
outside 0D => true
outside 1F => true
outside 7F => true
outside 80 => true
outside FF => true
unused 00 => true
unused 41 => true
unused 4A => true
unused 80 => true
unused 8A => true
unused CA => true
unused E1 => true
unused FA => true
unused FF => true
capital of 81 C1 => true
capital of 89 C9 => true
capital of 91 D1 => true
capital of 99 D9 => true
capital of A2 E2 => true
capital of A9 E9 => true
no letter 40 => true
no letter 80 => true
no letter 8A => true
no letter A1 => true
no letter C0 => true
no letter D0 => true
no letter E0 => true
no letter F5 => true";

// Whether small letters fold to capitals, and back.
fn folds(small: u8, capital: u8) -> bool {
    fold_upper(small) == capital && fold_lower(capital) == small
}

// Whether a text is one character with this code.
fn has_code(text: &str, code: u8) -> bool {
    match text.as_bytes() {
        [character] => from_host(*character) == Some(code) && to_host(code) == *character,
        _ => false,
    }
}

fn stays(code: u8) -> bool {
    fold_upper(code) == code && fold_lower(code) == code
}

// Whether the first code is that of a small letter and the last that of its capital.
fn is_pair(small: &str, capital: u8) -> bool {
    match byte(small) {
        Some(small) => folds(small, capital),
        None => false,
    }
}

// Whether a text is one character with this code, or names the small letter of which it is the capital.
fn fits(what: &str, last: u8) -> bool {
    match what.strip_prefix("capital of ") {
        Some(small) => is_pair(small, last),
        None => has_code(what, last),
    }
}

fn is_so(what: &str, last: u8) -> bool {
    match what {
        "outside" => from_host(last).is_none(),
        "unused" => to_host(last) == b'.',
        "no letter" => stays(last),
        _ => fits(what, last),
    }
}

/// Tells whether a case is so.
pub fn tell(into: &mut Report, case: &str) {
    let (what, last) = case.rsplit_once(' ').unwrap_or(("", case));
    match byte(last) {
        Some(last) => into.value(&is_so(what, last)),
        None => into.push_str("no code"),
    }
}

// Lines, their words and the options among them, written by hand.
use crate::texts::short;
use cms_cases::Report;
use cms_line::{OptionRule, Tokens, accepted_options, options, tokens};
use cms_text::coded;
use std::alloc::Global;
use std::process::Abort;

/// The words of a line with their places, each with a semicolon behind it, and a period at the end.
pub const WORDS: &str = " => .
    => .
LISTFILE * * A (DATE => LISTFILE 0-8;* 9-10;* 11-12;A 13-14;( 15-16;DATE 16-20;.
  type a(b)c ) => TYPE 2-6;A 7-8;( 8-9;B 9-10;) 10-11;C 11-12;) 13-14;.
() => ( 0-1;) 1-2;.
{A*253} => {A*253} 0-253;.
{A*254} => {A*254} 0-254;.
{A*255} => {A*255} 0-255;.
{A*127} {B*127} => {A*127} 0-127;{B*127} 128-255;.
A{ *253}B => A 0-1;B 254-255;.
A{ *251}( B => A 0-1;( 252-253;B 254-255;.";

/// Options up to the first refusal: the place of each one's rule and that of the word behind its own, and the fault.
pub const ACCEPTED: &str = "\
LISTFILE * * A (DATE => ([Choice { nth: 0, next: 6 }], None)
L DATE BLUE ) => ([], None)
L ( => ([], None)
L (DATE) => ([Choice { nth: 0, next: 3 }], None)
l (date lab x disk => ([Choice { nth: 0, next: 3 }, Choice { nth: 2, next: 4 }, Choice { nth: 1, next: 6 }], None)
L ) (DATE => ([Choice { nth: 0, next: 4 }], None)
L (LABEL DATE DATE => ([Choice { nth: 2, next: 3 }, Choice { nth: 0, next: 5 }], None)
L (LABEL ( => ([Choice { nth: 2, next: 3 }], None)
L (D DI DISKS => ([Choice { nth: 0, next: 3 }, Choice { nth: 1, next: 4 }], Some(Unknown(4)))
L (LA => ([], Some(Unknown(2)))
L (DATE ( => ([Choice { nth: 0, next: 3 }], Some(Unknown(3)))
L (LABEL => ([], Some(Missing(3)))
L (LABEL) => ([], Some(Missing(3)))
L (DATE FROM 1 => ([Choice { nth: 0, next: 3 }], Some(Missing(5)))
L (FROM 1 ) BLUE => ([], Some(Missing(4)))
L (BLUE FROM 1 => ([], Some(Unknown(2)))
L (DATE BLUE) X => ([Choice { nth: 0, next: 3 }], Some(Unknown(3)))
L (DATE) X => ([Choice { nth: 0, next: 3 }], Some(After(4)))
L () ) => ([], Some(After(3)))";

/// Options or their first fault.
pub const ANSWERED: &str = "\
L (DATE D => Ok(Series { items: [Choice { nth: 0, next: 3 }, Choice { nth: 0, next: 4 }] })
L (DATE) X => Err(After(4))
L (DATE FROM 1) => Err(Missing(5))
L (DISK BLUE LABEL => Err(Unknown(3))
L ({DATE *25}BLUE => Err(Unknown(27))";

/// The words of a line.
pub fn words_of<R: Abort>(rt: &R, alloc: Global, line: &str) -> Tokens {
    tokens(alloc, &short(rt, alloc, line)).expect(rt, "memory")
}

/// Adds the words of a line with their places.
pub fn push_words<R: Abort>(into: &mut Report, rt: &R, alloc: Global, line: &str) {
    for word in words_of(rt, alloc, line).as_slice() {
        into.ascii(word.text.bytes());
        into.push(' ');
        into.value(&word.start);
        into.push('-');
        into.value(&word.end);
        into.push(';');
    }
    into.push('.')
}

fn rule(name: &[u8; 8], least: u8, takes: u8) -> OptionRule {
    OptionRule {
        name: coded(name),
        least,
        takes,
    }
}

fn rules() -> [OptionRule; 4] {
    [
        rule(b"DATE    ", 1, 0),
        rule(b"DISK    ", 1, 0),
        rule(b"LABEL   ", 3, 1),
        rule(b"FROM    ", 2, 2),
    ]
}

/// Adds the options of a line up to the first refusal.
pub fn push_accepted<R: Abort>(into: &mut Report, rt: &R, alloc: Global, line: &str) {
    let words = words_of(rt, alloc, line);
    let accepted = accepted_options(alloc, &rules(), &words).expect(rt, "memory");
    into.value(&(accepted.chosen.as_slice(), accepted.refused))
}

/// Adds the options of a line, or their first fault.
pub fn push_answered<R: Abort>(into: &mut Report, rt: &R, alloc: Global, line: &str) {
    let words = words_of(rt, alloc, line);
    into.value(&options(alloc, &rules(), &words))
}

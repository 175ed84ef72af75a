// Messages.
use crate::operands::push_message;
use crate::texts::{blank_number, blank_word, short};
use cms_cases::Report;
use cms_line::{Message, Word};
use std::alloc::Global;
use std::process::Abort;

/// Messages by their numbers and words, and their texts.
pub const ROWS: &str = "001 XYZ => CMS001E Unknown command XYZ
001 {X*255} => CMS001E Unknown command {X*255}
002 PROFILE EXEC A => CMS002E File PROFILE EXEC A not found
003 FOO => CMS003E Option FOO is not valid
010 => CMS010E Line has an invalid character
011 => CMS011E Line is longer than 255 bytes
024 A FILE A1 => CMS024E File A FILE A1 already exists
029 X RECFM => CMS029E Parameter X of option RECFM is not valid
029 {X*254} {Y*255} => CMS029E Parameter {X*254} of option {Y*255} is not valid
037 B => CMS037E Disk B is read-only
048 9 => CMS048E Mode 9 is not valid
054 => CMS054E Operand is missing
062 A*B => CMS062E Name A*B is not valid
069 Z => CMS069E Disk Z is not accessed
070 1X => CMS070E Operand 1X is not valid
085 RUN 12 3 => CMS085E Procedure RUN stopped at line 12 with fault 3
086 RUN 2 => CMS086E Procedure RUN is not run, reason 2
105 191 => CMS105E Device fault on 191
106 19F => CMS106E File contents altered on 19F
107 A 20 7 => CMS107E Disk A is full, 20 blocks needed, 7 free
112 192 4 => CMS112E Device 192 holds no volume, reason 4
113 1FF => CMS113E Device 1FF does not exist
113 FFF => CMS113E Device FFF does not exist
114 195 => CMS114E Device 195 is too small
115 191 => CMS115E Device 191 is in doubt
120 2 => CMS120E Limit 2 reached
121 40 => CMS121E File has only 40 records
122 NONE => CMS122E Extension NONE does not exist
123 => CMS123E File has records longer than 80
124 => CMS124E Reader is empty
125 => CMS125E Deck is not a dump
603 A 191 => CMS603R FORMAT will erase all files on disk A (191). Go on? Enter YES or NO
605 => CMS605R Enter disk label
723 C 19E => CMS723I C (19E) R/O
733 800 B 192 => CMS733I 800 blocks formatted on B (192)";

// The message with this number and no word.
fn wordless(number: u32) -> Message {
    match number {
        10 => Message::M010,
        11 => Message::M011,
        54 => Message::M054,
        123 => Message::M123,
        124 => Message::M124,
        125 => Message::M125,
        _ => Message::M605,
    }
}

// And with one.
fn of_one(number: u32, word: Word) -> Message {
    match number {
        1 => Message::M001(word),
        3 => Message::M003(word),
        37 => Message::M037(word),
        48 => Message::M048(word),
        62 => Message::M062(word),
        69 => Message::M069(word),
        70 => Message::M070(word),
        105 => Message::M105(word),
        106 => Message::M106(word),
        113 => Message::M113(word),
        114 => Message::M114(word),
        115 => Message::M115(word),
        120 => Message::M120(word),
        121 => Message::M121(word),
        _ => Message::M122(word),
    }
}

// And with two.
fn of_two(number: u32, first: Word, second: Word) -> Message {
    match number {
        29 => Message::M029(first, second),
        86 => Message::M086(first, second),
        112 => Message::M112(first, second),
        603 => Message::M603(first, second),
        _ => Message::M723(first, second),
    }
}

// And with three.
fn of_three(number: u32, first: Word, second: Word, third: Word) -> Message {
    match number {
        2 => Message::M002(first, second, third),
        24 => Message::M024(first, second, third),
        85 => Message::M085(first, second, third),
        107 => Message::M107(first, second, third),
        _ => Message::M733(first, second, third),
    }
}

// The word of a case at a place.
fn word_at<R: Abort>(rt: &R, alloc: Global, case: &str, place: usize) -> Word {
    short(rt, alloc, blank_word(case, place))
}

// The message that is given by its number and its first two words.
fn of_few<R: Abort>(rt: &R, alloc: Global, number: u32, case: &str) -> Message {
    let first = word_at(rt, alloc, case, 1);
    if blank_word(case, 2).is_empty() {
        return of_one(number, first);
    }
    of_two(number, first, word_at(rt, alloc, case, 2))
}

// And by all its words.
fn message<R: Abort>(rt: &R, alloc: Global, case: &str) -> Message {
    let number = blank_number(case, 0);
    if blank_word(case, 1).is_empty() {
        return wordless(number);
    }
    if blank_word(case, 3).is_empty() {
        return of_few(rt, alloc, number, case);
    }
    of_three(
        number,
        word_at(rt, alloc, case, 1),
        word_at(rt, alloc, case, 2),
        word_at(rt, alloc, case, 3),
    )
}

/// Adds the text of the message of a case.
pub fn push_text<R: Abort>(into: &mut Report, rt: &R, alloc: Global, case: &str) {
    push_message(into, rt, alloc, message(rt, alloc, case))
}

//! Small texts in EBCDIC code page 037, lists of them, their blanks and words, and decimal numbers. Also numbers in bytes.
#![tactic(auto)]

pub mod bytes;
mod list;
mod numbers;
mod text;
mod words;

pub use list::Series;
pub use numbers::{decimal, magnitude, number, ones, tens, written};
pub use text::{LONGEST_TEXT, Line, ShortText, Word};
pub use words::{
    BLANK, COLON, STROKE, ZERO, coded, ebcdic, first_word, is_keyword, without_leading_blanks,
    without_one_blank, without_trailing, without_trailing_blanks,
};

/// A list of lines.
pub type Lines = Series<Line>;

/// A list of words.
pub type WordList = Series<Word>;

// Words with their places in a line.
use crate::Word;
use cms_text::Series;

/// A word of a line: its text, folded to upper case, and the places of the line that it takes, from `start` up to below `end`.
#[derive(Drop)]
pub struct Token {
    pub text: Word,
    pub start: u8,
    pub end: u8,
}

/// The words of a line in order.
pub type Tokens = Series<Token>;

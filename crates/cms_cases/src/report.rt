// What tests see, and how it is told.
use cms_ebcdic::to_host;
use std::alloc::{AllocError, Global};
use std::fmt;
use std::fmt::{Debug, Display};

/// Bytes of EBCDIC, which are printed in ASCII.
#[derive(Clone, Copy)]
pub struct Ascii<'a>(pub &'a [u8]);

impl fmt::Display for Ascii<'_> {
    fn fmt<W: fmt::Write>(&self, f: &mut fmt::Formatter<W>) -> fmt::Result {
        for byte in self.0 {
            f.write_char(char::from(to_host(*byte)))?;
        }
        Ok(())
    }
}

/// A text in which a test tells what it sees. Adding to it never fails: where there was no memory for all, the text in the end is that
/// there was none.
#[derive(Drop)]
pub struct Report {
    text: String,
    is_whole: bool,
}

impl Report {
    /// A report of nothing.
    pub fn new(alloc: Global) -> Report {
        Report {
            text: String::new(alloc),
            is_whole: true,
        }
    }

    // Notes whether something was added.
    fn note(&mut self, added: Result<(), AllocError>) {
        if added.is_err() {
            self.is_whole = false;
        }
    }

    /// Adds a text.
    pub fn push_str(&mut self, text: &str) {
        let added = self.text.push_str(text);
        self.note(added);
    }

    /// Adds a character.
    pub fn push(&mut self, character: char) {
        let added = self.text.push(character);
        self.note(added);
    }

    /// Adds a value as `{}` prints it, as `write!` does.
    pub fn write_fmt<D: Display + Drop>(&mut self, value: D) {
        let added = self.text.write_fmt(value);
        self.note(added);
    }

    /// Adds a value as `{:?}` prints it.
    pub fn value<T: Debug>(&mut self, value: &T) {
        let added = write!(self.text, "{value:?}");
        self.note(added);
    }

    /// Adds bytes of EBCDIC in ASCII.
    pub fn ascii(&mut self, bytes: &[u8]) {
        let added = write!(self.text, "{}", Ascii(bytes));
        self.note(added);
    }

    /// What was told.
    pub fn text(&self) -> &str {
        if self.is_whole {
            self.text.as_str()
        } else {
            "no memory"
        }
    }
}

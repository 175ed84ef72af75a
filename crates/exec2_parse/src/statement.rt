// The lines of a procedure, each with its words.
ghost use Rattle.std.specs.Prelude.{◌≡◌, ◌≤◌, length, IfOk};
ghost use Rattle.cms_text.specs.Limits.{longest_text};
ghost use Rattle.exec2_parse.specs.Kinds.{kind_of};
ghost use Rattle.exec2_parse.specs.Words as spec;

use crate::kind::{Kind, kind_of};
use crate::words::statement_on;
use cms_text::{Line, Word, WordList};
use std::alloc::{AllocError, Global};

/// A line with the words of its statement, and what that is.
#[derive(Drop)]
pub struct Statement {
    line: Line,
    words: WordList,
    kind: Kind,
    ghost words_are: { words ≡ spec.statement_on line },
    ghost kind_is: { kind ≡ kind_of words },
}

impl Statement {
    /// The line of a text.
    pub fn of(alloc: Global, text: &[u8]) -> Result<Statement, AllocError>
        requires { length text.now ≤ longest_text }
        ensures { IfOk result (λ statement. statement.line ≡ text.now) }
    {
        let line = Line::of(alloc, text)?;
        let words = statement_on(alloc, text)?;
        let kind = kind_of(words.as_slice());
        Ok(Statement { line, words, kind })
    }

    /// The line.
    pub fn line(&self) -> &Line
        ensures { result.now ≡ self.now.line }
    {
        &self.line
    }

    /// The words of the statement.
    pub fn words(&self) -> &[Word]
        ensures { result.now ≡ spec.statement_on self.now.line }
    {
        self.words.as_slice()
    }

    /// What the statement is.
    pub fn kind(&self) -> Kind
        ensures { result ≡ kind_of (spec.statement_on self.now.line) }
    {
        self.kind
    }
}

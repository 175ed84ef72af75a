// How the program ends.
ghost use Rattle.std.specs.Prelude.{◌≡◌};
ghost use Rattle.mini_words.specs.Exits.{code_of, graver};

use clap::Error;
use clap::error::ErrorKind;

/// How the program ends.
#[derive(Clone, Copy)]
pub enum Exit {
    /// all was done
    Done,
    /// something was refused or isn't sound
    Refused,
    /// the words are refused
    Usage,
    /// there is no memory
    Memory,
    /// an image, a host file or the output failed
    Failed,
}

impl Exit {
    /// The exit code.
    pub fn code(self) -> u8
        ensures { result ≡ code_of self }
    {
        match self {
            Exit::Done => 0,
            Exit::Refused => 1,
            Exit::Usage => 2,
            Exit::Memory => 3,
            Exit::Failed => 4,
        }
    }

    /// The graver of two: that with the greater code.
    pub fn and(self, other: Exit) -> Exit
        ensures { result ≡ graver self other }
    {
        if self.code() < other.code() {
            other
        } else {
            self
        }
    }

    /// Where clap says something: help and the version are no refusal.
    pub fn of_clap(error: &Error, printed: bool) -> Exit {
        match error.kind() {
            ErrorKind::OutOfMemory => Exit::Memory,
            _ if error.use_stderr() => Exit::Usage,
            _ if printed => Exit::Done,
            _ => Exit::Failed,
        }
    }
}

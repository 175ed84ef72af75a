// Why words are refused.
ghost use Rattle.std.specs.Prelude.{◌≡◌};
ghost use Rattle.mini_words.specs.declared.fault.WordFault.TheVariants.{Memory};

use clap::Error as ClapError;
use std::alloc::AllocError;
use std::fmt;

/// Why the words of a command are refused, where clap takes them: the first of these that holds, in this order.
#[derive(Clone, Copy, Debug)]
pub enum WordFault {
    /// The value of `-b` is none of 512, 1024, 2048 and 4096.
    Size,
    /// The value of `-f` isn't text, binary or records.
    Form,
    /// The value of `-L` isn't 1 to 65,535.
    Length,
    /// The form binary wants `-L`.
    NoLength,
    /// The value of `-m` isn't a digit 0 to 6.
    Digit,
    /// The name of this number, from 1, isn't FN.FT. The value of `-n` has the number 1, and the new name of `rename` 2.
    Name(usize),
    /// The value of `-n` of `make` isn't 8 to 1,048,576.
    Blocks,
    /// The value of `-l` of `make` isn't 1 to 6 characters of names.
    Label,
    /// The value of `-z` isn't E or W and four digits, hours to 14 and minutes to 59.
    Zone,
    /// The number of a block of this number, from 1, isn't 1 to 1,048,576.
    Block(usize),
    /// `-o` and `-d` exclude each other.
    TwoTargets,
    /// `-v` with files that go to standard output.
    SaysNothing,
    /// `-n` with more than one host file.
    OneFile,
    /// Standard input, `-`, without `-n`.
    NoName,
    /// No command, or an unknown one: `clap` refuses these before.
    NoCommand,
    /// There is no memory.
    Memory,
}

impl WordFault {
    // What is wrong, without the word's number.
    fn text(&self) -> &'static str {
        match self {
            WordFault::Size => "-b: a block size is 512, 1024, 2048 or 4096",
            WordFault::Form => "-f: a form is text, binary or records",
            WordFault::Length => "-L: a record has 1 to 65535 bytes",
            WordFault::NoLength => "-f binary wants the length of a record, -L N",
            WordFault::Digit => "-m: a mode number is a digit 0 to 6",
            WordFault::Name(_) => "a name is FN.FT, each of 1 to 8 characters A to Z, 0 to 9 \
                and $ # @ + - : _; in list, get and erase also * and %",
            WordFault::Blocks => "-n: a volume has 8 to 1048576 blocks",
            WordFault::Label => "-l: a label is 1 to 6 characters A to Z, 0 to 9 and $ # @ + - : _",
            WordFault::Zone => "-z: a zone is E or W and hhmm, as W0500",
            WordFault::Block(_) => "blocks have the numbers 1 to 1048576",
            WordFault::TwoTargets => "-o and -d exclude each other",
            WordFault::SaysNothing => "-v wants -o or -d: else the files themselves are the output",
            WordFault::OneFile => "-n takes one host file",
            WordFault::NoName => "- is standard input, and wants its name in the image, -n FN.FT",
            WordFault::NoCommand => "a command is wanted",
            WordFault::Memory => "no memory",
        }
    }
}

impl fmt::Display for WordFault {
    fn fmt<W: fmt::Write>(&self, f: &mut fmt::Formatter<W>) -> fmt::Result {
        match self {
            WordFault::Name(place) => write!(f, "name {place}: ")?,
            WordFault::Block(place) => write!(f, "word {place} behind the image: ")?,
            _ => {}
        }
        f.write_str(self.text())
    }
}

impl From<AllocError> for WordFault {
    ghost from_gives = { λ _ fault. fault ≡ Memory };

    fn from(_error: AllocError) -> WordFault {
        WordFault::Memory
    }
}

/// Why there is nothing to do.
#[derive(Drop)]
pub enum Refused {
    /// `clap` doesn't take the words, or they ask for help or the version, or there is no memory: [`ClapError::print`] shows what it
    /// says, and [`ClapError::exit_code`] is its exit status.
    Clap(ClapError),
    /// a word is out of form, or some exclude each other
    Word(WordFault),
}

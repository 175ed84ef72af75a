// How a session ends.
ghost use Rattle.std.specs.Prelude.{◌≡◌, if◌then◌else◌};
ghost use Rattle.cms_session.specs.Statuses.{code_of};

use cms_words::WordFault;

/// How a session ended.
#[derive(Clone, Copy, Debug, PartialEq, Eq)]
pub enum Status {
    /// The script was read to its end.
    Done,
    /// The words are refused; nothing was attached or typed.
    Usage(WordFault),
    /// There is no memory; what was typed and what was written before stands.
    Memory,
    /// The world failed: an image could not be attached, or the console or the clock failed.
    World,
    /// The turns are spent and a further one is due.
    Turns,
}

impl Status {
    /// The program's exit status: 0, or 2 to 5.
    pub fn code(&self) -> u8
        ensures { result ≡ code_of self.now }
    {
        match self {
            Status::Done => 0,
            Status::Usage(_) => 2,
            Status::Memory => 3,
            Status::World => 4,
            Status::Turns => 5,
        }
    }

    /// The program's exit status where all that was typed could be written, or not: then it is 4.
    pub fn exit_code(&self, written: bool) -> u8
        ensures { result ≡ (if written then code_of self.now else 4) }
    {
        if written { self.code() } else { 4 }
    }
}

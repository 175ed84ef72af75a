// What a line of the console asks for.
ghost use Rattle.std.specs.Prelude.{◌≡◌, ◌==◌};
ghost use Rattle.std.specs.List.{list_all};
ghost use Rattle.cms_session.specs.Commands.{is_comment, request_of};

use cms_cards::CardCommand;
use cms_operands::{CommandName, command_named};
use cms_text::BLANK;

/// A command that knows of no procedure, of no extension and of no deck.
#[derive(Clone, Copy)]
pub enum Command {
    /// that a volume is accessed as a letter
    Access,
    /// that a disk is accessed no more
    Release,
    /// that an empty volume is made, or a volume id changed
    Format,
    /// that the stamps of a disk's files are moved
    Century,
    /// that disks are told of
    Query,
    /// that files are listed
    Listfile,
    /// that files get other names or mode numbers
    Rename,
    /// that files are erased
    Erase,
    /// that the records of a file are typed
    TypeFile,
    /// whether a file is there
    State,
    /// that files are copied record by record
    Copyfile,
    /// that records of a file are stacked, or lines written to one
    Execio,
    /// what no command does
    Unknown,
}

/// What a line asks for.
#[derive(Clone, Copy)]
pub enum Request {
    /// that a procedure is run
    Exec,
    /// that an extension is dropped
    Nucxdrop,
    /// that the words of the extensions are typed
    Nucxmap,
    /// what a command on cards does
    Cards(CardCommand),
    /// what another command does
    Command(Command),
}

const ASTERISK: u8 = 0x5C;

// The line has blanks alone.
fn is_blank(line: &[u8]) -> bool
    ensures { result ≡ list_all (λ x. x == 0x40) line.now }
{
    line.iter().all(|byte| *byte == BLANK)
}

/// Nothing is done for the line: it is blank, or begins with an asterisk.
#[tactic(auto, using(crate::proofs::Stars::starred, crate::proofs::Stars::not_starred), unfolding(crate::specs::Commands::is_comment))]
pub fn is_comment(line: &[u8]) -> bool
    ensures { result ≡ is_comment line.now }
{
    match line {
        [] => true,
        [ASTERISK, ..] => true,
        _ => is_blank(line),
    }
}

/// What a line with this first word asks for, which is in upper case.
pub fn request_of(word: &[u8]) -> Request
    ensures { result ≡ request_of word.now }
{
    match command_named(word) {
        Some(CommandName::Access) => Request::Command(Command::Access),
        Some(CommandName::Release) => Request::Command(Command::Release),
        Some(CommandName::Format) => Request::Command(Command::Format),
        Some(CommandName::Century) => Request::Command(Command::Century),
        Some(CommandName::Query) => Request::Command(Command::Query),
        Some(CommandName::Listfile) => Request::Command(Command::Listfile),
        Some(CommandName::Rename) => Request::Command(Command::Rename),
        Some(CommandName::Erase) => Request::Command(Command::Erase),
        Some(CommandName::TypeFile) => Request::Command(Command::TypeFile),
        Some(CommandName::State) => Request::Command(Command::State),
        Some(CommandName::Exec) => Request::Exec,
        Some(CommandName::Copyfile) => Request::Command(Command::Copyfile),
        Some(CommandName::Execio) => Request::Command(Command::Execio),
        Some(CommandName::Nucxdrop) => Request::Nucxdrop,
        Some(CommandName::Nucxmap) => Request::Nucxmap,
        Some(CommandName::Punch) => Request::Cards(CardCommand::Punch),
        Some(CommandName::Readcard) => Request::Cards(CardCommand::Readcard),
        Some(CommandName::Disk) => Request::Cards(CardCommand::Disk),
        None => Request::Command(Command::Unknown),
    }
}

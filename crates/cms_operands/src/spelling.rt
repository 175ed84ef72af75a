// The words of the commands.
ghost use Rattle.std.specs.Prelude.{◌≡◌};
ghost use Rattle.cms_operands.specs.Spellings as spec;

use cms_line::{OptionRule, is_named};
use cms_text::coded;

/// A command.
#[derive(Clone, Copy)]
pub enum CommandName {
    Access,
    Release,
    Format,
    Century,
    Query,
    Listfile,
    Copyfile,
    Rename,
    Erase,
    TypeFile,
    State,
    Execio,
    Exec,
    Nucxdrop,
    Nucxmap,
    Punch,
    Readcard,
    Disk,
}

/// A command with its word and the length of the word's shortest spelling.
#[derive(Clone, Copy)]
pub struct Spelling {
    pub rule: OptionRule,
    pub command: CommandName,
}

fn spelled(word: &[u8; 8], least: u8, command: CommandName) -> Spelling
    ensures { result ≡ spec.spelled word.now least command }
{
    Spelling {
        rule: OptionRule {
            name: coded(word),
            least,
            takes: 0,
        },
        command,
    }
}

#[tactic(auto, unfolding(crate::specs::Spellings::spellings))]
fn spellings() -> [Spelling; 18]
    ensures { result ≡ spec.spellings }
{
    [
        spelled(b"ACCESS  ", 2, CommandName::Access),
        spelled(b"RELEASE ", 3, CommandName::Release),
        spelled(b"FORMAT  ", 6, CommandName::Format),
        spelled(b"CENTURY ", 7, CommandName::Century),
        spelled(b"QUERY   ", 1, CommandName::Query),
        spelled(b"LISTFILE", 1, CommandName::Listfile),
        spelled(b"COPYFILE", 4, CommandName::Copyfile),
        spelled(b"RENAME  ", 1, CommandName::Rename),
        spelled(b"ERASE   ", 3, CommandName::Erase),
        spelled(b"TYPE    ", 1, CommandName::TypeFile),
        spelled(b"STATE   ", 5, CommandName::State),
        spelled(b"EXECIO  ", 6, CommandName::Execio),
        spelled(b"EXEC    ", 2, CommandName::Exec),
        spelled(b"NUCXDROP", 8, CommandName::Nucxdrop),
        spelled(b"NUCXMAP ", 7, CommandName::Nucxmap),
        spelled(b"PUNCH   ", 2, CommandName::Punch),
        spelled(b"READCARD", 4, CommandName::Readcard),
        spelled(b"DISK    ", 4, CommandName::Disk),
    ]
}

// The command of the first spelling that a word is.
fn first_named(word: &[u8], spellings: &[Spelling]) -> Option<CommandName>
    ensures { result ≡ spec.first_named word.now spellings.now }
{
    let spelling = spellings
        .iter()
        .find(|spelling| is_named(word, &spelling.rule))?;
    Some(spelling.command)
}

/// The command that a word, in upper case, names: each beginning of a command's word that is long enough does, and the first command
/// in the list holds.
pub fn command_named(word: &[u8]) -> Option<CommandName>
    ensures { result ≡ spec.command_named word.now }
{
    first_named(word, &spellings())
}

// What a statement is, by its words as they stand.
ghost use Rattle.std.specs.Prelude.{◌≡◌, length};
ghost use Rattle.cms_text.specs.Texts.{ebcdic};
ghost use Rattle.exec2_parse.specs.Kinds as spec;

use crate::keyword::is_spelled;
use cms_text::Word;

/// A control word of EXEC 2.
#[derive(Clone, Copy)]
pub enum Control {
    Trace,
    Type,
    BegType,
    Stack,
    BegStack,
    End,
    Command,
    Subcommand,
    Presume,
    Read,
    Args,
    If,
    Goto,
    Skip,
    Loop,
    Call,
    Return,
    Error,
    Exit,
}

const CONTROLS: [Control; 19] = [
    Control::Trace,
    Control::Type,
    Control::BegType,
    Control::Stack,
    Control::BegStack,
    Control::End,
    Control::Command,
    Control::Subcommand,
    Control::Presume,
    Control::Read,
    Control::Args,
    Control::If,
    Control::Goto,
    Control::Skip,
    Control::Loop,
    Control::Call,
    Control::Return,
    Control::Error,
    Control::Exit,
];

impl Control {
    /// The control word that a word is, in capital or small letters; none exactly where it is no control word.
    #[tactic(auto, unfolding(crate::specs::Kinds::control_of))]
    fn read(word: &[u8]) -> Option<Control>
        ensures { result ≡ spec.control_of word.now }
    {
        CONTROLS
            .iter()
            .copied()
            .find(|control| is_spelled(word, control.name()))
    }

    /// The word in capital letters.
    pub fn name(self) -> &'static str
        ensures name { result.now ≡ spec.name_of self }
        ensures coded { length (ebcdic result.now) ≡ length result.now }
    {
        match self {
            Control::Trace => "&TRACE",
            Control::Type => "&TYPE",
            Control::BegType => "&BEGTYPE",
            Control::Stack => "&STACK",
            Control::BegStack => "&BEGSTACK",
            Control::End => "&END",
            Control::Command => "&COMMAND",
            Control::Subcommand => "&SUBCOMMAND",
            Control::Presume => "&PRESUME",
            Control::Read => "&READ",
            Control::Args => "&ARGS",
            Control::If => "&IF",
            Control::Goto => "&GOTO",
            Control::Skip => "&SKIP",
            Control::Loop => "&LOOP",
            Control::Call => "&CALL",
            Control::Return => "&RETURN",
            Control::Error => "&ERROR",
            Control::Exit => "&EXIT",
        }
    }
}

/// What a statement is.
#[derive(Clone, Copy)]
pub enum Kind {
    /// It has no words.
    Nothing,
    /// Its first word begins with an ampersand, and its second is an equal sign.
    Assignment,
    /// Its first word is a control word.
    Control(Control),
    /// Any other.
    Command,
}

const AMPERSAND: u8 = 0x50;

const EQUAL_SIGN: u8 = 0x7E;

/// The kind of a statement: no words, an assignment, a control word, else a command.
#[tactic(auto, unfolding(crate::specs::Kinds::kind_of))]
pub fn kind_of(words: &[Word]) -> Kind
    ensures { result ≡ spec.kind_of words.now }
{
    match words {
        [] => Kind::Nothing,
        [name, sign, ..] if is_assignment(name.bytes(), sign.bytes()) => Kind::Assignment,
        [word, ..] => control_or_command(word.bytes()),
    }
}

fn is_assignment(name: &[u8], sign: &[u8]) -> bool
    ensures { result ≡ spec.is_assignment name.now sign.now }
{
    name.first() == Some(&AMPERSAND) && sign == [EQUAL_SIGN].as_slice()
}

fn control_or_command(word: &[u8]) -> Kind
    ensures { result ≡ spec.control_or_command word.now }
{
    match Control::read(word) {
        Some(control) => Kind::Control(control),
        None => Kind::Command,
    }
}

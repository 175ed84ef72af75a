// Lines of a command with a name, a mode and a number, and what is typed where they are refused; written by hand from the manual's
// order of refusals.
use crate::line::options::words_of;
use crate::texts::coded;
use cms_cases::Report;
use cms_line::{Message, Tokens, write_message};
use cms_operands::{
    AccessMode, ChosenOptions, CommandFault, CommandName, OptionForm, Parameter, ReadMode, Refusal,
    Setting, Target, WriteMode, access_mode, chosen_options, command_named, device_or_letter,
    ended, given_or, letter_or_all, name, name_or_all, name_or_same, needed, number, number_or_all,
    operands, output_mode, pattern, reading_mode, writing_mode,
};
use std::alloc::Global;
use std::process::Abort;

/// `line/LINE`: the options that the line chooses, or what is typed and the code.
/// `command/WORD`: the command that the word names. `KIND/LINE`: what the line's last word is, read by its kind.
pub const ROWS: &str = "\
line/X Y A 100 => chosen:
line/X Y A 007 ( => chosen:
line/x y b2 1 (ty lr 080 rec v fi 40 col 2-14) => chosen: TypeWord Lrecl=80 Recfm=V Fill=X'40' Col=2-14
line/X Y! B9 0 => CMS062E Name Y! is not valid 20
line/X Y B9 0 => CMS048E Mode B9 is not valid 24
line/X Y B 0 => CMS070E Operand 0 is not valid 24
line/X Y B 1000000000 => CMS070E Operand 1000000000 is not valid 24
line/X Y B 1 Z (BLUE => CMS070E Operand Z is not valid 24
line/X Y B9 (BLUE => CMS048E Mode B9 is not valid 24
line/X Y B (BLUE => CMS054E Operand is missing 24
line/X => CMS054E Operand is missing 24
line/X Y ) 1 => CMS048E Mode ) is not valid 24
line/X Y A 1 (BLUE LRECL 0 => CMS003E Option BLUE is not valid 24
line/X Y A 1 (LRECL 0 BLUE => CMS029E Parameter 0 of option LRECL is not valid 24
line/X Y A 1 (LR 0 LRECL 80 => CMS029E Parameter 0 of option LR is not valid 24
line/X Y A 1 (COL 3-2 REC X => CMS029E Parameter 3-2 of option COL is not valid 24
line/X Y A 1 (FI AB LRECL => CMS054E Operand is missing 24
line/X Y A 1 (LRECL ) => CMS054E Operand is missing 24
line/X Y A 1 (LRECL ( => CMS029E Parameter ( of option LRECL is not valid 24
line/X Y A 1 (TYPE ( => CMS003E Option ( is not valid 24
line/X Y A 1 (T => CMS003E Option T is not valid 24
line/X Y A 1 (FU => CMS003E Option FU is not valid 24
line/X Y A 1 (FUL FULLDAT fulldate => chosen: Fulldate Fulldate Fulldate
line/X Y A 1 (FULLDATES => CMS003E Option FULLDATES is not valid 24
line/X Y A 1 (TYPE) Z => CMS070E Operand Z is not valid 24
command/A => no command
command/AC => ACCESS
command/RE => RENAME
command/REL => RELEASE
command/FORMA => no command
command/FORMAT => FORMAT
command/CENTURY => CENTURY
command/CENTUR => no command
command/Q => QUERY
command/L => LISTFILE
command/COP => no command
command/COPY => COPYFILE
command/ERA => ERASE
command/T => TYPE
command/STATE => STATE
command/EXECI => no command
command/EXECIO => EXECIO
command/EX => EXEC
command/EXECUTE => no command
command/P => no command
command/PU => PUNCH
command/REA => no command
command/READC => READCARD
command/DIS => no command
command/DISK => DISK
command/ => no command
name or all/ERASE * => None
name or all/ERASE = => CMS062E Name = is not valid 20
name or same/RENAME A B A = => None
pattern/LISTFILE * => a pattern
reading mode/STATE F T * => any
reading mode/STATE F T = => CMS048E Mode = is not valid 24
writing mode/ERASE F T * => CMS048E Mode * is not valid 24
output mode/COPYFILE F T A F U A1 => letter 0, number Some(1)
output mode/COPYFILE F T A F U = => None
letter or all/QUERY DISK * => None
letter or all/QUERY DISK A1 => CMS048E Mode A1 is not valid 24
number or all/EXECIO * => None
device or letter/RELEASE A1 => CMS070E Operand A1 is not valid 24
device or letter/RELEASE * => CMS048E Mode * is not valid 24
device or letter/RELEASE 1AF => device 1AF
access mode/ACCESS 191 B/A => letter 1, behind the stroke Some(0)
access mode/ACCESS 191 A1 => CMS048E Mode A1 is not valid 24";

const A: u8 = 0xC1;

#[derive(Clone, Copy, Debug)]
enum LineOption {
    TypeWord,
    Lrecl,
    Recfm,
    Fill,
    Col,
    Fulldate,
}

fn forms() -> [OptionForm<LineOption>; 6] {
    let length = Parameter::Number(1, 65535);
    [
        OptionForm::flag(LineOption::TypeWord, b"TYPE    ", 2),
        OptionForm::new(LineOption::Lrecl, b"LRECL   ", 1, length),
        OptionForm::new(LineOption::Recfm, b"RECFM   ", 3, Parameter::Format),
        OptionForm::new(LineOption::Fill, b"FILL    ", 2, Parameter::Fill),
        OptionForm::new(LineOption::Col, b"COL     ", 3, Parameter::Columns),
        OptionForm::flag(LineOption::Fulldate, b"FULLDATE", 3),
    ]
}

// X name [mode] number, the mode A where it isn't given with the number.
fn read(alloc: Global, words: &Tokens) -> Result<ChosenOptions<LineOption>, CommandFault> {
    let operands = operands(words.as_slice());
    name(1, needed(operands, 1)?)?;
    reading_mode(2, given_or(operands, 2, &[A]))?;
    number(1, 100, 3, needed(operands, 3)?)?;
    ended(operands, 4)?;
    chosen_options(alloc, &forms(), words)
}

/// Adds the text of a message.
pub fn push_message<R: Abort>(into: &mut Report, rt: &R, alloc: Global, message: Message) {
    let mut text = Vec::new(alloc);
    write_message(&mut text, &message).expect(rt, "memory");
    drop(message);
    into.ascii(&text)
}

// What is typed, and the code.
fn tell_refusal<R: Abort>(into: &mut Report, rt: &R, alloc: Global, words: &Tokens, why: Refusal) {
    let code = why.code();
    let message = why.message(alloc, words.as_slice()).expect(rt, "memory");
    push_message(into, rt, alloc, message);
    into.push(' ');
    into.value(&code)
}

fn tell_setting(into: &mut Report, setting: Setting) {
    match setting {
        Setting::Nothing => {}
        Setting::Number(number) => write!(into, "={number}"),
        Setting::Byte(byte) => write!(into, "=X'{byte:02X}'"),
        Setting::Format(format) => write!(into, "={format:?}"),
        Setting::Columns(first, last) => write!(into, "={first}-{last}"),
    }
}

// The options that a line chooses, or what is typed.
fn tell_line<R: Abort>(into: &mut Report, rt: &R, alloc: Global, words: &Tokens) {
    match read(alloc, words) {
        Ok(options) => {
            into.push_str("chosen:");
            for chosen in options.as_slice() {
                write!(into, " {:?}", chosen.option);
                tell_setting(into, chosen.setting);
            }
        }
        Err(CommandFault::Refused(why)) => tell_refusal(into, rt, alloc, words, why),
        Err(CommandFault::Memory) => into.push_str("no memory"),
    }
}

// A command by its word, in full.
fn word_of(command: CommandName) -> &'static str {
    match command {
        CommandName::Access => "ACCESS",
        CommandName::Release => "RELEASE",
        CommandName::Format => "FORMAT",
        CommandName::Century => "CENTURY",
        CommandName::Query => "QUERY",
        CommandName::Listfile => "LISTFILE",
        CommandName::Copyfile => "COPYFILE",
        CommandName::Rename => "RENAME",
        CommandName::Erase => "ERASE",
        CommandName::TypeFile => "TYPE",
        CommandName::State => "STATE",
        CommandName::Execio => "EXECIO",
        CommandName::Exec => "EXEC",
        CommandName::Nucxdrop => "NUCXDROP",
        CommandName::Nucxmap => "NUCXMAP",
        CommandName::Punch => "PUNCH",
        CommandName::Readcard => "READCARD",
        CommandName::Disk => "DISK",
    }
}

fn tell_command(into: &mut Report, word: &[u8]) {
    match command_named(word) {
        Some(command) => into.push_str(word_of(command)),
        None => into.push_str("no command"),
    }
}

fn tell_read(into: &mut Report, mode: ReadMode) {
    match mode {
        ReadMode::Any => into.push_str("any"),
        ReadMode::Letter(letter) => write!(into, "letter {letter}"),
        ReadMode::Numbered(letter, number) => write!(into, "letter {letter}, number {number}"),
    }
}

fn tell_written(into: &mut Report, mode: Option<WriteMode>) {
    match mode {
        Some(mode) => write!(into, "letter {}, number {:?}", mode.letter, mode.number),
        None => into.push_str("None"),
    }
}

fn tell_accessed(into: &mut Report, mode: AccessMode) {
    write!(
        into,
        "letter {}, behind the stroke {:?}",
        mode.letter, mode.ext
    )
}

fn tell_target(into: &mut Report, target: Target) {
    match target {
        Target::Device(device) => write!(into, "device {device:03X}"),
        Target::Letter(letter) => write!(into, "letter {letter}"),
    }
}

// What a word is by its kind, where it is taken.
fn tell_word(into: &mut Report, kind: &str, place: usize, word: &[u8]) -> Result<(), Refusal> {
    match kind {
        "name or all" => into.value(&name_or_all(place, word)?),
        "name or same" => into.value(&name_or_same(place, word)?),
        "reading mode" => tell_read(into, reading_mode(place, word)?),
        "writing mode" => tell_written(into, Some(writing_mode(place, word)?)),
        "output mode" => tell_written(into, output_mode(place, word)?),
        _ => return tell_other_word(into, kind, place, word),
    }
    Ok(())
}

fn tell_other_word(
    into: &mut Report,
    kind: &str,
    place: usize,
    word: &[u8],
) -> Result<(), Refusal> {
    match kind {
        "pattern" => {
            pattern(place, word)?;
            into.push_str("a pattern")
        }
        "letter or all" => into.value(&letter_or_all(place, word)?),
        "number or all" => into.value(&number_or_all(0, 9, place, word)?),
        "device or letter" => tell_target(into, device_or_letter(place, word)?),
        "access mode" => tell_accessed(into, access_mode(place, word)?),
        _ => into.push_str("no kind"),
    }
    Ok(())
}

// What a line's last word is by its kind, or what is typed.
fn tell_last_word<R: Abort>(into: &mut Report, rt: &R, alloc: Global, kind: &str, words: &Tokens) {
    let place = words.len().saturating_sub(1);
    let word = match words.get(place) {
        Some(token) => token.text.bytes(),
        None => &[],
    };
    if let Err(why) = tell_word(into, kind, place, word) {
        tell_refusal(into, rt, alloc, words, why)
    }
}

/// Tells what a case comes to.
pub fn tell<R: Abort>(into: &mut Report, rt: &R, alloc: Global, case: &str) {
    let (kind, text) = case.split_once("/").unwrap_or((case, ""));
    match kind {
        "line" => tell_line(into, rt, alloc, &words_of(rt, alloc, text)),
        "command" => tell_command(into, &coded(rt, alloc, text)),
        _ => tell_last_word(into, rt, alloc, kind, &words_of(rt, alloc, text)),
    }
}

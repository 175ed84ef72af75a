// TYPE.
ghost use Rattle.std.specs.Prelude.{◌≡◌, ◌≤◌, ◌-◌, drop, take, true, List, Some, IfOk};
ghost use Rattle.cms_fields.specs.Moments.{is_moment};
ghost use Rattle.cms_line.specs.declared.token.Token.{Token};
ghost use Rattle.cms_operands.specs.Choices.{AnswersLine};
ghost use Rattle.cms_search.specs.Calls.{Acts, Does, IsUsable, course_of, itself, machine_of, spot};
ghost use Rattle.cms_world.specs.Seen.{seen};
ghost use Rattle.cms_files.specs.OpenFiles.{IsOpened};
ghost use Rattle.cms_files.specs.Told.{IsFoundAt, info_named};
ghost use Rattle.cms_fileops.specs.TypeCommand as spec;

use cms_disk::FileInfo;
use cms_files::{
    FileInput, OpenFile, consume_last, file_input, info_found, open_found, refuse_unfound,
};
use cms_line::{Token, Tokens};
use cms_operands::{
    ChosenOption, CommandFault, LARGEST, OptionForm, Parameter, Refusal, Setting, chosen_options,
    ended, given_number_or_all, number_or, operands,
};
use cms_search::{
    Course, End, Found, State, hexadecimal_digit, refuse_command, refuse_line, refuse_unread, say,
};
use cms_world::World;
use std::alloc::{AllocError, Global};

/// The bytes of a record that are typed: from the first column, at least 1, to the last, at least the first.
#[derive(Clone, Copy)]
pub struct ColumnRange {
    pub first: u32,
    pub last: u32,
}

/// What TYPE's operands say: a file, and its records that are typed, from 1; without a last one all to the end.
#[derive(Clone, Copy)]
pub struct TypeRange {
    pub input: FileInput,
    pub first: u32,
    pub last: Option<u32>,
}

/// An option of TYPE.
#[derive(Clone, Copy)]
pub enum TypeOption {
    Hex,
    /// COL a-b
    Col,
}

/// How a record is typed.
#[derive(Clone, Copy)]
pub struct TypeStyle {
    /// two digits a byte
    pub hexadecimal: bool,
    /// or whole
    pub columns: Option<ColumnRange>,
}

/// What TYPE's line says.
#[derive(Clone, Copy)]
pub struct TypeLine {
    pub range: TypeRange,
    pub style: TypeStyle,
}

#[tactic(auto, unfolding(crate::specs::TypeCommand::type_operands))]
fn type_operands(operands: &[Token]) -> Result<TypeRange, Refusal>
    ensures { result ≡ spec.type_operands operands.now }
{
    let input = file_input(operands, 1)?;
    let first = number_or(1, LARGEST, operands, 4, 1)?;
    let last = given_number_or_all(first, LARGEST, operands, 5)?;
    ended(operands, 6)?;
    Ok(TypeRange { input, first, last })
}

fn options() -> [OptionForm<TypeOption>; 2]
    ensures { result ≡ spec.options }
{
    [
        OptionForm::flag(TypeOption::Hex, b"HEX     ", 3),
        OptionForm::new(TypeOption::Col, b"COL     ", 3, Parameter::Columns),
    ]
}

// The columns that a parameter says.
fn columns_in(setting: Setting) -> Option<ColumnRange>
    ensures { result ≡ spec.columns_in setting }
{
    match setting {
        Setting::Columns(first, last) => Some(ColumnRange { first, last }),
        _ => None,
    }
}

// How records are typed, by one option more.
fn style_with(style: TypeStyle, chosen: &ChosenOption<TypeOption>) -> TypeStyle
    ensures { result ≡ spec.style_with style chosen.now }
{
    match chosen.option {
        TypeOption::Hex => TypeStyle {
            hexadecimal: true,
            ..style
        },
        TypeOption::Col => TypeStyle {
            columns: columns_in(chosen.setting),
            ..style
        },
    }
}

// How the options say that records are typed: as they are and whole, unless one says more.
fn style_of(chosen: &[ChosenOption<TypeOption>]) -> TypeStyle
    ensures { result ≡ spec.style_of chosen.now }
{
    let plain = TypeStyle {
        hexadecimal: false,
        columns: None,
    };
    chosen.iter().fold(plain, style_with)
}

/// What TYPE's line says, or why it is refused.
pub fn type_line(alloc: Global, words: &Tokens) -> Result<TypeLine, CommandFault>
    ensures { AnswersLine (spec.type_line words.now) result }
{
    let range = type_operands(operands(words.as_slice()))?;
    let chosen = chosen_options(alloc, &options(), words)?;
    Ok(TypeLine {
        range,
        style: style_of(chosen.as_slice()),
    })
}

impl ColumnRange {
    // The bytes of a record in these columns.
    fn of<'a>(&self, text: &'a [u8]) -> &'a [u8]
        ensures { result.now ≡ drop (self.now.first - 1) (take self.now.last text.now) }
    {
        let front = &text[..text.len().min(self.last as usize)];
        let before = front.len().min(self.first.saturating_sub(1) as usize);
        &front[before..]
    }
}

impl TypeRange {
    // How many of so many records are read: to the last that is typed, at most to the end.
    fn wanted(&self, count: u32) -> u32
        ensures { result ≡ spec.wanted_of self.now count }
    {
        match self.last {
            Some(last) => last.min(count),
            None => count,
        }
    }
}

impl TypeStyle {
    // The bytes of a record that are typed.
    fn columns_of<'a>(&self, text: &'a [u8]) -> &'a [u8]
        ensures { result.now ≡ spec.columns_of self.now.columns text.now }
    {
        match self.columns {
            Some(columns) => columns.of(text),
            None => text,
        }
    }
}

// Two upper-case hexadecimal digits a byte.
fn in_digits(alloc: Global, text: &[u8]) -> Result<Vec<u8>, AllocError>
    ensures { IfOk result (λ digits. digits.items ≡ spec.in_digits text.now) }
{
    let mut digits = Vec::new(alloc);
    for byte in text {
        digits.push(hexadecimal_digit(*byte / 16))?;
        digits.push(hexadecimal_digit(*byte % 16))?;
    }
    Ok(digits)
}

// Types the nth record from 1, where it isn't in front of the first that is typed.
fn type_nth<W: World>(
    alloc: Global,
    world: &mut W,
    line: &TypeLine,
    nth: u32,
    text: &[u8],
) -> Result<(), End>
    ensures { Does (seen W.World world.old) (seen W.World world.new)
        (spec.typed_nth line.now nth text.now) result itself }
{
    if nth < line.range.first {
        return Ok(());
    }
    let columns = line.style.columns_of(text);
    if line.style.hexadecimal {
        say(world, &in_digits(alloc, columns)?)
    } else {
        say(world, columns)
    }
}

// Types the records of a file on the disk of a letter, of which this is told, each as it is handed out; the first that is typed is there.
// Where the last is the file's, that may erase it.
fn type_records<W: World>(
    alloc: Global,
    world: &mut W,
    state: &mut State,
    letter: u8,
    info: &FileInfo,
    file: OpenFile,
    line: &TypeLine,
) -> Result<Course, End>
    requires usable { IsUsable (spot W.World world.old state.old) }
    requires moment { is_moment state.old.moment ≡ true }
    requires told { Some info.now
        ≡ info_named state.old.table letter line.now.range.input.name }
    requires opened { IsOpened state.old.table letter line.now.range.input.name file }
    requires first { line.now.range.first ≤ file.count }
    ensures acts { (words : List Token)
        → Acts (spot W.World world.old state.old) (spot W.World world.new state.new)
        (λ units. spec.type_on (machine_of state.old units) words line.now letter) result
        (course_of state.new) }
    ensures kept { state.new ≡ record state.old {
      table = state.new.table;
      places = state.new.places;
    } }
{
    let vdev = file.vdev;
    let count = file.count;
    let last = line.range.wanted(count);
    let mut cursor = file.cursor;
    for nth in 0..last {
        match cursor.next(world) {
            Ok(_) => type_nth(alloc, world, line, nth + 1, cursor.text())?,
            Err(fault) => {
                drop(cursor);
                return refuse_unread(alloc, world, vdev, fault);
            }
        }
    }
    drop(cursor);
    if last < count {
        return Ok(Course::Went(0));
    }
    consume_last(alloc, world, state, letter, &line.range.input.name, info)
}

// Types the file of the line's name, which a search found.
fn type_on<W: World>(
    alloc: Global,
    world: &mut W,
    state: &mut State,
    words: &Tokens,
    line: &TypeLine,
    found: Found,
) -> Result<Course, End>
    requires usable { IsUsable (spot W.World world.old state.old) }
    requires moment { is_moment state.old.moment ≡ true }
    requires found { IsFoundAt state.old.table found line.now.range.input.name }
    ensures acts { Acts (spot W.World world.old state.old) (spot W.World world.new state.new)
        (λ units. spec.type_on (machine_of state.old units) words.now line.now found.letter)
        result
        (course_of state.new) }
    ensures kept { state.new ≡ record state.old {
      table = state.new.table;
      places = state.new.places;
    } }
{
    let info = info_found(&state.table, found).unwrap();
    let file = open_found(alloc, &state.table, found, &info)?;
    if file.count < line.range.first {
        drop(file);
        return refuse_line(alloc, world, words.as_slice(), Refusal::BadOperand(4));
    }
    type_records(alloc, world, state, found.letter, &info, file, line)
}

// Types the file that the line says.
fn type_file<W: World>(
    alloc: Global,
    world: &mut W,
    state: &mut State,
    words: &Tokens,
    line: &TypeLine,
) -> Result<Course, End>
    requires usable { IsUsable (spot W.World world.old state.old) }
    requires moment { is_moment state.old.moment ≡ true }
    ensures acts { Acts (spot W.World world.old state.old) (spot W.World world.new state.new)
        (λ units. spec.type_file (machine_of state.old units) words.now line.now) result
        (course_of state.new) }
    ensures kept { state.new ≡ record state.old {
      table = state.new.table;
      places = state.new.places;
    } }
{
    let input = &line.range.input;
    match state.table.find_read(&input.name, &input.mode) {
        Ok(found) => type_on(alloc, world, state, words, line, found),
        Err(fault) => refuse_unfound(alloc, world, words, 1, fault),
    }
}

/// TYPE: the records of a file, each as it is handed out. A file of mode number 3 is erased once its last record was typed.
pub fn run_type<W: World>(
    alloc: Global,
    world: &mut W,
    state: &mut State,
    words: &Tokens,
) -> Result<Course, End>
    requires usable { IsUsable (spot W.World world.old state.old) }
    requires moment { is_moment state.old.moment ≡ true }
    ensures acts { Acts (spot W.World world.old state.old) (spot W.World world.new state.new)
        (λ units. spec.type_command (machine_of state.old units) words.now) result
        (course_of state.new) }
    ensures kept { state.new ≡ record state.old {
      table = state.new.table;
      places = state.new.places;
    } }
{
    match type_line(alloc, words) {
        Ok(line) => type_file(alloc, world, state, words, &line),
        Err(fault) => refuse_command(alloc, world, words, fault),
    }
}

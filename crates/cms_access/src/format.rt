// FORMAT.
ghost use Rattle.cms_operands.specs.Choices.{AnswersLine};
ghost use Rattle.std.specs.Prelude.{◌≡◌, ◌≤◌, ◌<◌, true, false, Some, None, Ok, IfOk, pos};
ghost use Rattle.cms_search.specs.Shows.{devices_of, device_of};
ghost use Rattle.cms_access.specs.Format as spec;
ghost use Rattle.cms_fields.specs.Moments.{is_moment};
ghost use Rattle.cms_model.specs.Acts.{saying, typed_line};
ghost use Rattle.cms_line.specs.Messages.{message_text};
ghost use Rattle.cms_line.specs.declared.message.Message.TheVariants.{M114, M115, M603};
ghost use Rattle.cms_search.specs.Calls.{Acts, Does, IsUsable, course_of, machine_of, said, spot};
ghost use Rattle.cms_search.specs.Machine.{letter_at};
ghost use Rattle.cms_search.specs.Refusals.{no_disk};
ghost use Rattle.cms_search.specs.Searches.{item_at};
ghost use Rattle.cms_search.specs.Tables.{letters_of, unit_of_device, writing};
ghost use Rattle.cms_search.specs.Talks.{asked_of};
ghost use Rattle.cms_search.specs.Texts.{device_text, letter_text};
ghost use Rattle.cms_search.specs.declared.state.Course.TheVariants.{Went};
ghost use Rattle.cms_world.specs.Seen.{seen};
ghost use Rattle.cms_access.specs.EmptyVolume.{MayRemake, is_marked};
ghost use Rattle.cms_access.specs.Questions.{question_tree};

use crate::empty_volume::remake_disk;
use crate::questions::{Label, ask_label, goes_on, question, reply};
use cms_disk::UnitInfo;
use cms_edf::Change;
use cms_line::{Message, Token, Tokens};
use cms_operands::{
    ChosenOption, CommandFault, LARGEST, OptionForm, Parameter, Refusal, chosen_options, device,
    ended, letter, needed, operands,
};
use cms_search::{
    AccessTable, Asked, Course, End, NO_DISK, State, change_disk, device_word, letter_word, refuse,
    refuse_command, refuse_no_device, refuse_not_accessed, refuse_read_only, tell_change,
};
use cms_world::World;
use std::alloc::Global;

/// What FORMAT's operands say: a device, and the letter as which its volume is accessed then, A is 0.
#[derive(Clone, Copy)]
pub struct FormatLine {
    pub vdev: u16,
    pub letter: u8,
}

/// An option of FORMAT.
#[derive(Clone, Copy)]
pub enum FormatOption {
    Label,
    /// BLKSIZE n
    Blksize,
}

/// What FORMAT's line says.
#[derive(Clone, Copy)]
pub struct Formatting {
    pub line: FormatLine,
    /// only the volume id is changed
    pub relabels: bool,
}

// What the operands of FORMAT's line say, the words in front of its options, or why the first of them is refused that is.
#[tactic(auto, unfolding(crate::specs::Format::format_operands))]
fn format_operands(operands: &[Token]) -> Result<FormatLine, Refusal>
    ensures { result ≡ spec.format_operands operands.now }
{
    let vdev = device(1, needed(operands, 1)?)?;
    let letter = letter(2, needed(operands, 2)?)?;
    ended(operands, 3)?;
    Ok(FormatLine { vdev, letter })
}

// What BLKSIZE takes: a number, and where a unit has the device its block size alone.
fn block_size(bsize: Option<u32>) -> Parameter
    ensures { result ≡ spec.block_size bsize }
{
    match bsize {
        None => Parameter::Number(0, LARGEST),
        Some(bsize) => Parameter::Number(bsize, bsize),
    }
}

fn options(bsize: Option<u32>) -> [OptionForm<FormatOption>; 2]
    ensures { result ≡ spec.options bsize }
{
    [
        OptionForm::flag(FormatOption::Label, b"LABEL   ", 5),
        OptionForm::new(FormatOption::Blksize, b"BLKSIZE ", 7, block_size(bsize)),
    ]
}

// Whether only the volume id is changed, by one option more.
fn relabels_with(relabels: bool, chosen: &ChosenOption<FormatOption>) -> bool
    ensures { result ≡ spec.relabels_with relabels chosen.now }
{
    match chosen.option {
        FormatOption::Label => true,
        FormatOption::Blksize => relabels,
    }
}

// Whether LABEL is among the options.
fn relabels_of(chosen: &[ChosenOption<FormatOption>]) -> bool
    ensures { result ≡ spec.relabels_of chosen.now }
{
    chosen.iter().fold(false, relabels_with)
}

// Whether FORMAT's line asks that only the volume id is changed, or why an option is refused, where the device has this block size,
// or no unit has it.
fn relabels(alloc: Global, bsize: Option<u32>, words: &Tokens) -> Result<bool, CommandFault>
    ensures { AnswersLine (spec.relabels bsize words.now) result }
{
    let chosen = chosen_options(alloc, &options(bsize), words)?;
    Ok(relabels_of(chosen.as_slice()))
}

// The block size of a device, where a unit has it.
fn size_of(table: &AccessTable, vdev: u16) -> Option<u32>
    ensures { result ≡ spec.size_of (devices_of table.now) vdev }
{
    Some(table.unit(vdev)?.bsize.bytes())
}

/// What FORMAT's line says, or why it is refused; BLKSIZE takes the block size of the device alone, where a unit has it.
pub fn format_line(
    alloc: Global,
    table: &AccessTable,
    words: &Tokens,
) -> Result<Formatting, CommandFault>
    ensures { AnswersLine (spec.format_line (devices_of table.now) words.now) result }
{
    let line = format_operands(operands(words.as_slice()))?;
    let relabels = relabels(alloc, size_of(table, line.vdev), words)?;
    Ok(Formatting { line, relabels })
}

// The fewest blocks of a unit on which a volume is made.
const LEAST: u32 = 8;

// The return code where the command isn't to go on.
const NOT_GONE_ON: i32 = 8;

// Types that a device is in doubt, and gives the code.
fn refuse_doubt<W: World>(alloc: Global, world: &mut W, vdev: u16) -> Result<Course, End>
    ensures does { Does (seen W.World world.old) (seen W.World world.new)
        (saying (typed_line (message_text (M115 (device_text vdev))))) result said }
    ensures went { IfOk result (λ course. course ≡ Went (pos no_disk)) }
{
    let device = device_word(alloc, vdev)?;
    refuse(alloc, world, Message::M115(device), NO_DISK)
}

// Types that a device is too small, and gives the code.
fn refuse_small<W: World>(alloc: Global, world: &mut W, vdev: u16) -> Result<Course, End>
    ensures does { Does (seen W.World world.old) (seen W.World world.new)
        (saying (typed_line (message_text (M114 (device_text vdev))))) result said }
    ensures went { IfOk result (λ course. course ≡ Went (pos no_disk)) }
{
    let device = device_word(alloc, vdev)?;
    refuse(alloc, world, Message::M114(device), NO_DISK)
}

// Gives the volume of a letter another volume id.
fn relabel_as<W: World>(
    alloc: Global,
    world: &mut W,
    state: &mut State,
    letter: u8,
    volid: [u8; 6],
) -> Result<Course, End>
    requires usable { IsUsable (spot W.World world.old state.old) }
    requires writing { writing (item_at (letters_of state.old.table) letter) letter ≡ Ok tt }
    requires moment { is_moment state.old.moment ≡ true }
    ensures acts { Acts (spot W.World world.old state.old) (spot W.World world.new state.new)
        (λ units. spec.relabelling letter (machine_of state.old units) volid) result
        (course_of state.new) }
    ensures kept { state.new ≡ record state.old {
      table = state.new.table;
      places = state.new.places;
    } }
{
    let changed = change_disk(alloc, world, state, letter, &Change::Relabel { volid })?;
    tell_change(alloc, world, state, letter, changed)
}

// Asks for a volume id, and gives it to the volume of an accessed letter.
fn relabel_disk<W: World>(
    alloc: Global,
    world: &mut W,
    state: &mut State,
    letter: u8,
) -> Result<Course, End>
    requires usable { IsUsable (spot W.World world.old state.old) }
    requires writing { writing (item_at (letters_of state.old.table) letter) letter ≡ Ok tt }
    requires moment { is_moment state.old.moment ≡ true }
    ensures acts { Acts (spot W.World world.old state.old) (spot W.World world.new state.new)
        (λ units. spec.asking_relabel letter (machine_of state.old units)) result
        (course_of state.new) }
    ensures moment { state.new.moment ≡ state.old.moment }
    ensures offset { state.new.offset ≡ state.old.offset }
    ensures left { state.new.left ≤ state.old.left }
{
    match ask_label(alloc, world, state)? {
        Label::Given(volid) => relabel_as(alloc, world, state, letter, volid),
        Label::Ended(course) => Ok(course),
    }
}

// The volume id of a device that isn't in doubt is changed.
fn relabel<W: World>(
    alloc: Global,
    world: &mut W,
    state: &mut State,
    line: FormatLine,
) -> Result<Course, End>
    requires usable { IsUsable (spot W.World world.old state.old) }
    requires moment { is_moment state.old.moment ≡ true }
    ensures acts { Acts (spot W.World world.old state.old) (spot W.World world.new state.new)
        (λ units. spec.relabel (machine_of state.old units) line
        (letter_at (machine_of state.old units) line.letter))
        result (course_of state.new) }
    ensures moment { state.new.moment ≡ state.old.moment }
    ensures offset { state.new.offset ≡ state.old.offset }
    ensures left { state.new.left ≤ state.old.left }
{
    let Some(seat) = state.table.seat(line.letter) else {
        return refuse_not_accessed(alloc, world, line.letter);
    };
    if seat.vdev != line.vdev {
        return refuse_not_accessed(alloc, world, line.letter);
    }
    if seat.read_only {
        return refuse_read_only(alloc, world, line.letter);
    }
    relabel_disk(alloc, world, state, line.letter)
}

// Asks for a volume id, and makes the volume.
fn erase<W: World>(
    alloc: Global,
    world: &mut W,
    state: &mut State,
    line: FormatLine,
    unit: &UnitInfo,
) -> Result<Course, End>
    requires usable { IsUsable (spot W.World world.old state.old) }
    requires may { MayRemake state.old line unit.now }
    requires moment { is_moment state.old.moment ≡ true }
    ensures acts { Acts (spot W.World world.old state.old) (spot W.World world.new state.new)
        (λ units. spec.erasing line (machine_of state.old units)) result (course_of state.new) }
    ensures moment { state.new.moment ≡ state.old.moment }
    ensures offset { state.new.offset ≡ state.old.offset }
    ensures left { state.new.left ≤ state.old.left }
{
    match ask_label(alloc, world, state)? {
        Label::Given(volid) => remake_disk(alloc, world, state, line, unit, volid),
        Label::Ended(course) => Ok(course),
    }
}

// Types the first question, and asks for a line.
fn ask_whether<W: World>(
    alloc: Global,
    world: &mut W,
    state: &mut State,
    line: FormatLine,
) -> Result<Asked, End>
    ensures acts { Acts (spot W.World world.old state.old) (spot W.World world.new state.new)
        (question_tree state.old (M603 (letter_text line.letter) (device_text line.vdev))) result
        (asked_of state.new) }
    ensures kept { state.new ≡ record state.old {
      stack = state.new.stack;
      console = state.new.console;
      left = state.new.left;
    } }
    ensures left { state.new.left ≤ state.old.left }
{
    let letter = letter_word(alloc, line.letter)?;
    let device = device_word(alloc, line.vdev)?;
    question(alloc, world, state, Message::M603(letter, device))
}

// Asks whether all files are to be erased, and erases them where they are.
fn ask_first<W: World>(
    alloc: Global,
    world: &mut W,
    state: &mut State,
    line: FormatLine,
    unit: &UnitInfo,
) -> Result<Course, End>
    requires usable { IsUsable (spot W.World world.old state.old) }
    requires may { MayRemake state.old line unit.now }
    requires moment { is_moment state.old.moment ≡ true }
    ensures acts { Acts (spot W.World world.old state.old) (spot W.World world.new state.new)
        (λ units. spec.asking_first (machine_of state.old units) line (spec.erasing line)) result
        (course_of state.new) }
    ensures moment { state.new.moment ≡ state.old.moment }
    ensures offset { state.new.offset ≡ state.old.offset }
    ensures left { state.new.left ≤ state.old.left }
{
    let given = match ask_whether(alloc, world, state, line)? {
        Asked::Given(given) => given,
        Asked::Spent => return Ok(Course::OutOfTurns),
    };
    let text = reply(alloc, &given)?;
    if !goes_on(text.bytes()) {
        return Ok(Course::Went(NOT_GONE_ON));
    }
    erase(alloc, world, state, line, unit)
}

// A volume is made on a unit that isn't in doubt.
fn format_unit<W: World>(
    alloc: Global,
    world: &mut W,
    state: &mut State,
    line: FormatLine,
    unit: &UnitInfo,
) -> Result<Course, End>
    requires usable { IsUsable (spot W.World world.old state.old) }
    requires unit { unit_of_device line.vdev state.old.table.units ≡ Some unit.now }
    requires sure { is_marked line.vdev state.old.table ≡ false }
    requires letter { line.letter < 26 }
    requires moment { is_moment state.old.moment ≡ true }
    ensures acts { Acts (spot W.World world.old state.old) (spot W.World world.new state.new)
        (λ units. spec.formatting (machine_of state.old units) line (device_of unit.now)) result
        (course_of state.new) }
    ensures moment { state.new.moment ≡ state.old.moment }
    ensures offset { state.new.offset ≡ state.old.offset }
    ensures left { state.new.left ≤ state.old.left }
{
    if !unit.writable {
        return refuse_read_only(alloc, world, line.letter);
    }
    if unit.unit.blocks < LEAST {
        return refuse_small(alloc, world, line.vdev);
    }
    ask_first(alloc, world, state, line, unit)
}

// What the line asks for is done.
fn format_disk<W: World>(
    alloc: Global,
    world: &mut W,
    state: &mut State,
    asked: Formatting,
) -> Result<Course, End>
    requires usable { IsUsable (spot W.World world.old state.old) }
    requires letter { asked.line.letter < 26 }
    requires moment { is_moment state.old.moment ≡ true }
    ensures acts { Acts (spot W.World world.old state.old) (spot W.World world.new state.new)
        (λ units. spec.format_disk (machine_of state.old units) asked) result
        (course_of state.new) }
    ensures moment { state.new.moment ≡ state.old.moment }
    ensures offset { state.new.offset ≡ state.old.offset }
    ensures left { state.new.left ≤ state.old.left }
{
    let line = asked.line;
    let Some(unit) = state.table.unit(line.vdev).copied() else {
        return refuse_no_device(alloc, world, line.vdev);
    };
    if state.table.in_doubt(line.vdev) {
        return refuse_doubt(alloc, world, line.vdev);
    }
    if asked.relabels {
        relabel(alloc, world, state, line)
    } else {
        format_unit(alloc, world, state, line, &unit)
    }
}

/// FORMAT: an empty volume is made on a device and accessed as a letter, or only the volume id of an accessed device is changed.
///
/// The turn's moment, and by how much civil time is ahead of UTC, stay.
pub fn run_format<W: World>(
    alloc: Global,
    world: &mut W,
    state: &mut State,
    words: &Tokens,
) -> Result<Course, End>
    requires usable { IsUsable (spot W.World world.old state.old) }
    requires moment { is_moment state.old.moment ≡ true }
    ensures acts { Acts (spot W.World world.old state.old) (spot W.World world.new state.new)
        (λ units. spec.format (machine_of state.old units) words.now) result (course_of state.new) }
    ensures moment { state.new.moment ≡ state.old.moment }
    ensures offset { state.new.offset ≡ state.old.offset }
    ensures left { state.new.left ≤ state.old.left }
{
    match format_line(alloc, &state.table, words) {
        Ok(asked) => format_disk(alloc, world, state, asked),
        Err(fault) => refuse_command(alloc, world, words, fault),
    }
}

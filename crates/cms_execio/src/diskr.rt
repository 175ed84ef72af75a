// DISKR: records of a file are stacked.
ghost use Rattle.std.specs.Prelude.{◌≡◌, ◌+◌, ◌-◌, ◌++◌, ◌==◌, ◌&&◌, ◌<◌, ◌≤◌, ◌^◌, IfOk, IsSome, List, Ok, OnOk, Some, false, length, nat_lt, pos, true};
ghost use Rattle.std.specs.Option.{ForSome};
ghost use Rattle.cms_disk.specs.Disks.{place_of};
ghost use Rattle.cms_fields.specs.Moments.{is_moment};
ghost use Rattle.cms_search.specs.Searches.{item_at};
ghost use Rattle.cms_search.specs.Tables.{letters_of, writing};
ghost use Rattle.cms_search.specs.declared.state.Course.TheVariants.{Went};
ghost use Rattle.cms_line.specs.declared.token.Token.{Token};
ghost use Rattle.cms_search.specs.Calls.{Acts, IsUsable, course_of, machine_of, spot};
ghost use Rattle.cms_files.specs.Files.{file_found};
ghost use Rattle.cms_files.specs.OpenFiles.{IsOpened};
ghost use Rattle.cms_files.specs.StackedLines.{StacksSome};
ghost use Rattle.cms_files.specs.Told.{IsFoundAt, info_named};
ghost use Rattle.cms_execio.specs.Diskr as spec;
ghost use Rattle.cms_execio.specs.Diskr.{StacksRead, lines_on, lines_read};
ghost use Rattle.cms_execio.specs.Starts.{GoesOnBehind};

use crate::line::ReadLine;
use crate::place::{code_of_taken, go_on, in_front, taken_of};
use crate::record::stacked_line;
use crate::start::{keep_behind, start_at};
use cms_disk::FileInfo;
use cms_edf::Change;
use cms_files::{
    OpenFile, Updated, info_found, is_consumed, open_found, refuse_unfound, stack_lines,
    update_disk,
};
use cms_line::{Lines, Tokens};
use cms_search::{Course, End, Found, Places, State, refuse_unread};
use cms_world::World;
use std::alloc::{AllocError, Global};

// Which records are stacked.
#[derive(Clone, Copy)]
struct Span {
    /// how many stand in front of them
    front: u32,
    taken: u32,
    /// the file's last is among them
    last: bool,
}

impl Span {
    // The records of a file that the line says.
    fn of(places: &Places, line: &ReadLine, file: &OpenFile) -> Span
        ensures front { result.front ≡ spec.in_front places.now line.now.range file.now.vdev }
        ensures taken { result.taken ≡ spec.taken_of line.now.range.count
            (file.now.count - result.front) }
        ensures few { result.taken ≤ file.now.count - result.front }
        ensures fits { result.front + result.taken < 2 ^ 32 }
        ensures last { result.last ≡
            (nat_lt 0 result.taken && (result.front + result.taken == file.now.count)) }
    {
        let front = in_front(places, &line.range, file.vdev);
        let taken = taken_of(line.range.count, file.count.saturating_sub(front));
        Span {
            front,
            taken,
            last: taken > 0 && front + taken == file.count,
        }
    }
}

// Keeps the line of a record that has so many in front of it, where it isn't one in front of those that are stacked.
fn keep_nth(
    alloc: Global,
    lines: &mut Lines,
    line: &ReadLine,
    front: u32,
    nth: u32,
    text: &[u8],
) -> Result<(), AllocError>
    ensures { OnOk result (lines.new
        ≡ lines.old ++ spec.line_of_nth line.now.style.strips front nth text.now) }
{
    if nth < front {
        return Ok(());
    }
    lines.push(stacked_line(alloc, text, line.style.strips)?)?;
    Ok(())
}

// Whether a part of the command came to code 0.
fn went_well(course: Course) -> bool
    ensures good { result ≡ true → course ≡ Went (pos 0) }
    ensures other { result ≡ false → course ≡ Went (pos 0) → ⊥ }
{
    match course {
        Course::Went(code) => code == 0,
        Course::OutOfTurns => false,
    }
}

// How the command ends, by what it was asked for and what it took.
fn course_behind(count: Option<u32>, taken: u32) -> Course
    ensures { result ≡ Went (pos (spec.code_of_taken count taken)) }
{
    Course::Went(code_of_taken(count, taken))
}

// The file goes, as the last thing of the command, which stacked so many of its records. No reading place is kept in it then.
fn erase_read<W: World>(
    alloc: Global,
    world: &mut W,
    state: &mut State,
    letter: u8,
    line: &ReadLine,
    taken: u32,
) -> Result<Course, End>
    requires usable { IsUsable (spot W.World world.old state.old) }
    requires moment { is_moment state.old.moment ≡ true }
    requires writing { writing (item_at (letters_of state.old.table) letter) letter ≡ Ok tt }
    requires there { ForSome (item_at state.old.table.seats letter)
        (λ s. IsSome (place_of line.now.range.input.name s.disk.volume)) }
    ensures acts { Acts (spot W.World world.old state.old) (spot W.World world.new state.new)
        (λ units. spec.erase_read line.now letter taken (machine_of state.old units)) result
        (course_of state.new) }
    ensures kept { state.new ≡ record state.old {
      table = state.new.table;
      places = state.new.places;
    } }
{
    let name = &line.range.input.name;
    match update_disk(alloc, world, state, letter, &Change::Drop { name })? {
        Updated::Done => Ok(course_behind(line.range.count, taken)),
        Updated::Stopped(course) => Ok(course),
    }
}

// Ends the command behind the lines that were stacked: a file, of which this is told, whose last record is among them may be erased; else
// reading goes on behind the records.
fn end_read<W: World>(
    alloc: Global,
    world: &mut W,
    state: &mut State,
    letter: u8,
    info: &FileInfo,
    line: &ReadLine,
    vdev: u16,
    span: Span,
) -> Result<Course, End>
    requires usable { IsUsable (spot W.World world.old state.old) }
    requires moment { is_moment state.old.moment ≡ true }
    requires told { Some info.now
        ≡ info_named state.old.table letter line.now.range.input.name }
    requires fits { span.front + span.taken < 2 ^ 32 }
    ensures acts { Acts (spot W.World world.old state.old) (spot W.World world.new state.new)
        (λ units. spec.read_done line.now letter vdev span.last span.front span.taken
        (machine_of state.old units)) result
        (course_of state.new) }
    ensures table { span.last ≡ false → state.new.table ≡ state.old.table }
    ensures kept { state.new ≡ record state.old {
      table = state.new.table;
      places = state.new.places;
    } }
{
    let name = &line.range.input.name;
    if span.last && is_consumed(&state.table, letter, info) {
        return erase_read(alloc, world, state, letter, line, span.taken);
    }
    let behind = span.front + span.taken;
    go_on(&mut state.places, line.style.forgets, vdev, name, behind)?;
    Ok(course_behind(line.range.count, span.taken))
}

// Stacks the lines of records of a file on the disk of a letter, of which this is told, all or none, and ends the command.
fn stack_read<W: World>(
    alloc: Global,
    world: &mut W,
    state: &mut State,
    letter: u8,
    info: &FileInfo,
    line: &ReadLine,
    vdev: u16,
    span: Span,
    lines: &Lines,
) -> Result<Course, End>
    requires usable { IsUsable (spot W.World world.old state.old) }
    requires moment { is_moment state.old.moment ≡ true }
    requires told { Some info.now
        ≡ info_named state.old.table letter line.now.range.input.name }
    requires fits { span.front + span.taken < 2 ^ 32 }
    ensures acts { Acts (spot W.World world.old state.old) (spot W.World world.new state.new)
        (λ units. spec.stack_read
        (machine_of state.old units) line.now letter vdev span.last span.front span.taken lines.now)
        result
        (course_of state.new) }
    ensures stack { StacksSome line.now.style.end lines.now state.old.stack state.new.stack }
    ensures table { span.last ≡ false → state.new.table ≡ state.old.table }
    ensures kept { state.new ≡ record state.old {
      table = state.new.table;
      stack = state.new.stack;
      places = state.new.places;
    } }
{
    let course = stack_lines(alloc, world, state, line.style.end, lines)?;
    if !went_well(course) {
        return Ok(course);
    }
    end_read(alloc, world, state, letter, info, line, vdev, span)
}

// Stacks some records of a file on the disk of a letter, once all of them were handed out. The reading that the disk keeps goes on, where it
// stands there; it is kept behind them, where the file has more, and is dropped where a read fails.
fn read_span<W: World>(
    alloc: Global,
    world: &mut W,
    state: &mut State,
    letter: u8,
    info: &FileInfo,
    line: &ReadLine,
    file: OpenFile,
    span: Span,
) -> Result<Course, End>
    requires usable { IsUsable (spot W.World world.old state.old) }
    requires moment { is_moment state.old.moment ≡ true }
    requires told { Some info.now
        ≡ info_named state.old.table letter line.now.range.input.name }
    requires opened { IsOpened state.old.table letter line.now.range.input.name file }
    requires front { span.front ≡ spec.in_front state.old.places line.now.range file.vdev }
    requires taken { span.taken ≡ spec.taken_of line.now.range.count (file.count - span.front) }
    requires some { 1 ≤ span.taken }
    requires last { span.last ≡ (span.front + span.taken == file.count) }
    requires fits { span.front + span.taken < 2 ^ 32 }
    ensures acts { (words : List Token)
        → Acts (spot W.World world.old state.old) (spot W.World world.new state.new)
        (λ units. spec.read_on (machine_of state.old units) words line.now letter) result
        (course_of state.new) }
    ensures stack { StacksRead (spot W.World world.old state.old) state.new line.now
        (λ s. lines_on s line.now letter) }
    ensures goes_on { span.last ≡ false → line.now.style.forgets ≡ false
        → IfOk result (GoesOnBehind state.new.table letter line.now.range.input.name
        (span.front + span.taken)) }
    ensures kept { state.new ≡ record state.old {
      table = state.new.table;
      stack = state.new.stack;
      places = state.new.places;
    } }
{
    let vdev = file.vdev;
    let name = &line.range.input.name;
    let end = span.front + span.taken;
    let kept = state.table.take_reading(letter, name, span.front);
    let start = start_at(kept, file.cursor, file.format, span.front);
    let behind = start.behind;
    let mut cursor = start.cursor;
    let mut lines = Lines::new(alloc);
    for nth in behind..end {
        match cursor.next(world) {
            Ok(_) => keep_nth(alloc, &mut lines, line, span.front, nth, cursor.text())?,
            Err(fault) => {
                drop(cursor);
                return refuse_unread(alloc, world, vdev, fault);
            }
        }
    }
    let drops = span.last || line.style.forgets;
    keep_behind(&mut state.table, letter, name, end, drops, cursor);
    stack_read(alloc, world, state, letter, info, line, vdev, span, &lines)
}

// Stacks the records of a file on the disk of a letter that the line says; where there are none of them the file isn't read.
fn read_records<W: World>(
    alloc: Global,
    world: &mut W,
    state: &mut State,
    letter: u8,
    info: &FileInfo,
    line: &ReadLine,
    file: OpenFile,
) -> Result<Course, End>
    requires usable { IsUsable (spot W.World world.old state.old) }
    requires moment { is_moment state.old.moment ≡ true }
    requires told { Some info.now
        ≡ info_named state.old.table letter line.now.range.input.name }
    requires opened { IsOpened state.old.table letter line.now.range.input.name file }
    ensures acts { (words : List Token)
        → Acts (spot W.World world.old state.old) (spot W.World world.new state.new)
        (λ units. spec.read_on (machine_of state.old units) words line.now letter) result
        (course_of state.new) }
    ensures stack { StacksRead (spot W.World world.old state.old) state.new line.now
        (λ s. lines_on s line.now letter) }
    ensures kept { state.new ≡ record state.old {
      table = state.new.table;
      stack = state.new.stack;
      places = state.new.places;
    } }
{
    let span = Span::of(&state.places, line, &file);
    if span.taken == 0 {
        let vdev = file.vdev;
        drop(file);
        let none = Lines::new(alloc);
        return stack_read(alloc, world, state, letter, info, line, vdev, span, &none);
    }
    read_span(alloc, world, state, letter, info, line, file, span)
}

// Reads the file of the line's name, which a search found.
fn read_on<W: World>(
    alloc: Global,
    world: &mut W,
    state: &mut State,
    line: &ReadLine,
    found: Found,
) -> Result<Course, End>
    requires usable { IsUsable (spot W.World world.old state.old) }
    requires moment { is_moment state.old.moment ≡ true }
    requires found { IsFoundAt state.old.table found line.now.range.input.name }
    ensures acts { (words : List Token)
        → Acts (spot W.World world.old state.old) (spot W.World world.new state.new)
        (λ units. spec.read_on (machine_of state.old units) words line.now found.letter) result
        (course_of state.new) }
    ensures stack { StacksRead (spot W.World world.old state.old) state.new line.now
        (λ s. lines_on s line.now found.letter) }
    ensures kept { state.new ≡ record state.old {
      table = state.new.table;
      stack = state.new.stack;
      places = state.new.places;
    } }
{
    let info = info_found(&state.table, found).unwrap();
    let file = open_found(alloc, &state.table, found, &info)?;
    read_records(alloc, world, state, found.letter, &info, line, file)
}

/// EXECIO's DISKR: records of a file are stacked, all that are wanted or none. A file of mode number 3 is erased once its last record was
/// stacked. Without memory for one of the lines those before it stay stacked.
pub fn disk_read<W: World>(
    alloc: Global,
    world: &mut W,
    state: &mut State,
    words: &Tokens,
    line: &ReadLine,
) -> Result<Course, End>
    requires usable { IsUsable (spot W.World world.old state.old) }
    requires moment { is_moment state.old.moment ≡ true }
    ensures acts { Acts (spot W.World world.old state.old) (spot W.World world.new state.new)
        (λ units. spec.disk_read (machine_of state.old units) words.now line.now) result
        (course_of state.new) }
    ensures stack { StacksRead (spot W.World world.old state.old) state.new line.now
        (λ s. lines_read s line.now (file_found s line.now.range.input)) }
    ensures kept { state.new ≡ record state.old {
      table = state.new.table;
      stack = state.new.stack;
      places = state.new.places;
    } }
{
    let input = &line.range.input;
    match state.table.find_read(&input.name, &input.mode) {
        Ok(found) => read_on(alloc, world, state, line, found),
        Err(fault) => refuse_unfound(alloc, world, words, 3, fault),
    }
}

// DISKW: lines are written into a file.
ghost use Rattle.std.specs.Prelude.{◌≡◌, ◌≤◌, ℕ, List, length, replicate, true, IfOk, None, Ok, Some};
ghost use Rattle.cms_fields.specs.Moments.{is_moment, stamp_of};
ghost use Rattle.cms_fields.specs.Stamps.{is_stamp};
ghost use Rattle.cms_model.specs.Changes.{Add, Put};
ghost use Rattle.cms_names.specs.declared.name.Format.TheVariants.{V};
ghost use Rattle.cms_disk.specs.Disks.{IsFileInfo};
ghost use Rattle.cms_files.specs.Gathered.{AreData};
ghost use Rattle.cms_files.specs.Told as named;
ghost use Rattle.cms_files.specs.Updates.{last_update};
ghost use Rattle.cms_search.specs.Calls.{Acts, IsUsable, course_of, machine_of, spot};
ghost use Rattle.cms_search.specs.Searches.{Shelf, item_at};
ghost use Rattle.cms_search.specs.Tables.{letters_of, writing};
ghost use Rattle.cms_execio.specs.AskedLines.{TakesFront, asked_lines_of};
ghost use Rattle.cms_execio.specs.Diskw as spec;
ghost use Rattle.cms_execio.specs.Records.{records_of};
ghost use Rattle.cms_execio.specs.declared.asked_lines.AskedLines.TheVariants.{All};

use crate::asked_lines::{AskedLines, ask_lines};
use crate::line::WriteTarget;
use crate::record::gather_lines;
use cms_disk::{FileData, FileInfo};
use cms_fields::Stamp;
use cms_files::{ToldFile, refuse_unfound, told_named, write_last};
use cms_line::{Line, Lines, Tokens};
use cms_names::Format;
use cms_search::{Course, End, FileWrite, State};
use cms_world::World;
use std::alloc::{AllocError, Global};

// The mode number of a new file.
const NEW_NUMBER: u8 = 1;

// A text, so many times.
fn repeated(alloc: Global, text: &Line, count: u32) -> Result<Lines, AllocError>
    ensures { IfOk result (λ lines. lines ≡ replicate count text.now) }
{
    let mut lines = Lines::new(alloc);
    for _again in 0..count {
        lines.push(Line::of(alloc, text.bytes())?)?;
    }
    Ok(lines)
}

// The lines that are written: a text so many times, or lines that are asked for.
fn lines_for<W: World>(
    alloc: Global,
    world: &mut W,
    state: &mut State,
    target: &WriteTarget,
    text: Option<Line>,
) -> Result<AskedLines, End>
    ensures acts { Acts (spot W.World world.old state.old) (spot W.World world.new state.new)
        (λ units. spec.lines_for (machine_of state.old units) target.now text) result
        (asked_lines_of state.new) }
    ensures all { IfOk result (λ asked. (lines : List (List ℕ)) → asked ≡ All lines
        → length lines ≡ target.now.count) }
    ensures kept { state.new ≡ record state.old {
      stack = state.new.stack;
      console = state.new.console;
      left = state.new.left;
    } }
    ensures stack { TakesFront target.now.count state.old.stack state.new.stack }
    ensures left { state.new.left ≤ state.old.left }
{
    match text {
        Some(text) => Ok(AskedLines::All(repeated(alloc, &text, target.count)?)),
        None => ask_lines(alloc, world, state, target.count),
    }
}

// A new file of lines, of which there is one.
fn new_file(alloc: Global, lines: &Lines, stamp: &Stamp) -> Result<FileData, AllocError>
    requires some { 1 ≤ length lines.now }
    requires stamp { is_stamp stamp.now ≡ true }
    ensures { IfOk result (AreData V 0 1 stamp.now (records_of V 0 lines.now)) }
{
    let records = gather_lines(alloc, Format::V, 0, lines.as_slice())?;
    Ok(records.data(NEW_NUMBER, stamp).unwrap())
}

// Lines, of which there is one, as records of a file of which this is told.
fn more_records(
    alloc: Global,
    lines: &Lines,
    info: &FileInfo,
    stamp: &Stamp,
) -> Result<FileData, AllocError>
    requires some { 1 ≤ length lines.now }
    requires sound { IsFileInfo info.now }
    requires stamp { is_stamp stamp.now ≡ true }
    ensures { IfOk result (AreData info.now.format info.now.length 1 stamp.now
        (records_of info.now.format info.now.length lines.now)) }
{
    let records = gather_lines(alloc, info.format, info.length, lines.as_slice())?;
    Ok(records.data(NEW_NUMBER, stamp).unwrap())
}

// Writes lines into a new file.
fn write_anew<W: World>(
    alloc: Global,
    world: &mut W,
    state: &mut State,
    target: &WriteTarget,
    lines: &Lines,
) -> Result<Course, End>
    requires usable { IsUsable (spot W.World world.old state.old) }
    requires writing { writing (item_at (letters_of state.old.table) target.now.mode.letter)
        target.now.mode.letter ≡ Ok tt }
    requires absent { named.place_named state.old.table target.now.mode.letter target.now.name
        ≡ None }
    requires some { 1 ≤ length lines.now }
    requires moment { is_moment state.old.moment ≡ true }
    ensures acts { Acts (spot W.World world.old state.old) (spot W.World world.new state.new)
        (λ units. last_update (machine_of state.old units) target.now.mode.letter
        (Put (spec.new_file (machine_of state.old units) target.now.name
        (records_of V 0 lines.now)))) result (course_of state.new) }
    ensures kept { state.new ≡ record state.old {
      table = state.new.table;
      places = state.new.places;
    } }
{
    let stamp = Stamp::of(&state.moment);
    let file = new_file(alloc, lines, &stamp)?;
    write_last(
        alloc,
        world,
        state,
        target.mode.letter,
        &target.name,
        FileWrite::New(&file),
    )
}

// Adds lines to the file that is there, of which this is told.
fn write_more<W: World>(
    alloc: Global,
    world: &mut W,
    state: &mut State,
    target: &WriteTarget,
    lines: &Lines,
    there: &ToldFile,
) -> Result<Course, End>
    requires usable { IsUsable (spot W.World world.old state.old) }
    requires writing { writing (item_at (letters_of state.old.table) target.now.mode.letter)
        target.now.mode.letter ≡ Ok tt }
    requires some { 1 ≤ length lines.now }
    requires place { named.place_named state.old.table target.now.mode.letter target.now.name
        ≡ Some there.now.place }
    requires there { named.info_named state.old.table target.now.mode.letter target.now.name
        ≡ Some there.now.info }
    requires sound { IsFileInfo there.now.info }
    requires moment { is_moment state.old.moment ≡ true }
    ensures acts { Acts (spot W.World world.old state.old) (spot W.World world.new state.new)
        (λ units. last_update (machine_of state.old units) target.now.mode.letter
        (Add target.now.name
        (records_of there.now.info.format there.now.info.length lines.now)
        (stamp_of state.old.moment)))
        result (course_of state.new) }
    ensures kept { state.new ≡ record state.old {
      table = state.new.table;
      places = state.new.places;
    } }
{
    let stamp = Stamp::of(&state.moment);
    let more = more_records(alloc, lines, &there.info, &stamp)?;
    write_last(
        alloc,
        world,
        state,
        target.mode.letter,
        &target.name,
        FileWrite::Append(there.place, &more),
    )
}

// Writes lines into the file: they are added to it where it is there, else they are a new one.
fn write_all<W: World>(
    alloc: Global,
    world: &mut W,
    state: &mut State,
    target: &WriteTarget,
    lines: &Lines,
) -> Result<Course, End>
    requires usable { IsUsable (spot W.World world.old state.old) }
    requires writing { writing (item_at (letters_of state.old.table) target.now.mode.letter)
        target.now.mode.letter ≡ Ok tt }
    requires some { 1 ≤ length lines.now }
    requires moment { is_moment state.old.moment ≡ true }
    ensures acts { Acts (spot W.World world.old state.old) (spot W.World world.new state.new)
        (λ units. spec.writing target.now (machine_of state.old units) lines.now) result
        (course_of state.new) }
    ensures kept { state.new ≡ record state.old {
      table = state.new.table;
      places = state.new.places;
    } }
{
    match told_named(&state.table, target.mode.letter, &target.name) {
        Some(there) => write_more(alloc, world, state, target, lines, &there),
        None => write_anew(alloc, world, state, target, lines),
    }
}

// Writes the lines that are wanted, of a disk that may be written; for none of them nothing is asked or written.
fn write_lines<W: World>(
    alloc: Global,
    world: &mut W,
    state: &mut State,
    target: &WriteTarget,
    text: Option<Line>,
) -> Result<Course, End>
    requires usable { IsUsable (spot W.World world.old state.old) }
    requires writing { writing (item_at (letters_of state.old.table) target.now.mode.letter)
        target.now.mode.letter ≡ Ok tt }
    requires moment { is_moment state.old.moment ≡ true }
    ensures acts { (shelf : Shelf)
        → Acts (spot W.World world.old state.old) (spot W.World world.new state.new)
        (λ units. spec.write_lines (machine_of state.old units) target.now text shelf) result
        (course_of state.new) }
    ensures kept { state.new ≡ record state.old {
      table = state.new.table;
      stack = state.new.stack;
      console = state.new.console;
      places = state.new.places;
      left = state.new.left;
    } }
    ensures stack { TakesFront target.now.count state.old.stack state.new.stack }
    ensures left { state.new.left ≤ state.old.left }
{
    if target.count == 0 {
        return Ok(Course::Went(0));
    }
    match lines_for(alloc, world, state, target, text)? {
        AskedLines::All(lines) => write_all(alloc, world, state, target, &lines),
        AskedLines::Spent => Ok(Course::OutOfTurns),
    }
}

/// EXECIO's DISKW: lines are asked for and written into a file, in one update.
pub fn disk_write<W: World>(
    alloc: Global,
    world: &mut W,
    state: &mut State,
    words: &Tokens,
    target: &WriteTarget,
    text: Option<Line>,
) -> Result<Course, End>
    requires usable { IsUsable (spot W.World world.old state.old) }
    requires moment { is_moment state.old.moment ≡ true }
    ensures acts { Acts (spot W.World world.old state.old) (spot W.World world.new state.new)
        (λ units. spec.disk_write (machine_of state.old units) words.now target.now text) result
        (course_of state.new) }
    ensures kept { state.new ≡ record state.old {
      table = state.new.table;
      stack = state.new.stack;
      console = state.new.console;
      places = state.new.places;
      left = state.new.left;
    } }
    ensures stack { TakesFront target.now.count state.old.stack state.new.stack }
    ensures left { state.new.left ≤ state.old.left }
{
    match state.table.find_write(target.mode.letter) {
        Ok(()) => write_lines(alloc, world, state, target, text),
        Err(fault) => refuse_unfound(alloc, world, words, 3, fault),
    }
}

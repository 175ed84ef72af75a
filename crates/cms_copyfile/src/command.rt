// COPYFILE.
ghost use Rattle.std.specs.Prelude.{◌≡◌, ◌≤◌, true, List, Ok};
ghost use Rattle.cms_fields.specs.Moments.{is_moment};
ghost use Rattle.cms_line.specs.declared.token.Token as tokens;
ghost use Rattle.cms_search.specs.Calls.{Acts, IsUsable, course_of, machine_of, spot};
ghost use Rattle.cms_search.specs.DeviceSteps.{Did};
ghost use Rattle.cms_search.specs.Searches.{item_at};
ghost use Rattle.cms_search.specs.Tables.{letters_of, writing};
ghost use Rattle.cms_files.specs.Updates.{updated_of};
ghost use Rattle.cms_copyfile.specs.Copyfile as spec;
ghost use Rattle.cms_copyfile.specs.FileCopies.{IsFileCopy, may_erase_input};
ghost use Rattle.cms_copyfile.specs.Lines.{IsCopyLine};

use crate::copy::FileCopy;
use crate::line::{CopyLine, Existing, copy_line};
use crate::named_files::{NamedFile, files_copied};
use crate::refusals::stop_too_few;
use crate::shown::{copy_text, mode_shown};
use crate::update::copy_records;
use cms_disk::FileInfo;
use cms_files::{
    FileUpdate, Updated, consume, refuse_unfound, stop_exists, stop_search, tell_updated,
    update_each,
};
use cms_line::Tokens;
use cms_search::{Course, End, SearchFault, State, refuse_command};
use cms_world::World;
use std::alloc::Global;

// Whether the file that is there already isn't to be touched.
fn is_refused(existing: Existing, there: Option<FileInfo>) -> bool
    ensures { result ≡ spec.is_refused existing there }
{
    match (existing, there) {
        (Existing::Refused, Some(_)) => true,
        _ => false,
    }
}

// A file that has the output's name isn't to be touched.
fn stop_there<W: World>(
    alloc: Global,
    world: &mut W,
    state: &State,
    words: &Tokens,
    line: &CopyLine,
    file: &FileCopy,
) -> Result<Updated, End>
    ensures { Acts (spot W.World world.old state.now) (spot W.World world.new state.now)
        (λ units. spec.there_already
        (machine_of state.now units) words.now line.now file.now.letter file.now.name) result
        (updated_of state.now) }
{
    let mode = mode_shown(alloc, words.as_slice(), line.files.output.mode, file.letter)?;
    stop_exists(alloc, world, state, &file.name, mode)
}

// A file is copied, unless one that has the output's name isn't to be touched, or it has no record that is copied.
fn copy_into<W: World>(
    alloc: Global,
    world: &mut W,
    state: &mut State,
    words: &Tokens,
    line: &CopyLine,
    file: &FileCopy,
) -> Result<Updated, End>
    requires usable { IsUsable (spot W.World world.old state.old) }
    requires moment { is_moment state.old.moment ≡ true }
    requires line { IsCopyLine line.now }
    requires file { IsFileCopy state.old.table line.now file.now }
    requires writing { writing (item_at (letters_of state.old.table) file.now.letter)
        file.now.letter ≡ Ok tt }
    ensures acts { Acts (spot W.World world.old state.old) (spot W.World world.new state.new)
        (λ units. spec.with_copying words.now line.now (machine_of state.old units) file.now.found
        (spec.copy_into (machine_of state.old units) words.now line.now)) result
        (updated_of state.new) }
    ensures kept { state.new ≡ record state.old {
      table = state.new.table;
      places = state.new.places;
    } }
{
    if is_refused(line.style.existing, file.there) {
        return stop_there(alloc, world, state, words, line, file);
    }
    if file.has_too_few(line) {
        return stop_too_few(alloc, world, state, file.input.count);
    }
    copy_records(alloc, world, state, line, file)
}

// Behind its copy a file of mode number 3 is erased, where the line reads it to its end and it isn't its own output.
fn erase_input<W: World>(
    alloc: Global,
    world: &mut W,
    state: &mut State,
    line: &CopyLine,
    file: &FileCopy,
) -> Result<Updated, End>
    requires usable { IsUsable (spot W.World world.old state.old) }
    requires moment { is_moment state.old.moment ≡ true }
    ensures acts { Acts (spot W.World world.old state.old) (spot W.World world.new state.new)
        (λ units. spec.erasing (may_erase_input line.now file.now) file.now.found.letter
        file.now.input.name (Did (machine_of state.old units))) result (updated_of state.new) }
    ensures kept { state.new ≡ record state.old {
      table = state.new.table;
      places = state.new.places;
    } }
{
    if !file.may_erase(line) {
        return Ok(Updated::Done);
    }
    consume(alloc, world, state, file.found.letter, &file.input.name)
}

// A file is copied, and erased then where its mode number says so.
fn copy_erased<W: World>(
    alloc: Global,
    world: &mut W,
    state: &mut State,
    words: &Tokens,
    line: &CopyLine,
    file: &FileCopy,
) -> Result<Updated, End>
    requires usable { IsUsable (spot W.World world.old state.old) }
    requires moment { is_moment state.old.moment ≡ true }
    requires line { IsCopyLine line.now }
    requires file { IsFileCopy state.old.table line.now file.now }
    requires writing { writing (item_at (letters_of state.old.table) file.now.letter)
        file.now.letter ≡ Ok tt }
    ensures acts { Acts (spot W.World world.old state.old) (spot W.World world.new state.new)
        (λ units. spec.with_copying words.now line.now (machine_of state.old units) file.now.found
        (spec.copy_erased (machine_of state.old units) words.now line.now)) result
        (updated_of state.new) }
    ensures kept { state.new ≡ record state.old {
      table = state.new.table;
      places = state.new.places;
    } }
{
    match copy_into(alloc, world, state, words, line, file)? {
        Updated::Done => erase_input(alloc, world, state, line, file),
        Updated::Stopped(course) => Ok(Updated::Stopped(course)),
    }
}

// A file is copied, and with TYPE it is typed then.
fn copy_told<W: World>(
    alloc: Global,
    world: &mut W,
    state: &mut State,
    words: &Tokens,
    line: &CopyLine,
    file: &FileCopy,
) -> Result<Updated, End>
    requires usable { IsUsable (spot W.World world.old state.old) }
    requires moment { is_moment state.old.moment ≡ true }
    requires line { IsCopyLine line.now }
    requires file { IsFileCopy state.old.table line.now file.now }
    requires writing { writing (item_at (letters_of state.old.table) file.now.letter)
        file.now.letter ≡ Ok tt }
    ensures acts { Acts (spot W.World world.old state.old) (spot W.World world.new state.new)
        (λ units. spec.with_copying words.now line.now (machine_of state.old units) file.now.found
        (spec.copy_told (machine_of state.old units) words.now line.now)) result
        (updated_of state.new) }
    ensures kept { state.new ≡ record state.old {
      table = state.new.table;
      places = state.new.places;
    } }
{
    let text = copy_text(alloc, &file.input_shown(), &file.output_shown(line))?;
    let updated = copy_erased(alloc, world, state, words, line, file)?;
    tell_updated(world, state, updated, line.style.types, &text)
}

// A file is copied, where the output's disk may be written.
fn copy_of<W: World>(
    alloc: Global,
    world: &mut W,
    state: &mut State,
    words: &Tokens,
    line: &CopyLine,
    file: &FileCopy,
) -> Result<Updated, End>
    requires usable { IsUsable (spot W.World world.old state.old) }
    requires moment { is_moment state.old.moment ≡ true }
    requires line { IsCopyLine line.now }
    requires file { IsFileCopy state.old.table line.now file.now }
    ensures acts { Acts (spot W.World world.old state.old) (spot W.World world.new state.new)
        (λ units. spec.copy_found words.now line.now (machine_of state.old units) file.now.found)
        result (updated_of state.new) }
    ensures kept { state.new ≡ record state.old {
      table = state.new.table;
      places = state.new.places;
    } }
{
    match state.table.find_write(file.letter) {
        Ok(()) => copy_told(alloc, world, state, words, line, file),
        Err(fault) => stop_search(alloc, world, state, words, 1, fault),
    }
}

// The copying of files, as a line asks for it.
#[derive(Clone, Copy)]
struct Copier<'w> {
    words: &'w Tokens,
    line: &'w CopyLine,
}

impl FileUpdate<NamedFile> for Copier<'_> {
    ghost tree = { λ c. spec.copy_found c.words.now c.line.now };

    ghost takes = { λ c f. IsCopyLine c.line.now };

    fn update<W: World>(
        &self,
        alloc: Global,
        world: &mut W,
        state: &mut State,
        file: &NamedFile,
    ) -> Result<Updated, End> {
        match FileCopy::of(&state.table, self.line, file) {
            Some(copy) => copy_of(alloc, world, state, self.words, self.line, &copy),
            None => stop_search(alloc, world, state, self.words, 1, SearchFault::NotFound),
        }
    }
}

// The files that the line means are copied.
fn copy_files<W: World>(
    alloc: Global,
    world: &mut W,
    state: &mut State,
    words: &Tokens,
    line: &CopyLine,
) -> Result<Course, End>
    requires usable { IsUsable (spot W.World world.old state.old) }
    requires moment { is_moment state.old.moment ≡ true }
    requires line { IsCopyLine line.now }
    ensures acts { Acts (spot W.World world.old state.old) (spot W.World world.new state.new)
        (λ units. spec.copy_files (machine_of state.old units) words.now line.now) result
        (course_of state.new) }
    ensures kept { state.new ≡ record state.old {
      table = state.new.table;
      places = state.new.places;
    } }
{
    match files_copied(alloc, &state.table, line) {
        Ok(files) => {
            let copier = Copier { words, line };
            update_each(alloc, world, state, &copier, files.as_slice())
        }
        Err(fault) => refuse_unfound(alloc, world, words, 1, fault),
    }
}

/// COPYFILE: files are copied record by record, one update each, in the order in which a search finds them. Behind its copy a file of mode
/// number 3 that was read to its end is erased, by an update of its own.
pub fn run_copyfile<W: World>(
    alloc: Global,
    world: &mut W,
    state: &mut State,
    words: &Tokens,
) -> Result<Course, End>
    requires usable { IsUsable (spot W.World world.old state.old) }
    requires moment { is_moment state.old.moment ≡ true }
    ensures acts { Acts (spot W.World world.old state.old) (spot W.World world.new state.new)
        (λ units. spec.copyfile (machine_of state.old units) words.now) result
        (course_of state.new) }
    ensures kept { state.new ≡ record state.old {
      table = state.new.table;
      places = state.new.places;
    } }
{
    match copy_line(alloc, words) {
        Ok(line) => copy_files(alloc, world, state, words, &line),
        Err(fault) => refuse_command(alloc, world, words, fault),
    }
}

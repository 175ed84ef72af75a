// Lines that are written into a procedure.
ghost use Rattle.std.specs.Prelude.{◌≡◌, ◌++◌, ◌∷◌, ℕ, List, codes, true, IfOk, OnOk, Ok, Some};
ghost use Rattle.cms_fields.specs.Moments.{is_moment};
ghost use Rattle.cms_fields.specs.Stamps.{is_stamp};
ghost use Rattle.cms_disk.specs.Disks.{IsFileInfo};
ghost use Rattle.cms_model.specs.Changes.{Put};
ghost use Rattle.cms_names.specs.declared.name.Format.{Format};
ghost use Rattle.cms_names.specs.declared.name.Format.TheVariants.{F};
ghost use Rattle.cms_text.specs.Texts.{coded};
ghost use Rattle.cms_files.specs.Gathered.{AreData, IsGathered};
ghost use Rattle.cms_files.specs.Told as named;
ghost use Rattle.cms_files.specs.Updates.{last_update};
ghost use Rattle.cms_search.specs.Calls.{Acts, IsUsable, course_of, machine_of, spot};
ghost use Rattle.cms_search.specs.Searches.{item_at};
ghost use Rattle.cms_search.specs.Tables.{letters_of, writing};
ghost use Rattle.cms_listfile.specs.Lines.{lines_of};
ghost use Rattle.cms_listfile.specs.Listfile as spec;
ghost use Rattle.cms_listfile.specs.Told as told;

use crate::columns::Columns;
use crate::found_lines::listed_at;
use cms_disk::{FileData, FileInfo};
use cms_fields::Stamp;
use cms_files::{Gathered, ToldFile, exec_kind, told_named, write_last};
use cms_names::{Format, Name, Part};
use cms_operands::coded;
use cms_search::{AccessTable, Course, End, FileWrite, Found, State};
use cms_world::World;
use std::alloc::{AllocError, Global};

/// Disk A.
pub const DISK_A: u8 = 0;

// The length of a new procedure's records, and its mode number.
const WRITTEN_LENGTH: u32 = 80;

const WRITTEN_NUMBER: u8 = 1;

// The procedure that is written.
fn written_name() -> Name
    ensures { result ≡ spec.written_name }
{
    Name {
        file: Part::read(&coded(b"CMS")).unwrap(),
        kind: exec_kind(),
    }
}

// A line behind two arguments.
fn procedure_line(alloc: Global, line: &[u8]) -> Result<Vec<u8>, AllocError>
    ensures { IfOk result (λ text. text.items ≡ coded (codes "&1 &2 ") ++ line.now) }
{
    let mut text = coded(b"&1 &2 ").to_vec(alloc)?;
    text.extend_from_slice(line)?;
    Ok(text)
}

// Gathers the line of a file.
fn gather_file(
    alloc: Global,
    records: &mut Gathered,
    table: &AccessTable,
    last: Columns,
    found: Found,
) -> Result<(), AllocError>
    ensures { (format : Format) (size : ℕ) (some : List (List ℕ))
        → IsGathered format size some records.old
        → OnOk result (IsGathered format size
        (some ++ spec.records_in format size
        (spec.procedure_lines (told.line_told last table.now found))) records.new) }
{
    let Some(file) = listed_at(table, found) else {
        return Ok(());
    };
    let line = file.line(alloc, last)?;
    let text = procedure_line(alloc, &line)?;
    records.push(&text)
}

// Gathers the lines of files that were found.
fn gather_files(
    alloc: Global,
    records: &mut Gathered,
    table: &AccessTable,
    last: Columns,
    found: &[Found],
) -> Result<(), AllocError>
    ensures { (format : Format) (size : ℕ) (some : List (List ℕ))
        → IsGathered format size some records.old
        → OnOk result (IsGathered format size
        (some ++ spec.records_in format size
        (spec.procedure_lines (told.lines_told last table.now found.now))) records.new) }
{
    for file in found {
        gather_file(alloc, records, table, last, *file)?;
    }
    Ok(())
}

// A new procedure of the lines of files.
fn new_procedure(
    alloc: Global,
    table: &AccessTable,
    last: Columns,
    found: &[Found],
    stamp: &Stamp,
) -> Result<FileData, AllocError>
    requires { is_stamp stamp.now ≡ true }
    ensures { IfOk result (AreData F spec.written_length 1 stamp.now
        (spec.records_in F spec.written_length
        (coded (codes "&TRACE OFF") ∷ spec.procedure_lines
        (told.lines_told last table.now found.now)))) }
{
    let mut records = Gathered::new(alloc, Format::F, WRITTEN_LENGTH);
    records.push(&coded(b"&TRACE OFF"))?;
    gather_files(alloc, &mut records, table, last, found)?;
    Ok(records.data(WRITTEN_NUMBER, stamp).unwrap())
}

// The lines of files, of which there is one, as records of a file of which this is told.
fn more_lines(
    alloc: Global,
    table: &AccessTable,
    last: Columns,
    found: &[Found],
    info: &FileInfo,
    stamp: &Stamp,
) -> Result<FileData, AllocError>
    requires some { told.HasLines last table.now found.now }
    requires sound { IsFileInfo info.now }
    requires stamp { is_stamp stamp.now ≡ true }
    ensures { IfOk result (AreData info.now.format info.now.length 1 stamp.now
        (spec.records_in info.now.format info.now.length
        (spec.procedure_lines (told.lines_told last table.now found.now)))) }
{
    let mut records = Gathered::new(alloc, info.format, info.length);
    gather_files(alloc, &mut records, table, last, found)?;
    Ok(records.data(WRITTEN_NUMBER, stamp).unwrap())
}

// Writes the lines of files into a new procedure.
fn write_anew<W: World>(
    alloc: Global,
    world: &mut W,
    state: &mut State,
    last: Columns,
    found: &[Found],
) -> Result<Course, End>
    requires usable { IsUsable (spot W.World world.old state.old) }
    requires writing { writing (item_at (letters_of state.old.table) spec.disk_a) spec.disk_a
        ≡ Ok tt }
    requires moment { is_moment state.old.moment ≡ true }
    ensures acts { Acts (spot W.World world.old state.old) (spot W.World world.new state.new)
        (λ units. last_update (machine_of state.old units) spec.disk_a
        (Put (spec.new_procedure (machine_of state.old units)
        (lines_of (machine_of state.old units) last found.now))))
        result (course_of state.new) }
    ensures kept { state.new ≡ record state.old {
      table = state.new.table;
      places = state.new.places;
    } }
{
    let stamp = Stamp::of(&state.moment);
    let file = new_procedure(alloc, &state.table, last, found, &stamp)?;
    write_last(
        alloc,
        world,
        state,
        DISK_A,
        &written_name(),
        FileWrite::Put(&file),
    )
}

// Adds the lines of files to the procedure, of which this is told.
fn write_more<W: World>(
    alloc: Global,
    world: &mut W,
    state: &mut State,
    last: Columns,
    found: &[Found],
    there: &ToldFile,
) -> Result<Course, End>
    requires usable { IsUsable (spot W.World world.old state.old) }
    requires writing { writing (item_at (letters_of state.old.table) spec.disk_a) spec.disk_a
        ≡ Ok tt }
    requires place { named.place_named state.old.table spec.disk_a spec.written_name
        ≡ Some there.now.place }
    requires there { named.info_named state.old.table spec.disk_a spec.written_name
        ≡ Some there.now.info }
    requires some { told.HasLines last state.old.table found.now }
    requires sound { IsFileInfo there.now.info }
    requires moment { is_moment state.old.moment ≡ true }
    ensures acts { Acts (spot W.World world.old state.old) (spot W.World world.new state.new)
        (λ units. last_update (machine_of state.old units) spec.disk_a
        (spec.added_lines (machine_of state.old units)
        there.now.info.format there.now.info.length
        (lines_of (machine_of state.old units) last found.now)))
        result (course_of state.new) }
    ensures kept { state.new ≡ record state.old {
      table = state.new.table;
      places = state.new.places;
    } }
{
    let stamp = Stamp::of(&state.moment);
    let more = more_lines(alloc, &state.table, last, found, &there.info, &stamp)?;
    write_last(
        alloc,
        world,
        state,
        DISK_A,
        &written_name(),
        FileWrite::Append(there.place, &more),
    )
}

/// Writes the lines of files into CMS EXEC on disk A, which may be written; or adds them to it, where it is there.
pub fn write_listing<W: World>(
    alloc: Global,
    world: &mut W,
    state: &mut State,
    last: Columns,
    append: bool,
    found: &[Found],
) -> Result<Course, End>
    requires usable { IsUsable (spot W.World world.old state.old) }
    requires writing { writing (item_at (letters_of state.old.table) spec.disk_a) spec.disk_a
        ≡ Ok tt }
    requires some { told.HasLines last state.old.table found.now }
    requires moment { is_moment state.old.moment ≡ true }
    ensures acts { Acts (spot W.World world.old state.old) (spot W.World world.new state.new)
        (λ units. spec.writing (machine_of state.old units) append
        (lines_of (machine_of state.old units) last found.now))
        result (course_of state.new) }
    ensures kept { state.new ≡ record state.old {
      table = state.new.table;
      places = state.new.places;
    } }
{
    if !append {
        return write_anew(alloc, world, state, last, found);
    }
    match told_named(&state.table, DISK_A, &written_name()) {
        Some(there) => write_more(alloc, world, state, last, found, &there),
        None => write_anew(alloc, world, state, last, found),
    }
}

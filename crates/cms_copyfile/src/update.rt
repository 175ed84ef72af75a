// The update of one file that is copied.
ghost use Rattle.std.specs.Prelude.{◌≡◌, ◌+◌, ◌^◌, ◌<◌, ◌≤◌, ℕ, true, List, None, Some, Ok, IfSome, vec_capacity};
ghost use Rattle.std.specs.Option.{ForSome};
ghost use Rattle.cms_fields.specs.Limits.{longest_record, most_records};
ghost use Rattle.cms_fields.specs.Moments.{is_moment};
ghost use Rattle.cms_fields.specs.Stamps.{is_stamp};
ghost use Rattle.cms_disk.specs.Additions.{MayExtend};
ghost use Rattle.cms_disk.specs.Disks.{IsFileInfo};
ghost use Rattle.cms_line.specs.declared.token.Token as tokens;
ghost use Rattle.cms_search.specs.Calls.{Acts, IsUsable, machine_of, spot, spot_at};
ghost use Rattle.cms_search.specs.Machine as machines;
ghost use Rattle.cms_search.specs.Searches.{item_at};
ghost use Rattle.cms_search.specs.Shows.{Shows};
ghost use Rattle.cms_search.specs.Tables.{letters_of, writing};
ghost use Rattle.cms_search.specs.DeviceSteps.{HasRead};
ghost use Rattle.cms_files.specs.Files.{file_on};
ghost use Rattle.cms_files.specs.Told as named;
ghost use Rattle.cms_files.specs.Updates.{updated_of};
ghost use Rattle.cms_copyfile.specs.Copyfile as spec;
ghost use Rattle.cms_copyfile.specs.Drafts.{FitsVolume};
ghost use Rattle.cms_copyfile.specs.FileCopies.{IsFileCopy, form_in, form_into, plan_for};
ghost use Rattle.cms_copyfile.specs.Lines.{IsCopyLine, IsCopyStyle};
ghost use Rattle.cms_copyfile.specs.Measures.{IsMeasure};
ghost use Rattle.cms_copyfile.specs.OneCopy.{AreMeasured, AreShaped};
ghost use Rattle.cms_copyfile.specs.Outputs.{extended};
ghost use Rattle.cms_copyfile.specs.Records.{longest_fit};
ghost use Rattle.cms_copyfile.specs.Shapes.{IsShapeBehind};
ghost use Rattle.cms_copyfile.specs.declared.line.CopyLine as lines;
ghost use Rattle.cms_world.specs.Seen.{Seen, seen};

use crate::copy::FileCopy;
use crate::draft::{CopyTarget, CopyWrite, write_copies};
use crate::first_pass::measure_input;
use crate::input::open_input;
use crate::line::CopyLine;
use crate::measure::Measure;
use crate::outcome::end_written;
use crate::output::{CopyPlan, FileForm, plan_of, stamp_for};
use crate::refusals::stop_unread;
use crate::shape::{shape_behind, shape_of};
use cms_disk::{DraftShape, FileInfo};
use cms_fields::{LONGEST_RECORD, Stamp};
use cms_files::{Updated, stored_found};
use cms_search::{AccessTable, End, Found, State};
use cms_world::World;
use std::alloc::Global;

// The records of a file, which were measured, are read again, and their copies are put as a file of this shape, or added to the one that
// is to have it then.
fn put_copied<W: World>(
    alloc: Global,
    world: &mut W,
    state: &mut State,
    file: &FileCopy,
    write: CopyWrite,
    shape: &DraftShape,
    plan: &CopyPlan,
    buffer: &mut Vec<u8>,
) -> Result<Updated, End>
    requires usable { IsUsable (spot W.World world.old state.old) }
    requires moment { is_moment state.old.moment ≡ true }
    requires writing { writing (item_at (letters_of state.old.table) file.now.letter)
        file.now.letter ≡ Ok tt }
    requires place { Some file.now.place
        ≡ named.place_named state.old.table file.now.found.letter file.now.found.name }
    requires told { Some file.now.input
        ≡ named.info_named state.old.table file.now.found.letter file.now.found.name }
    requires there { file.now.there_place
        ≡ named.place_named state.old.table file.now.letter file.now.name }
    requires fits { ForSome (item_at state.old.table.seats file.now.letter)
        (λ s. FitsVolume write s.disk.volume file.now.name shape.now) }
    requires size { (most : ℕ) → most ≤ longest_record
        → longest_fit plan.now.style.fit most ≤ longest_record }
    requires room { longest_record ≤ vec_capacity buffer.old }
    ensures acts { (before : Seen) (words : List tokens.Token) (line : lines.CopyLine)
        → HasRead before (seen W.World world.old)
        → IsFileCopy state.old.table line file.now
        → AreShaped (spot W.World world.old state.old) line file.now plan.now write shape.now
        → Acts (spot_at before state.old) (spot W.World world.new state.new)
        (λ units. spec.with_copying words line (machine_of state.old units) file.now.found
        (spec.copy_records (machine_of state.old units) line)) result (updated_of state.new) }
    ensures kept { state.new ≡ record state.old {
      table = state.new.table;
      places = state.new.places;
    } }
{
    let mut input = open_input(alloc, &state.table, file)?;
    let vdev = state.table.vdev(file.letter);
    let to = CopyTarget {
        letter: file.letter,
        name: file.name,
        there: file.there_place,
        write,
        shape: *shape,
        stamp: Stamp::of(&state.moment),
    };
    let written = write_copies(
        alloc,
        world,
        &mut state.table,
        &to,
        &mut input.cursor,
        plan,
        buffer,
    );
    let input_vdev = input.vdev;
    drop(input);
    end_written(alloc, world, state, file, vdev, input_vdev, written)
}

// The copies of a file were measured, and are put as a file of their own.
fn copy_measured<W: World>(
    alloc: Global,
    world: &mut W,
    state: &mut State,
    line: &CopyLine,
    file: &FileCopy,
    plan: &CopyPlan,
    measure: &Measure,
    buffer: &mut Vec<u8>,
) -> Result<Updated, End>
    requires usable { IsUsable (spot W.World world.old state.old) }
    requires moment { is_moment state.old.moment ≡ true }
    requires writing { writing (item_at (letters_of state.old.table) file.now.letter)
        file.now.letter ≡ Ok tt }
    requires line { IsCopyLine line.now }
    requires file { IsFileCopy state.old.table line.now file.now }
    requires whole { extended line.now.style.existing file.now.there ≡ None }
    requires sound { IsMeasure (form_into line.now file.now) measure.now }
    requires plan { plan.now ≡ plan_for line.now (form_into line.now file.now) file.now }
    requires size { (most : ℕ) → most ≤ longest_record
        → longest_fit plan.now.style.fit most ≤ longest_record }
    requires room { longest_record ≤ vec_capacity buffer.old }
    ensures acts { (before : Seen) (words : List tokens.Token)
        → HasRead before (seen W.World world.old)
        → AreMeasured (spot W.World world.old state.old) line.now file.now
        (form_into line.now file.now) measure.now
        → Acts (spot_at before state.old) (spot W.World world.new state.new)
        (λ units. spec.with_copying words line.now (machine_of state.old units) file.now.found
        (spec.copy_records (machine_of state.old units) line.now)) result (updated_of state.new) }
    ensures kept { state.new ≡ record state.old {
      table = state.new.table;
      places = state.new.places;
    } }
{
    let turn = Stamp::of(&state.moment);
    let stamp = stamp_for(&line.style, file.input.stamp, turn);
    let shape = shape_of(file.form(line), file.number(line), stamp, measure);
    put_copied(
        alloc,
        world,
        state,
        file,
        CopyWrite::Whole,
        &shape,
        plan,
        buffer,
    )
}

// The shape of the file that is extended, of which this is told, with records behind its own that were measured.
fn extended_shape(
    table: &AccessTable,
    file: &FileCopy,
    own: &FileInfo,
    stamp: Stamp,
    more: &Measure,
) -> DraftShape
    requires place { file.now.there_place
        ≡ named.place_named table.now file.now.letter file.now.name }
    requires there { Some own.now ≡ named.info_named table.now file.now.letter file.now.name }
    requires own { IsFileInfo own.now }
    requires stamp { is_stamp stamp ≡ true }
    requires sound { IsMeasure (form_in own.now) more.now }
    requires count { own.now.count + more.now.count < 2 ^ 32 }
    requires bytes { more.now.bytes < 2 ^ 63 }
    ensures shape { (s : machines.Machine) → Shows table.now s
        → IsShapeBehind own.now stamp more.now result
        (file_on s file.now.name (machines.letter_at s file.now.letter)) }
    ensures fits { ForSome (item_at table.now.seats file.now.letter)
        (λ s. MayExtend s.disk.volume file.now.name result) }
{
    let there = Found {
        letter: file.letter,
        place: file.there_place.unwrap(),
    };
    let stored = stored_found(table, there).unwrap();
    shape_behind(own, stored, stamp, more)
}

// The copies of a file were measured, and are added to the one that is extended, of which this is told.
fn append_measured<W: World>(
    alloc: Global,
    world: &mut W,
    state: &mut State,
    line: &CopyLine,
    file: &FileCopy,
    own: &FileInfo,
    plan: &CopyPlan,
    measure: &Measure,
    buffer: &mut Vec<u8>,
) -> Result<Updated, End>
    requires usable { IsUsable (spot W.World world.old state.old) }
    requires moment { is_moment state.old.moment ≡ true }
    requires writing { writing (item_at (letters_of state.old.table) file.now.letter)
        file.now.letter ≡ Ok tt }
    requires file { IsFileCopy state.old.table line.now file.now }
    requires own { extended line.now.style.existing file.now.there ≡ Some own.now }
    requires sound { IsMeasure (form_in own.now) measure.now }
    requires count { measure.now.count ≤ most_records }
    requires bytes { measure.now.bytes < 2 ^ 63 }
    requires plan { plan.now ≡ plan_for line.now (form_in own.now) file.now }
    requires size { (most : ℕ) → most ≤ longest_record
        → longest_fit plan.now.style.fit most ≤ longest_record }
    requires room { longest_record ≤ vec_capacity buffer.old }
    ensures acts { (before : Seen) (words : List tokens.Token)
        → HasRead before (seen W.World world.old)
        → AreMeasured (spot W.World world.old state.old) line.now file.now
        (form_in own.now) measure.now
        → Acts (spot_at before state.old) (spot W.World world.new state.new)
        (λ units. spec.with_copying words line.now (machine_of state.old units) file.now.found
        (spec.copy_records (machine_of state.old units) line.now)) result (updated_of state.new) }
    ensures kept { state.new ≡ record state.old {
      table = state.new.table;
      places = state.new.places;
    } }
{
    let turn = Stamp::of(&state.moment);
    let stamp = stamp_for(&line.style, file.input.stamp, turn);
    let shape = extended_shape(&state.table, file, own, stamp, measure);
    put_copied(
        alloc,
        world,
        state,
        file,
        CopyWrite::Added,
        &shape,
        plan,
        buffer,
    )
}

// The copies of a file were measured; they are put as a file of their own, or added to the one that is extended.
fn put_measured<W: World>(
    alloc: Global,
    world: &mut W,
    state: &mut State,
    line: &CopyLine,
    file: &FileCopy,
    plan: &CopyPlan,
    measure: &Measure,
    buffer: &mut Vec<u8>,
) -> Result<Updated, End>
    requires usable { IsUsable (spot W.World world.old state.old) }
    requires moment { is_moment state.old.moment ≡ true }
    requires writing { writing (item_at (letters_of state.old.table) file.now.letter)
        file.now.letter ≡ Ok tt }
    requires line { IsCopyLine line.now }
    requires file { IsFileCopy state.old.table line.now file.now }
    requires sound { IsMeasure (form_into line.now file.now) measure.now }
    requires count { measure.now.count ≤ most_records }
    requires bytes { measure.now.bytes < 2 ^ 63 }
    requires plan { plan.now ≡ plan_for line.now (form_into line.now file.now) file.now }
    requires size { (most : ℕ) → most ≤ longest_record
        → longest_fit plan.now.style.fit most ≤ longest_record }
    requires room { longest_record ≤ vec_capacity buffer.old }
    ensures acts { (before : Seen) (words : List tokens.Token)
        → HasRead before (seen W.World world.old)
        → AreMeasured (spot W.World world.old state.old) line.now file.now
        (form_into line.now file.now) measure.now
        → Acts (spot_at before state.old) (spot W.World world.new state.new)
        (λ units. spec.with_copying words line.now (machine_of state.old units) file.now.found
        (spec.copy_records (machine_of state.old units) line.now)) result (updated_of state.new) }
    ensures kept { state.new ≡ record state.old {
      table = state.new.table;
      places = state.new.places;
    } }
{
    match file.extended(line) {
        Some(own) => append_measured(alloc, world, state, line, file, &own, plan, measure, buffer),
        None => copy_measured(alloc, world, state, line, file, plan, measure, buffer),
    }
}

// The format that the copy gets: its length is one that records have.
fn short_form(line: &CopyLine, file: &FileCopy) -> FileForm
    requires style { IsCopyStyle line.now.style }
    requires sound { IsFileInfo file.now.input }
    requires there { IfSome file.now.there IsFileInfo }
    ensures form { result ≡ form_into line.now file.now }
    ensures some { 1 ≤ result.length }
    ensures short { result.length ≤ longest_record }
{
    file.form(line)
}

// The records of a file are read, and the copy is put: a file that is there already is replaced, or the copies are added to it. Its device
// may fail, and so may the output's; a limit and want of room come before the first write.
pub(crate) fn copy_records<W: World>(
    alloc: Global,
    world: &mut W,
    state: &mut State,
    line: &CopyLine,
    file: &FileCopy,
) -> Result<Updated, End>
    requires usable { IsUsable (spot W.World world.old state.old) }
    requires moment { is_moment state.old.moment ≡ true }
    requires line { IsCopyLine line.now }
    requires file { IsFileCopy state.old.table line.now file.now }
    requires writing { writing (item_at (letters_of state.old.table) file.now.letter)
        file.now.letter ≡ Ok tt }
    requires some { line.now.style.first ≤ file.now.input.count }
    ensures acts { (words : List tokens.Token)
        → Acts (spot W.World world.old state.old) (spot W.World world.new state.new)
        (λ units. spec.with_copying words line.now (machine_of state.old units) file.now.found
        (spec.copy_records (machine_of state.old units) line.now)) result (updated_of state.new) }
    ensures kept { state.new ≡ record state.old {
      table = state.new.table;
      places = state.new.places;
    } }
{
    let form = short_form(line, file);
    let plan = plan_of(&line.style, form, file.input.count);
    let mut buffer = Vec::with_capacity(alloc, LONGEST_RECORD as usize)?;
    let mut input = open_input(alloc, &state.table, file)?;
    let measured = measure_input(
        world,
        &state.table,
        file,
        &mut input.cursor,
        &plan,
        &mut buffer,
    );
    let vdev = input.vdev;
    drop(input);
    match measured {
        Ok(measure) => put_measured(
            alloc,
            world,
            state,
            line,
            file,
            &plan,
            &measure,
            &mut buffer,
        ),
        Err(fault) => stop_unread(alloc, world, state, vdev, fault),
    }
}

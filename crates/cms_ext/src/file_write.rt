// A file that an extension writes.
ghost use Rattle.std.specs.Prelude.{◌≡◌, ◌≤◌, true, map, IfOk, Ok};
ghost use Rattle.cms_fields.specs.Moments.{is_moment};
ghost use Rattle.cms_fields.specs.Stamps.{is_stamp};
ghost use Rattle.cms_search.specs.Calls.{IsUsable, spot};
ghost use Rattle.cms_search.specs.Searches.{item_at};
ghost use Rattle.cms_search.specs.Tables.{letters_of, writing};
ghost use Rattle.cms_files.specs.Gathered.{AreData, IsGathered, record_in};
ghost use Rattle.cms_files.specs.Told.{info_named};
ghost use Rattle.cms_ext.specs.Calls.{Meets, form_told};
ghost use Rattle.cms_ext.specs.Extensions as spec;

use crate::extension::ExtReply;
use crate::records::Records;
use crate::refused_wants::{refuse_unfound, refused};
use crate::wants::Met;
use cms_disk::FileData;
use cms_fields::Stamp;
use cms_files::{Gathered, Updated, write_file};
use cms_names::{Format, Name};
use cms_search::{AccessTable, End, FileWrite, State};
use cms_world::World;
use std::alloc::{AllocError, Global};

/// How a file's records are stored, and its mode number.
#[derive(Clone, Copy)]
pub(crate) struct Form {
    format: Format,
    // that of each record at F
    length: u32,
    // 0 to 6
    number: u8,
}

// The form of a new file.
const NEW: Form = Form {
    format: Format::V,
    length: 0,
    number: 1,
};

// The form of the file of a name on the disk of a letter: that of the one that is there, else that of a new one.
fn form_of(table: &AccessTable, letter: u8, name: &Name) -> Form
    ensures form { result ≡ form_told (info_named table.now letter name.now) }
    ensures number { result.number ≤ 6 }
{
    let Some(disk) = table.disk(letter) else {
        return NEW;
    };
    let Some(place) = disk.find(name) else {
        return NEW;
    };
    let info = disk.info(place);
    Form {
        format: info.format,
        length: info.length,
        number: disk.mode_number(place),
    }
}

// Records, as they are stored in a file of a form.
fn gather(alloc: Global, form: Form, records: &Records) -> Result<Gathered, AllocError>
    ensures { IfOk result (IsGathered form.format form.length
        (map (record_in form.format form.length) records.now)) }
{
    let mut gathered = Gathered::new(alloc, form.format, form.length);
    for record in records.as_slice() {
        gathered.push(record.bytes())?;
    }
    Ok(gathered)
}

// The data of a file of records.
fn data_of(
    alloc: Global,
    form: Form,
    records: &Records,
    stamp: &Stamp,
) -> Result<FileData, AllocError>
    requires number { form.number ≤ 6 }
    requires stamp { is_stamp stamp.now ≡ true }
    ensures { IfOk result (AreData form.format form.length form.number stamp.now
        (map (record_in form.format form.length) records.now)) }
{
    let gathered = gather(alloc, form, records)?;
    gathered.data(form.number, stamp).ok_or(AllocError)
}

// Writes records as the file of a name on the disk of a letter that may be written.
fn write<W: World>(
    alloc: Global,
    world: &mut W,
    state: &mut State,
    name: &Name,
    letter: u8,
    records: &Records,
) -> Result<Met, End>
    requires usable { IsUsable (spot W.World world.old state.old) }
    requires writing { writing (item_at (letters_of state.old.table) letter) letter ≡ Ok tt }
    requires moment { is_moment state.old.moment ≡ true }
    ensures acts { Meets (spot W.World world.old state.old) (spot W.World world.new state.new)
        (λ d. spec.put_on d name.now letter records.now) result }
    ensures kept { state.new ≡ record state.old {
      table = state.new.table;
      places = state.new.places;
    } }
{
    let form = form_of(&state.table, letter, name);
    let stamp = Stamp::of(&state.moment);
    let file = data_of(alloc, form, records, &stamp)?;
    match write_file(alloc, world, state, letter, name, FileWrite::Put(&file))? {
        Updated::Done => Ok(Met::Told(ExtReply::Went)),
        Updated::Stopped(course) => refused(Ok(course)),
    }
}

/// Writes records in one update, as the file of a name on the disk of a letter: one that is there keeps its format and mode number, and a
/// new one has varying records and mode number 1.
pub(crate) fn put<W: World>(
    alloc: Global,
    world: &mut W,
    state: &mut State,
    name: &Name,
    letter: u8,
    records: &Records,
) -> Result<Met, End>
    requires usable { IsUsable (spot W.World world.old state.old) }
    requires moment { is_moment state.old.moment ≡ true }
    ensures acts { Meets (spot W.World world.old state.old) (spot W.World world.new state.new)
        (λ d. spec.putting d name.now letter records.now) result }
    ensures kept { state.new ≡ record state.old {
      table = state.new.table;
      places = state.new.places;
    } }
{
    match state.table.find_write(letter) {
        Ok(()) => write(alloc, world, state, name, letter, records),
        Err(fault) => refuse_unfound(alloc, world, state, name, letter, fault),
    }
}

// A file that an extension reads.
ghost use Rattle.std.specs.Prelude.{◌≡◌, IfOk};
ghost use Rattle.cms_model.specs.Records.{IsValid};
ghost use Rattle.cms_records.specs.Stored.{records_in};
ghost use Rattle.cms_search.specs.Calls.{IsUsable, spot};
ghost use Rattle.cms_search.specs.Machine.{letter_at};
ghost use Rattle.cms_files.specs.Files.{file_on};
ghost use Rattle.cms_files.specs.Told.{IsFoundAt};
ghost use Rattle.cms_ext.specs.Calls.{Meets};
ghost use Rattle.cms_ext.specs.Extensions as spec;

use crate::extension::ExtReply;
use crate::records::{Record, Records};
use crate::refused_wants::{refuse_unfound, refused};
use crate::wants::Met;
use cms_disk::{DiskFault, FileData};
use cms_names::Name;
use cms_operands::ReadMode;
use cms_records::Records as StoredRecords;
use cms_search::{End, Found, SearchFault, State, refuse_unread};
use cms_world::World;
use std::alloc::{AllocError, Global};

// The records in the data of a file.
fn records_of(alloc: Global, file: &FileData) -> Result<Records, AllocError>
    requires { IsValid file.now }
    ensures { IfOk result (λ records. records ≡ records_in file.now) }
{
    let mut records = Records::new(alloc);
    for record in StoredRecords::of(file) {
        records.push(Record::of(alloc, record)?)?;
    }
    Ok(records)
}

// Reads the file of a name whole, which was looked for by a letter, where the search found it.
fn read_on<W: World>(
    alloc: Global,
    world: &mut W,
    state: &State,
    name: &Name,
    letter: u8,
    found: Found,
) -> Result<Met, End>
    requires usable { IsUsable (spot W.World world.old state.now) }
    requires found { IsFoundAt state.now.table found name.now }
    ensures { Meets (spot W.World world.old state.now) (spot W.World world.new state.now)
        (λ d. spec.read_found d name.now letter
        (file_on d.machine name.now (letter_at d.machine found.letter)))
        result }
{
    let vdev = state.table.vdev(found.letter);
    let Some(disk) = state.table.disk(found.letter) else {
        return refuse_unfound(alloc, world, state, name, letter, SearchFault::NotFound);
    };
    match disk.get_at(alloc, world, found.place) {
        Ok(file) => Ok(Met::Told(ExtReply::File(records_of(alloc, &file)?))),
        Err(fault) => match fault {
            DiskFault::Device | DiskFault::Altered => {
                refused(refuse_unread(alloc, world, vdev, fault))
            }
            // the file is there, so this is want of memory
            _ => Err(End::Memory),
        },
    }
}

/// Reads the file of a name whole, as TYPE finds it by a letter: on its disk, and then on those whose parent it is. It is kept, whatever
/// its mode number.
pub(crate) fn get<W: World>(
    alloc: Global,
    world: &mut W,
    state: &State,
    name: &Name,
    letter: u8,
) -> Result<Met, End>
    requires usable { IsUsable (spot W.World world.old state.now) }
    ensures { Meets (spot W.World world.old state.now) (spot W.World world.new state.now)
        (λ d. spec.getting d name.now letter) result }
{
    match state.table.find_read(name, &ReadMode::Letter(letter)) {
        Ok(found) => read_on(alloc, world, state, name, letter, found),
        Err(fault) => refuse_unfound(alloc, world, state, name, letter, fault),
    }
}

// Files that are opened.
ghost use Rattle.std.specs.Prelude.{◌≡◌, ◌≤◌, Some, IfOk, IfErr};
ghost use Rattle.cms_fields.specs.Limits.{longest_record};
ghost use Rattle.cms_names.specs.declared.name.Name as names;
ghost use Rattle.cms_search.specs.Machine.{Machine, letter_at};
ghost use Rattle.cms_search.specs.Shows.{Shows};
ghost use Rattle.cms_search.specs.declared.state.End.TheVariants as ended;
ghost use Rattle.cms_files.specs.Files.{file_on};
ghost use Rattle.cms_files.specs.OpenFiles.{HasRecords, IsOpened};
ghost use Rattle.cms_files.specs.Told.{IsFoundAt, info_found};

use cms_disk::{Cursor, FileInfo};
use cms_names::Format;
use cms_search::{AccessTable, End, Found};
use std::alloc::Global;

/// A file that was opened.
#[derive(Drop)]
pub struct OpenFile {
    /// its records
    pub cursor: Cursor,
    /// whether they have one length
    pub format: Format,
    /// how many they are
    pub count: u32,
    /// the device of its disk
    pub vdev: u16,
}

/// Opens a file that a search found, of which this is told, before its first record, of which none is longer than a record may be; else
/// there is no memory.
pub fn open_found(
    alloc: Global,
    table: &AccessTable,
    found: Found,
    info: &FileInfo,
) -> Result<OpenFile, End>
    requires told { info_found table.now found ≡ Some info.now }
    ensures opened { IfOk result (λ file. (name : names.Name) → IsFoundAt table.now found name
        → IsOpened table.now found.letter name file) }
    ensures short { IfOk result (λ file. file.cursor.begun.longest ≤ longest_record) }
    ensures there { IfOk result (λ file. (name : names.Name) (s : Machine)
        → IsFoundAt table.now found name → Shows table.now s
        → HasRecords file.count (file_on s name (letter_at s found.letter))) }
    ensures count { IfOk result (λ file. file.count ≡ info.now.count) }
    ensures fault { IfErr result (λ e. e ≡ ended.Memory) }
{
    let disk = table.disk(found.letter).unwrap();
    match disk.cursor_at(alloc, found.place) {
        Ok(cursor) => Ok(OpenFile {
            cursor,
            format: info.format,
            count: info.count,
            vdev: table.vdev(found.letter),
        }),
        // the file is there, so this is want of memory
        Err(_) => Err(End::Memory),
    }
}

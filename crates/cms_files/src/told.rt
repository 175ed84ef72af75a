// What is told of files.
ghost use Rattle.std.specs.Prelude.{◌≡◌, IfSome};
ghost use Rattle.std.specs.Option.{option_map};
ghost use Rattle.cms_names.specs.declared.name.Name as names;
ghost use Rattle.cms_held.specs.Kept.{IsSized};
ghost use Rattle.cms_disk.specs.Disks.{IsFileInfo};
ghost use Rattle.cms_search.specs.Machine.{Machine, letter_at};
ghost use Rattle.cms_search.specs.Shows.{Shows};
ghost use Rattle.cms_files.specs.Files.{file_on};
ghost use Rattle.cms_files.specs.Told as spec;
ghost use Rattle.cms_files.specs.Told.{IsFoundAt};

use cms_disk::FileInfo;
use cms_names::Name;
use cms_search::{AccessTable, Found};

/// A file of a disk, and what is told of it.
#[derive(Clone, Copy)]
pub struct ToldFile {
    /// its place on the disk, from 0
    pub place: u32,
    pub info: FileInfo,
}

/// The file of a name on the disk of a letter; none where it isn't there.
pub fn told_named(table: &AccessTable, letter: u8, name: &Name) -> Option<ToldFile>
    ensures place { option_map (λ f. f.place) result
        ≡ spec.place_named table.now letter name.now }
    ensures told { option_map (λ f. f.info) result ≡ spec.info_named table.now letter name.now }
    ensures sound { IfSome result (λ f. IsFileInfo f.info) }
{
    let disk = table.disk(letter)?;
    let place = disk.find(name)?;
    Some(ToldFile {
        place,
        info: disk.info(place),
    })
}

/// What is told of the file of a name on the disk of a letter; none where it isn't there.
pub fn info_named(table: &AccessTable, letter: u8, name: &Name) -> Option<FileInfo>
    ensures told { result ≡ spec.info_named table.now letter name.now }
    ensures sound { IfSome result IsFileInfo }
{
    let disk = table.disk(letter)?;
    let place = disk.find(name)?;
    Some(disk.info(place))
}

/// What is told of a file that a search found; none where it isn't there.
pub fn info_found(table: &AccessTable, found: Found) -> Option<FileInfo>
    ensures { result ≡ spec.info_found table.now found }
{
    let disk = table.disk(found.letter)?;
    if found.place >= disk.count() {
        return None;
    }
    Some(disk.info(found.place))
}

/// How many bytes are stored of a file that a search found; none where it isn't there.
pub fn stored_found(table: &AccessTable, found: Found) -> Option<u32>
    ensures told { result ≡ spec.stored_found table.now found }
    ensures stored { IfSome result (λ bytes. (name : names.Name) (s : Machine)
        → IsFoundAt table.now found name → Shows table.now s
        → spec.HasStored bytes (file_on s name (letter_at s found.letter))) }
    ensures sized { IfSome result (λ bytes. IfSome (spec.info_found table.now found)
        (λ info. IsSized info.format info.length info.count bytes)) }
{
    let disk = table.disk(found.letter)?;
    if found.place >= disk.count() {
        return None;
    }
    Some(disk.stored(found.place))
}

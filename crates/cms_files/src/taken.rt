// The files of a disk that is written, and the disk of a file.
ghost use Rattle.std.specs.Prelude.{◌≡◌, ◌⊎◌, ◌<◌, ◌≤◌, All, Some, Ok, Err, IfOk, IfErr, IsSome, OnOk, length, map, slice_get};
ghost use Rattle.std.specs.List.{filter};
ghost use Rattle.std.specs.Option.{ForSome};
ghost use Rattle.cms_disk.specs.Disks.{place_of};
ghost use Rattle.cms_search.specs.Searches.{item_at};
ghost use Rattle.cms_search.specs.Tables.{letters_of, listed_held, shelves_of, writing};
ghost use Rattle.cms_search.specs.declared.fault.SearchFault.TheVariants.{Memory};
ghost use Rattle.cms_files.specs.Files as spec;

use crate::identifier::{NameChoice, takes_number};
use cms_disk::Minidisk;
use cms_names::Name;
use cms_operands::WriteMode;
use cms_search::{AccessTable, SearchFault};
use cms_text::Series;
use std::alloc::{AllocError, Global};
use std::marker::Model;

/// A file that a command takes: its name and its mode number.
#[derive(Drop)]
pub struct Listed {
    pub name: Name,
    /// 0 to 6
    pub number: u8,
}

impl Model for Listed {
    ghost use Rattle.cms_search.specs.Searches as searches;

    ghost Value = { searches.Listed };

    ghost view = { λ f. record { name = f.name; number = f.number } };
}

/// The files that a command takes, in the order in which they stood.
pub type TakenFiles = Series<Listed>;

impl Listed {
    // The file at a place of a disk.
    fn of(disk: &Minidisk, place: u32) -> Listed
        requires { place < length disk.now.volume.files }
        ensures told { slice_get (map listed_held disk.now.volume.files) place ≡ Some result }
        ensures number { result.number ≤ 6 }
    {
        Listed {
            name: disk.info(place).name,
            number: disk.mode_number(place),
        }
    }

    // Whether it is meant by a choice of names and a mode.
    fn is_taken(&self, names: &NameChoice, number: Option<u8>) -> bool
        ensures { result ≡ spec.is_taken names.now number self.now }
    {
        names.takes(&self.name) && takes_number(number, self.number)
    }
}

// The files of a disk that a choice of names and a mode number mean, in the directory's order.
fn collect(
    alloc: Global,
    disk: &Minidisk,
    names: &NameChoice,
    number: Option<u8>,
) -> Result<TakenFiles, AllocError>
    ensures taken { IfOk result (λ files. files
        ≡ filter (spec.is_taken names.now number) (map listed_held disk.now.volume.files)) }
    ensures numbers { IfOk result (All (λ f. f.number ≤ 6)) }
{
    let mut files = TakenFiles::new(alloc);
    for place in 0..disk.count() {
        let file = Listed::of(disk, place);
        if file.is_taken(names, number) {
            files.push(file)?;
        }
    }
    Ok(files)
}

/// The files of a disk that may be written which a choice of names and a mode mean, in the directory's order: `NotAccessed` exactly where
/// the mode's letter isn't accessed, else `ReadOnly` exactly where its disk may only be read, else `NotFound` exactly where there is none
/// of them; else there is no memory.
pub fn files_written(
    alloc: Global,
    table: &AccessTable,
    names: &NameChoice,
    mode: &WriteMode,
) -> Result<TakenFiles, SearchFault>
    ensures found { IfOk result (λ files.
        spec.files_written (shelves_of table.now) names.now mode.now ≡ Ok files) }
    ensures numbers { IfOk result (All (λ f. f.number ≤ 6)) }
    ensures refused { IfErr result (λ e. (e ≡ Memory)
        ⊎ (spec.files_written (shelves_of table.now) names.now mode.now ≡ Err e)) }
{
    table.find_write(mode.letter)?;
    let Some(disk) = table.disk(mode.letter) else {
        return Err(SearchFault::NotAccessed(mode.letter));
    };
    let files = collect(alloc, disk, names, mode.number)?;
    if files.is_empty() {
        return Err(SearchFault::NotFound);
    }
    Ok(files)
}

/// Whether the disk of a letter may be written and has a file of a name: `NotAccessed` and `ReadOnly` as above, else `NotFound` exactly
/// where it has none.
pub fn find_written(table: &AccessTable, letter: u8, name: &Name) -> Result<(), SearchFault>
    ensures found { OnOk result (IsSome
        (spec.found_shelf (spec.shelf_with (shelves_of table.now) letter name.now))) }
    ensures refused { IfErr result (λ e. spec.shelf_with (shelves_of table.now) letter name.now
        ≡ Err e) }
    ensures writing { OnOk result (writing (item_at (letters_of table.now) letter) letter ≡ Ok tt) }
    ensures there { OnOk result (ForSome (item_at table.now.seats letter)
        (λ s. IsSome (place_of name.now s.disk.volume))) }
{
    table.find_write(letter)?;
    match table.disk(letter) {
        Some(disk) if disk.has(name) => Ok(()),
        Some(_) => Err(SearchFault::NotFound),
        None => Err(SearchFault::NotAccessed(letter)),
    }
}

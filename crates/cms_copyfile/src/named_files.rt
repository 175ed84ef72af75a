// The files that are copied.
ghost use Rattle.std.specs.Prelude.{◌≡◌, ◌⊎◌, true, Ok, Err, IfOk, IfErr, IfSome};
ghost use Rattle.cms_names.specs.Names.{is_part};
ghost use Rattle.cms_search.specs.Machine.{Machine};
ghost use Rattle.cms_search.specs.Searches.{shelves_in};
ghost use Rattle.cms_search.specs.Shows.{Shows};
ghost use Rattle.cms_search.specs.Tables.{shelves_of};
ghost use Rattle.cms_search.specs.declared.fault.SearchFault.TheVariants.{Memory};
ghost use Rattle.cms_copyfile.specs.Copyfile as spec;
ghost use Rattle.cms_copyfile.specs.NamedFiles.{pattern_for};

use crate::line::CopyLine;
use cms_files::info_found;
use cms_names::{Name, Part, Pattern};
use cms_operands::WriteMode;
use cms_search::{AccessTable, Found, SearchFault};
use std::alloc::{AllocError, Global};

/// A file by the letter of its disk and its name. Its place wouldn't hold: the last file takes that of one that is dropped.
#[derive(Clone, Copy)]
pub struct NamedFile {
    /// the letter of its disk, A is 0
    pub letter: u8,
    pub name: Name,
}

// The pattern that fits every part of a name.
const ASTERISK: u8 = 0x5C;

// The pattern that fits a part of a name alone, or each.
fn pattern_for(part: Option<Part>) -> Pattern
    ensures pattern { result ≡ pattern_for part }
    ensures part { IfSome part (λ text. is_part text ≡ true) }
{
    match part {
        Some(part) => Pattern::read(part.as_bytes()).unwrap(),
        None => Pattern::read(&[ASTERISK]).unwrap(),
    }
}

// An output letter that is given is that of a disk that may be written.
fn check_output(table: &AccessTable, mode: Option<WriteMode>) -> Result<(), SearchFault>
    ensures { (s : Machine) → Shows table.now s
        → spec.output_is_written (shelves_in s) mode ≡ result }
{
    match mode {
        Some(mode) => table.find_write(mode.letter),
        None => Ok(()),
    }
}

// The file that a search found, by its name; none where it isn't there.
fn named_file(table: &AccessTable, found: Found) -> Option<NamedFile>
    ensures { result ≡ spec.named_at (shelves_of table.now) found }
{
    let info = info_found(table, found)?;
    Some(NamedFile {
        letter: found.letter,
        name: info.name,
    })
}

// The files that a search found, by their names.
fn named_files(
    alloc: Global,
    table: &AccessTable,
    found: &[Found],
) -> Result<Vec<NamedFile>, AllocError>
    ensures { IfOk result (λ files. files.items
        ≡ spec.files_named (shelves_of table.now) found.now) }
{
    found
        .iter()
        .filter_map(|file| named_file(table, *file))
        .collect(alloc)
}

/// The files that a line copies, letter by letter: `NotAccessed` where the input's letter isn't accessed, then what is the matter with the
/// output's disk, then `NotFound` where there is none of them; else there is no memory.
pub fn files_copied(
    alloc: Global,
    table: &AccessTable,
    line: &CopyLine,
) -> Result<Vec<NamedFile>, SearchFault>
    ensures found { IfOk result (λ files. (s : Machine) → Shows table.now s
        → spec.files_copied s line.now ≡ Ok files.items) }
    ensures refused { IfErr result (λ e. (e ≡ Memory)
        ⊎ ((s : Machine) → Shows table.now s → spec.files_copied s line.now ≡ Err e)) }
{
    let files = &line.files;
    let file = pattern_for(files.names.file);
    let kind = pattern_for(files.names.kind);
    let found = table.matches(alloc, &file, &kind, &files.mode)?;
    check_output(table, files.output.mode)?;
    let named = named_files(alloc, table, found.as_slice())?;
    if named.is_empty() {
        return Err(SearchFault::NotFound);
    }
    Ok(named)
}

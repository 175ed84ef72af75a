// Procedures that are found by their names.
ghost use Rattle.std.specs.Prelude.{◌≡◌, IfSome};
ghost use Rattle.std.specs.Option.{option_map};
ghost use Rattle.cms_files.specs.Told.{IsFoundAt};
ghost use Rattle.cms_search.specs.Machine.{Machine};
ghost use Rattle.cms_search.specs.Shows.{Shows};
ghost use Rattle.cms_search.specs.Tables.{shelves_of};
ghost use Rattle.cms_exec.specs.Searches as spec;

use cms_files::{exec_kind, info_found};
use cms_line::Token;
use cms_names::{Name, Part};
use cms_operands::{ReadMode, given};
use cms_search::{AccessTable, Found};
use exec2_run::FileName;

/// A procedure's file where a search found it.
#[derive(Clone, Copy)]
pub struct FoundProcedure {
    /// its name, the letter of its disk and its mode number
    pub file: FileName,
    /// its place on the disk, from 0
    pub place: u32,
}

// A file that was found, with its letter and its mode number.
fn file_found(table: &AccessTable, name: Name, found: Found) -> Option<FoundProcedure>
    ensures file { option_map (λ f. f.file) result
        ≡ spec.file_found (shelves_of table.now) name found }
    ensures there { IsFoundAt table.now found name → IfSome result (spec.IsThere table.now) }
{
    let info = info_found(table, found)?;
    Some(FoundProcedure {
        file: FileName {
            name,
            letter: found.letter,
            number: info.number,
        },
        place: found.place,
    })
}

/// The procedure of a name, the first that is found over all disks; none exactly where none is found.
pub fn find_procedure(table: &AccessTable, file: Part) -> Option<FoundProcedure>
    ensures procedure { (s : Machine) → Shows table.now s
        → option_map (λ f. f.file) result ≡ spec.procedure_named s file }
    ensures there { IfSome result (spec.IsThere table.now) }
{
    let name = Name {
        file,
        kind: exec_kind(),
    };
    match table.find_read(&name, &ReadMode::Any) {
        Ok(found) => file_found(table, name, found),
        Err(_) => None,
    }
}

// The first word, where it is a valid file name.
fn first_name(words: &[Token]) -> Option<Part>
    ensures { result ≡ spec.first_name words.now }
{
    match given(words, 0) {
        Some(text) => match Part::read(text) {
            Ok(file) => Some(file),
            Err(_) => None,
        },
        None => None,
    }
}

/// The procedure that a line's first word names; none exactly where that is no valid file name, or no such procedure is found.
pub fn find_called(table: &AccessTable, words: &[Token]) -> Option<FoundProcedure>
    ensures procedure { (s : Machine) → Shows table.now s
        → option_map (λ f. f.file) result ≡ spec.called_by s words.now }
    ensures there { IfSome result (spec.IsThere table.now) }
{
    match first_name(words) {
        Some(file) => find_procedure(table, file),
        None => None,
    }
}

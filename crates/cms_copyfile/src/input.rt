// The file that is copied is opened.
ghost use Rattle.std.specs.Prelude.{◌≡◌, ◌≤◌, Some, IfErr, IfOk};
ghost use Rattle.cms_fields.specs.Limits.{longest_record};
ghost use Rattle.cms_search.specs.declared.state.End.TheVariants.{Memory};
ghost use Rattle.cms_files.specs.OpenFiles.{IsOpened};
ghost use Rattle.cms_files.specs.Told.{info_named, place_named};

use crate::copy::FileCopy;
use cms_files::{OpenFile, open_found};
use cms_search::{AccessTable, End};
use std::alloc::Global;

/// Opens the file that is copied, as its disk tells of it.
pub(crate) fn open_input(
    alloc: Global,
    table: &AccessTable,
    file: &FileCopy,
) -> Result<OpenFile, End>
    requires place { Some file.now.place
        ≡ place_named table.now file.now.found.letter file.now.found.name }
    requires told { Some file.now.input
        ≡ info_named table.now file.now.found.letter file.now.found.name }
    ensures opened { IfOk result (IsOpened table.now file.now.found.letter file.now.found.name) }
    ensures short { IfOk result (λ input. input.cursor.begun.longest ≤ longest_record) }
    ensures fault { IfErr result (λ e. e ≡ Memory) }
{
    open_found(alloc, table, file.at(), &file.input)
}

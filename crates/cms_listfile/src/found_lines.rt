// The lines of files that were found.
ghost use Rattle.std.specs.Prelude.{◌≡◌, ◌++◌, IfOk, OnOk};
ghost use Rattle.cms_model.specs.Acts.{Done};
ghost use Rattle.cms_search.specs.Calls.{Does, said};
ghost use Rattle.cms_search.specs.Machine.{typing};
ghost use Rattle.cms_world.specs.Seen.{seen};
ghost use Rattle.cms_listfile.specs.Told as spec;

use crate::columns::Columns;
use crate::line::ListedFile;
use cms_files::info_found;
use cms_line::{Line, Lines};
use cms_search::{AccessTable, End, Found, say};
use cms_world::World;
use std::alloc::{AllocError, Global};

/// The file that was found; none where it isn't there.
pub fn listed_at(table: &AccessTable, found: Found) -> Option<ListedFile>
    ensures { result ≡ spec.listed_at table.now found }
{
    let disk = table.disk(found.letter)?;
    let info = info_found(table, found)?;
    let volid = disk.space().volid;
    Some(ListedFile {
        letter: found.letter,
        volid,
        info,
    })
}

// Types the line of a file.
fn type_file<W: World>(
    alloc: Global,
    world: &mut W,
    table: &AccessTable,
    last: Columns,
    found: Found,
) -> Result<(), End>
    ensures { Does (seen W.World world.old) (seen W.World world.new)
        (typing (spec.line_told last table.now found) (Done tt)) result said }
{
    let Some(file) = listed_at(table, found) else {
        return Ok(());
    };
    let line = file.line(alloc, last)?;
    say(world, &line)
}

/// Types the lines of files that were found, with their columns up to this one.
pub fn type_files<W: World>(
    alloc: Global,
    world: &mut W,
    table: &AccessTable,
    last: Columns,
    found: &[Found],
) -> Result<(), End>
    ensures { Does (seen W.World world.old) (seen W.World world.new)
        (typing (spec.lines_told last table.now found.now) (Done tt)) result said }
{
    for file in found {
        type_file(alloc, world, table, last, *file)?;
    }
    Ok(())
}

// Adds the line of a file.
fn add_file(
    alloc: Global,
    lines: &mut Lines,
    table: &AccessTable,
    last: Columns,
    found: Found,
) -> Result<(), AllocError>
    ensures { OnOk result (lines.new ≡ lines.old ++ spec.line_told last table.now found) }
{
    let Some(file) = listed_at(table, found) else {
        return Ok(());
    };
    let line = file.line(alloc, last)?;
    lines.push(Line::take(line))
}

/// Adds the lines of files that were found, with their columns up to this one.
pub fn add_files(
    alloc: Global,
    lines: &mut Lines,
    table: &AccessTable,
    last: Columns,
    found: &[Found],
) -> Result<(), AllocError>
    ensures { OnOk result (lines.new ≡ lines.old ++ spec.lines_told last table.now found.now) }
{
    for file in found {
        add_file(alloc, lines, table, last, *file)?;
    }
    Ok(())
}

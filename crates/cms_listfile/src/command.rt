// How LISTFILE runs.
ghost use Rattle.std.specs.Prelude.{◌≡◌, ◌⊎◌, [], true, Ok, Err, IfOk, IfErr, OnOk, pos};
ghost use Rattle.cms_fields.specs.Moments.{is_moment};
ghost use Rattle.cms_model.specs.Acts.{Done};
ghost use Rattle.cms_files.specs.StackedLines.{StacksSome, stacking};
ghost use Rattle.cms_search.specs.Calls.{Acts, Does, IsUsable, course_of, machine_of, said, spot};
ghost use Rattle.cms_search.specs.Machine.{Machine, typing};
ghost use Rattle.cms_search.specs.Shows.{Shows};
ghost use Rattle.cms_search.specs.declared.fault.SearchFault.TheVariants.{Memory};
ghost use Rattle.cms_search.specs.declared.state.Course.TheVariants.{Went};
ghost use Rattle.cms_world.specs.Seen.{seen};
ghost use Rattle.cms_listfile.specs.Lines.{lines_of};
ghost use Rattle.cms_listfile.specs.Listfile as spec;
ghost use Rattle.cms_listfile.specs.Told.{
  HasLines,
  MayDeliver,
  StacksFound,
  StacksLine,
  StacksListing,
  lines_told,
};

use crate::found_lines::{add_files, type_files};
use crate::line::header;
use crate::listfile::{Delivery, ListLine, ListStyle, list_line};
use crate::procedure::{DISK_A, write_listing};
use cms_files::{StackEnd, refuse_unfound, stack_lines};
use cms_line::{Line, Lines, Tokens};
use cms_search::{
    AccessTable, Course, End, Found, FoundList, SearchFault, State, refuse_command, say,
};
use cms_world::World;
use std::alloc::{AllocError, Global};

// Lines that are written need disk A, which may be written.
fn check_disk(table: &AccessTable, delivery: Delivery) -> Result<(), SearchFault>
    ensures disk { (s : Machine) → Shows table.now s → spec.has_disk s delivery ≡ result }
    ensures may { OnOk result (MayDeliver table.now delivery) }
{
    match delivery {
        Delivery::Typed => Ok(()),
        Delivery::Stacked(_) => Ok(()),
        Delivery::Written(_) => table.find_write(DISK_A),
    }
}

// The files that are listed: `NotAccessed` where the mode's letter isn't, then what is the matter with the disk that is written, then
// `NotFound` where there is none of them; else there is no memory.
fn files_listed(
    alloc: Global,
    table: &AccessTable,
    line: &ListLine,
) -> Result<FoundList, SearchFault>
    ensures found { IfOk result (λ found. (s : Machine) → Shows table.now s
        → spec.files_listed s line.now ≡ Ok found) }
    ensures refused { IfErr result (λ e. (e ≡ Memory)
        ⊎ ((s : Machine) → Shows table.now s → spec.files_listed s line.now ≡ Err e)) }
    ensures may { OnOk result (MayDeliver table.now line.now.style.delivery) }
    ensures some { IfOk result (λ found. HasLines line.now.style.columns table.now found) }
{
    let files = &line.files;
    let found = table.matches(alloc, &files.file, &files.kind, &files.mode)?;
    check_disk(table, line.style.delivery)?;
    if found.is_empty() {
        return Err(SearchFault::NotFound);
    }
    Ok(found)
}

// Types the header, where there is one.
fn type_header<W: World>(alloc: Global, world: &mut W, style: &ListStyle) -> Result<(), End>
    ensures { Does (seen W.World world.old) (seen W.World world.new)
        (typing (spec.with_header style.now []) (Done tt)) result said }
{
    if !style.header {
        return Ok(());
    }
    let line = header(alloc, style.columns)?;
    say(world, &line)
}

// Types the lines of files with their header.
fn type_listing<W: World>(
    alloc: Global,
    world: &mut W,
    table: &AccessTable,
    style: &ListStyle,
    found: &[Found],
) -> Result<Course, End>
    ensures does { Does (seen W.World world.old) (seen W.World world.new)
        (typing (spec.with_header style.now (lines_told style.now.columns table.now found.now))
        (Done tt)) result said }
    ensures went { IfOk result (λ course. course ≡ Went (pos 0)) }
{
    type_header(alloc, world, style)?;
    type_files(alloc, world, table, style.columns, found)?;
    Ok(Course::Went(0))
}

// The header, where there is one.
fn heading(alloc: Global, style: &ListStyle) -> Result<Lines, AllocError>
    ensures { IfOk result (λ lines. lines ≡ spec.with_header style.now []) }
{
    let mut lines = Lines::new(alloc);
    if !style.header {
        return Ok(lines);
    }
    let line = header(alloc, style.columns)?;
    lines.push(Line::take(line))?;
    Ok(lines)
}

// Stacks the lines of files with their header.
fn stack_listing<W: World>(
    alloc: Global,
    world: &mut W,
    state: &mut State,
    end: StackEnd,
    style: &ListStyle,
    found: &[Found],
) -> Result<Course, End>
    ensures acts { Acts (spot W.World world.old state.old) (spot W.World world.new state.new)
        (λ units. stacking (machine_of state.old units) end
        (spec.with_header style.now
        (lines_of (machine_of state.old units) style.now.columns found.now)))
        result (course_of state.new) }
    ensures stack { StacksSome end
        (spec.with_header style.now (lines_told style.now.columns state.old.table found.now))
        state.old.stack state.new.stack }
    ensures kept { state.new ≡ record state.old { stack = state.new.stack } }
{
    let mut lines = heading(alloc, style)?;
    add_files(alloc, &mut lines, &state.table, style.columns, found)?;
    stack_lines(alloc, world, state, end, &lines)
}

// Types, stacks or writes the lines of files.
fn deliver<W: World>(
    alloc: Global,
    world: &mut W,
    state: &mut State,
    style: &ListStyle,
    found: &[Found],
) -> Result<Course, End>
    requires usable { IsUsable (spot W.World world.old state.old) }
    requires may { MayDeliver state.old.table style.now.delivery }
    requires some { HasLines style.now.columns state.old.table found.now }
    requires moment { is_moment state.old.moment ≡ true }
    ensures acts { Acts (spot W.World world.old state.old) (spot W.World world.new state.new)
        (λ units. spec.delivering (machine_of state.old units) style.now style.now.delivery
        (lines_of (machine_of state.old units) style.now.columns found.now)) result
        (course_of state.new) }
    ensures stack { StacksListing style.now.delivery
        (spec.with_header style.now (lines_told style.now.columns state.old.table found.now))
        state.old.stack state.new.stack }
    ensures kept { state.new ≡ record state.old {
      table = state.new.table;
      stack = state.new.stack;
      places = state.new.places;
    } }
{
    match style.delivery {
        Delivery::Typed => type_listing(alloc, world, &state.table, style, found),
        Delivery::Stacked(end) => stack_listing(alloc, world, state, end, style, found),
        Delivery::Written(append) => {
            write_listing(alloc, world, state, style.columns, append, found)
        }
    }
}

// Lists the files that the line means.
fn list_files<W: World>(
    alloc: Global,
    world: &mut W,
    state: &mut State,
    words: &Tokens,
    line: &ListLine,
) -> Result<Course, End>
    requires usable { IsUsable (spot W.World world.old state.old) }
    requires moment { is_moment state.old.moment ≡ true }
    ensures acts { Acts (spot W.World world.old state.old) (spot W.World world.new state.new)
        (λ units. spec.list_files (machine_of state.old units) words.now line.now) result
        (course_of state.new) }
    ensures stack { (s : Machine) → Shows state.old.table s
        → StacksFound state.old.table line.now.style (spec.files_listed s line.now)
        state.old.stack state.new.stack }
    ensures kept { state.new ≡ record state.old {
      table = state.new.table;
      stack = state.new.stack;
      places = state.new.places;
    } }
{
    match files_listed(alloc, &state.table, line) {
        Ok(found) => deliver(alloc, world, state, &line.style, found.as_slice()),
        Err(fault) => refuse_unfound(alloc, world, words, 1, fault),
    }
}

/// LISTFILE: files are listed, to the console, onto the program stack or into a procedure. Without
/// memory for a line that is stacked those before it stay stacked.
pub fn run_listfile<W: World>(
    alloc: Global,
    world: &mut W,
    state: &mut State,
    words: &Tokens,
) -> Result<Course, End>
    requires usable { IsUsable (spot W.World world.old state.old) }
    requires moment { is_moment state.old.moment ≡ true }
    ensures acts { Acts (spot W.World world.old state.old) (spot W.World world.new state.new)
        (λ units. spec.listfile (machine_of state.old units) words.now) result
        (course_of state.new) }
    ensures stack { (s : Machine) → Shows state.old.table s
        → StacksLine state.old.table s (spec.list_line words.now) state.old.stack state.new.stack }
    ensures kept { state.new ≡ record state.old {
      table = state.new.table;
      stack = state.new.stack;
      places = state.new.places;
    } }
{
    match list_line(alloc, words) {
        Ok(line) => list_files(alloc, world, state, words, &line),
        Err(fault) => refuse_command(alloc, world, words, fault),
    }
}

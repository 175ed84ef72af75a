// CENTURY.
ghost use Rattle.cms_operands.specs.Choices.{AnswersLine};
ghost use Rattle.std.specs.Prelude.{◌≡◌, ◌≤◌, true, Ok};
ghost use Rattle.cms_fields.specs.Moments.{is_moment};
ghost use Rattle.cms_search.specs.Calls.{Acts, IsUsable, course_of, machine_of, spot};
ghost use Rattle.cms_search.specs.Searches.{item_at};
ghost use Rattle.cms_search.specs.Tables.{letters_of, writing};
ghost use Rattle.cms_access.specs.Century as spec;

use cms_edf::Change;
use cms_line::{Token, Tokens};
use cms_operands::{
    CommandFault, Refusal, ended, letter, needed, number_or, operands, without_options,
};
use cms_search::{
    Course, End, State, change_disk, refuse_command, refuse_not_accessed, refuse_read_only,
    tell_change,
};
use cms_world::World;
use std::alloc::Global;

/// What CENTURY's line says.
#[derive(Clone, Copy)]
pub struct CenturyLine {
    /// A is 0
    pub letter: u8,
    /// stamps of a year below 1900 and this are moved
    pub pivot: u32,
}

#[tactic(auto, unfolding(crate::specs::Century::century_operands))]
fn century_operands(operands: &[Token]) -> Result<CenturyLine, Refusal>
    ensures { result ≡ spec.century_operands operands.now }
{
    let letter = letter(1, needed(operands, 1)?)?;
    let pivot = number_or(0, 100, operands, 2, 70)?;
    ended(operands, 3)?;
    Ok(CenturyLine { letter, pivot })
}

/// What CENTURY's line says, or why it is refused. The pivot is 0 to 100, and 70 where it is left out.
pub fn century_line(alloc: Global, words: &Tokens) -> Result<CenturyLine, CommandFault>
    ensures { AnswersLine (spec.century_line words.now) result }
{
    without_options(alloc, words, century_operands(operands(words.as_slice())))
}

// The stamps of the files of a disk that may be written are moved.
fn move_stamps<W: World>(
    alloc: Global,
    world: &mut W,
    state: &mut State,
    line: CenturyLine,
) -> Result<Course, End>
    requires usable { IsUsable (spot W.World world.old state.old) }
    requires writing { writing (item_at (letters_of state.old.table) line.letter) line.letter
        ≡ Ok tt }
    requires pivot { line.pivot ≤ 100 }
    requires moment { is_moment state.old.moment ≡ true }
    ensures acts { Acts (spot W.World world.old state.old) (spot W.World world.new state.new)
        (λ units. spec.moving_stamps line (machine_of state.old units)) result
        (course_of state.new) }
    ensures kept { state.new ≡ record state.old {
      table = state.new.table;
      places = state.new.places;
    } }
{
    let change = Change::Century { pivot: line.pivot };
    let changed = change_disk(alloc, world, state, line.letter, &change)?;
    tell_change(alloc, world, state, line.letter, changed)
}

// The stamps of the files of a disk are moved.
fn century_disk<W: World>(
    alloc: Global,
    world: &mut W,
    state: &mut State,
    line: CenturyLine,
) -> Result<Course, End>
    requires usable { IsUsable (spot W.World world.old state.old) }
    requires pivot { line.pivot ≤ 100 }
    requires moment { is_moment state.old.moment ≡ true }
    ensures acts { Acts (spot W.World world.old state.old) (spot W.World world.new state.new)
        (λ units. spec.century_letter (machine_of state.old units) line) result
        (course_of state.new) }
    ensures kept { state.new ≡ record state.old {
      table = state.new.table;
      places = state.new.places;
    } }
{
    let Some(seat) = state.table.seat(line.letter) else {
        return refuse_not_accessed(alloc, world, line.letter);
    };
    if seat.read_only {
        return refuse_read_only(alloc, world, line.letter);
    }
    move_stamps(alloc, world, state, line)
}

/// CENTURY: the stamps of the files of an accessed disk are moved. Those of a year below 1900 and the pivot are a century later.
pub fn run_century<W: World>(
    alloc: Global,
    world: &mut W,
    state: &mut State,
    words: &Tokens,
) -> Result<Course, End>
    requires usable { IsUsable (spot W.World world.old state.old) }
    requires moment { is_moment state.old.moment ≡ true }
    ensures acts { Acts (spot W.World world.old state.old) (spot W.World world.new state.new)
        (λ units. spec.century (machine_of state.old units) words.now) result
        (course_of state.new) }
    ensures kept { state.new ≡ record state.old {
      table = state.new.table;
      places = state.new.places;
    } }
{
    match century_line(alloc, words) {
        Ok(line) => century_disk(alloc, world, state, line),
        Err(fault) => refuse_command(alloc, world, words, fault),
    }
}

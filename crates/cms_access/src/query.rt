// QUERY.
ghost use Rattle.cms_operands.specs.Choices.{AnswersLine};
ghost use Rattle.std.specs.Prelude.{◌≡◌, ◌∷◌, IfOk, pos};
ghost use Rattle.cms_model.specs.Acts.{Done};
ghost use Rattle.cms_search.specs.Calls.{Acts, Does, course_of, machine_of, said, spot};
ghost use Rattle.cms_search.specs.Machine.{letter_at, typing};
ghost use Rattle.cms_search.specs.declared.state.Course.TheVariants.{Went};
ghost use Rattle.cms_world.specs.Seen.{seen};
ghost use Rattle.cms_access.specs.Query as spec;
ghost use Rattle.cms_access.specs.Shown.{lines_from, seat_lines};
ghost use Rattle.cms_access.specs.declared.query.Question.TheVariants as asked;
ghost use Rattle.cms_access.specs.declared.shown.Shown.TheVariants as shown;

use crate::shown::{Shown, type_disk, type_disks};
use cms_line::{Token, Tokens};
use cms_operands::{
    CommandFault, Refusal, coded, ended, given_letter_or_all, needed, operands, without_options,
};
use cms_search::{AccessTable, Course, End, State, refuse_command, refuse_not_accessed, say};
use cms_text::is_keyword;
use cms_world::World;
use std::alloc::Global;

/// What QUERY asks for.
#[derive(Clone, Copy)]
pub enum Question {
    /// the disk of a letter, A is 0; or all disks
    Disks(Option<u8>),
    /// how disks are searched
    Search,
}

fn disk_operands(operands: &[Token]) -> Result<Question, Refusal>
    ensures { result ≡ spec.disk_operands operands.now }
{
    let letter = given_letter_or_all(operands, 2)?;
    ended(operands, 3)?;
    Ok(Question::Disks(letter))
}

fn search_operands(operands: &[Token]) -> Result<Question, Refusal>
    ensures { result ≡ spec.search_operands operands.now }
{
    ended(operands, 2)?;
    Ok(Question::Search)
}

fn query_of(operands: &[Token], text: &[u8]) -> Result<Question, Refusal>
    ensures { result ≡ spec.query_of operands.now text.now }
{
    if is_keyword(text, "DISK") {
        return disk_operands(operands);
    }
    if is_keyword(text, "SEARCH") {
        return search_operands(operands);
    }
    Err(Refusal::BadOperand(1))
}

#[tactic(auto, unfolding(crate::specs::Query::query_operands))]
fn query_operands(operands: &[Token]) -> Result<Question, Refusal>
    ensures { result ≡ spec.query_operands operands.now }
{
    query_of(operands, needed(operands, 1)?)
}

/// What QUERY's line says, or why it is refused.
pub fn query_line(alloc: Global, words: &Tokens) -> Result<Question, CommandFault>
    ensures { AnswersLine (spec.query_line words.now) result }
{
    without_options(alloc, words, query_operands(operands(words.as_slice())))
}

// The header of QUERY DISK.
fn header() -> [u8; 56]
    ensures { result ≡ spec.header }
{
    coded(b"LABEL  VDV M STA BLKSZ  FILES     USED     FREE    TOTAL")
}

// Types the rooms of all disks.
fn tell_disks<W: World>(alloc: Global, world: &mut W, table: &AccessTable) -> Result<Course, End>
    ensures does { Does (seen W.World world.old) (seen W.World world.new)
        (typing (spec.header ∷ lines_from (λ n. seat_lines shown.Disk table.now n) 0 26) (Done tt))
        result said }
    ensures went { IfOk result (λ course. course ≡ Went (pos 0)) }
{
    say(world, &header())?;
    type_disks(alloc, world, table, Shown::Disk)?;
    Ok(Course::Went(0))
}

// Types the room of a letter's disk.
fn tell_disk<W: World>(
    alloc: Global,
    world: &mut W,
    table: &AccessTable,
    letter: u8,
) -> Result<Course, End>
    ensures does { Does (seen W.World world.old) (seen W.World world.new)
        (typing (spec.header ∷ seat_lines shown.Disk table.now letter) (Done tt)) result said }
    ensures went { IfOk result (λ course. course ≡ Went (pos 0)) }
{
    say(world, &header())?;
    type_disk(alloc, world, table, Shown::Disk, letter)?;
    Ok(Course::Went(0))
}

// Types how all disks are searched.
fn tell_search<W: World>(alloc: Global, world: &mut W, table: &AccessTable) -> Result<Course, End>
    ensures does { Does (seen W.World world.old) (seen W.World world.new)
        (typing (lines_from (λ n. seat_lines shown.Search table.now n) 0 26) (Done tt)) result
        said }
    ensures went { IfOk result (λ course. course ≡ Went (pos 0)) }
{
    type_disks(alloc, world, table, Shown::Search)?;
    Ok(Course::Went(0))
}

// What is told of a letter's disk.
fn tell_letter<W: World>(
    alloc: Global,
    world: &mut W,
    state: &State,
    letter: u8,
) -> Result<Course, End>
    ensures { Acts (spot W.World world.old state.now) (spot W.World world.new state.now)
        (λ units. spec.query_letter (machine_of state.now units) letter
        (letter_at (machine_of state.now units) letter))
        result (course_of state.now) }
{
    if let None = state.table.seat(letter) {
        return refuse_not_accessed(alloc, world, letter);
    }
    tell_disk(alloc, world, &state.table, letter)
}

// What is told of a letter's disk, or of all.
fn tell_rooms<W: World>(
    alloc: Global,
    world: &mut W,
    state: &State,
    letter: Option<u8>,
) -> Result<Course, End>
    ensures { Acts (spot W.World world.old state.now) (spot W.World world.new state.now)
        (λ units. spec.answer (machine_of state.now units) (asked.Disks letter)) result
        (course_of state.now) }
{
    match letter {
        None => tell_disks(alloc, world, &state.table),
        Some(letter) => tell_letter(alloc, world, state, letter),
    }
}

// What is asked for.
fn tell<W: World>(
    alloc: Global,
    world: &mut W,
    state: &State,
    question: Question,
) -> Result<Course, End>
    ensures { Acts (spot W.World world.old state.now) (spot W.World world.new state.now)
        (λ units. spec.answer (machine_of state.now units) question) result (course_of state.now) }
{
    match question {
        Question::Disks(letter) => tell_rooms(alloc, world, state, letter),
        Question::Search => tell_search(alloc, world, &state.table),
    }
}

/// QUERY: disks are told of.
pub fn run_query<W: World>(
    alloc: Global,
    world: &mut W,
    state: &State,
    words: &Tokens,
) -> Result<Course, End>
    ensures { Acts (spot W.World world.old state.now) (spot W.World world.new state.now)
        (λ units. spec.query (machine_of state.now units) words.now) result (course_of state.now) }
{
    match query_line(alloc, words) {
        Ok(question) => tell(alloc, world, state, question),
        Err(fault) => refuse_command(alloc, world, words, fault),
    }
}

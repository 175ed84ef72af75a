// STATE.
ghost use Rattle.std.specs.Prelude.{◌≡◌};
ghost use Rattle.cms_operands.specs.Choices.{AnswersLine};
ghost use Rattle.cms_search.specs.Calls.{Acts, course_of, machine_of, spot};
ghost use Rattle.cms_fileops.specs.State as spec;

use cms_files::{FileInput, file_input, refuse_unfound};
use cms_line::{Token, Tokens};
use cms_operands::{CommandFault, Refusal, ended, operands, without_options};
use cms_search::{Course, End, State, refuse_command};
use cms_world::World;
use std::alloc::Global;

#[tactic(auto, unfolding(crate::specs::State::state_operands))]
fn state_operands(operands: &[Token]) -> Result<FileInput, Refusal>
    ensures { result ≡ spec.state_operands operands.now }
{
    let input = file_input(operands, 1)?;
    ended(operands, 4)?;
    Ok(input)
}

/// What STATE's line says, or why it is refused.
pub fn state_line(alloc: Global, words: &Tokens) -> Result<FileInput, CommandFault>
    ensures { AnswersLine (spec.state_line words.now) result }
{
    without_options(alloc, words, state_operands(operands(words.as_slice())))
}

// Whether the file is there.
fn look_for<W: World>(
    alloc: Global,
    world: &mut W,
    state: &State,
    words: &Tokens,
    input: &FileInput,
) -> Result<Course, End>
    ensures { Acts (spot W.World world.old state.now) (spot W.World world.new state.now)
        (λ units. spec.look_for (machine_of state.now units) words.now input.now) result
        (course_of state.now) }
{
    match state.table.find_read(&input.name, &input.mode) {
        Ok(_) => Ok(Course::Went(0)),
        Err(fault) => refuse_unfound(alloc, world, words, 1, fault),
    }
}

/// STATE: whether a file is there.
pub fn run_state<W: World>(
    alloc: Global,
    world: &mut W,
    state: &mut State,
    words: &Tokens,
) -> Result<Course, End>
    ensures acts { Acts (spot W.World world.old state.old) (spot W.World world.new state.new)
        (λ units. spec.state (machine_of state.old units) words.now) result (course_of state.new) }
    ensures kept { state.new ≡ state.old }
{
    match state_line(alloc, words) {
        Ok(input) => look_for(alloc, world, state, words, &input),
        Err(fault) => refuse_command(alloc, world, words, fault),
    }
}

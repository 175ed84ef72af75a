// Lines that are put onto the program stack.
ghost use Rattle.std.specs.Prelude.{◌≡◌, ◌+◌, nat_le, length, OnErr, OnOk};
ghost use Rattle.cms_line.specs.Stack.{most_lines};
ghost use Rattle.cms_search.specs.Calls.{Acts, course_of, machine_of, spot};
ghost use Rattle.cms_files.specs.Pushes.{with_line};
ghost use Rattle.cms_files.specs.StackedLines as spec;

use cms_line::{Line, Lines, ProgStack, PushFault, STACK_LINES};
use cms_search::{Course, End, State, refuse_limit};
use cms_world::World;
use std::alloc::{AllocError, Global};

/// Where lines are stacked.
#[derive(Clone, Copy)]
pub enum StackEnd {
    /// in front of all others
    Front,
    /// behind all others
    Back,
}

// The limit of stacked lines.
const STACK_LIMIT: u32 = 4;

/// Whether there is room on the program stack for all of these lines.
pub fn has_room(stack: &ProgStack, lines: &Lines) -> bool
    ensures { result ≡ nat_le (length stack.now + length lines.now) most_lines }
{
    match stack.len().checked_add(lines.len()) {
        Some(count) => count <= STACK_LINES,
        None => false,
    }
}

// Stacks a line.
fn push(stack: &mut ProgStack, end: StackEnd, line: Line) -> Result<(), PushFault>
    ensures ok { OnOk result (stack.new ≡ with_line end line stack.old) }
    ensures err { OnErr result (stack.new ≡ stack.old) }
{
    match end {
        StackEnd::Front => stack.push_front(line),
        StackEnd::Back => stack.push_back(line),
    }
}

// Stacks lines, one after another. Without memory for one of them those before it stay stacked.
fn push_all(
    alloc: Global,
    stack: &mut ProgStack,
    end: StackEnd,
    lines: &[Line],
) -> Result<(), AllocError>
    ensures ok { OnOk result (stack.new ≡ spec.stacked end lines.now stack.old) }
    ensures first { spec.StacksFirst end lines.now stack.old stack.new }
{
    for line in lines {
        // there is room, so this is want of memory
        if let Err(_) = push(stack, end, Line::of(alloc, line.bytes())?) {
            return Err(AllocError);
        }
    }
    Ok(())
}

/// Stacks lines behind all others, or one after another in front of them. Where they don't all fit none is stacked, and that is typed.
/// Without memory for one of them those before it stay stacked.
pub fn stack_lines<W: World>(
    alloc: Global,
    world: &mut W,
    state: &mut State,
    end: StackEnd,
    lines: &Lines,
) -> Result<Course, End>
    ensures acts { Acts (spot W.World world.old state.old) (spot W.World world.new state.new)
        (λ units. spec.stacking (machine_of state.old units) end lines.now) result
        (course_of state.new) }
    ensures stack { spec.StacksSome end lines.now state.old.stack state.new.stack }
    ensures kept { state.new ≡ record state.old { stack = state.new.stack } }
{
    if !has_room(&state.stack, lines) {
        return refuse_limit(alloc, world, STACK_LIMIT);
    }
    push_all(alloc, &mut state.stack, end, lines.as_slice())?;
    Ok(Course::Went(0))
}

// A line that a command asks for.
ghost use Rattle.std.specs.Prelude.{◌≡◌, ◌≤◌, IfOk, OnErr, OnOk, drop};
ghost use Rattle.cms_model.specs.Acts.{Done, taking, turning};
ghost use Rattle.cms_line.specs.ConsoleState as states;
ghost use Rattle.cms_line.specs.Consoles.{Stayed, Took, item_of};
ghost use Rattle.cms_search.specs.Asks.{ask, complaining, complaint, dropping};
ghost use Rattle.cms_search.specs.Calls.{Does, itself, said};
ghost use Rattle.cms_world.specs.Seen.{seen};
ghost use Rattle.cms_search.specs.Machine.{Machine};
ghost use Rattle.cms_search.specs.Talks.{KeepsRead, Talks, asked_in, item_in, with_lines};

use crate::output::say_message;
use crate::state::End;
use cms_line::{Console, ConsoleLine, Line, LineFault, Message, ProgStack};
use cms_world::World;
use std::alloc::Global;

/// What an ask comes to.
#[derive(Drop)]
pub enum Asked {
    /// a line, empty at the script's end
    Given(Line),
    /// a line of the console was to be dropped, and no turn is left for it
    Spent,
}

// What the console gives that is no line.
#[derive(Clone, Copy)]
enum NoLine {
    /// a line with a character that isn't printable
    Bad,
    /// the beginning of a line of more than 255 bytes
    Long,
    /// a further piece of one
    Rest,
}

// The next line of the console.
fn take<W: World>(world: &mut W, console: &mut Console) -> Result<ConsoleLine, End>
    ensures talks { Talks (seen W.World world.old) (seen W.World world.new) console.old console.new
        taking result item_of }
    ensures took { IfOk result
        (Took (W.told world.old) (W.told world.new) console.old console.new) }
    ensures kept { OnErr result
        (Stayed (W.told world.old) (W.told world.new) console.old console.new) }
{
    match console.next(world) {
        Ok(line) => Ok(line),
        Err(LineFault::World) => Err(End::Edge),
        Err(LineFault::Memory) => Err(End::Memory),
    }
}

/// The seconds of the clock.
pub fn clock<W: World>(world: &mut W) -> Result<i64, End>
    ensures { Does (seen W.World world.old) (seen W.World world.new) turning result itself }
{
    match world.now() {
        Ok(seconds) => Ok(seconds),
        Err(_) => Err(End::Edge),
    }
}

// Types what is wrong with it; nothing for a further piece.
fn complain<W: World>(alloc: Global, world: &mut W, no_line: NoLine) -> Result<(), End>
    ensures { Does (seen W.World world.old) (seen W.World world.new)
        (complaining (complaint (item_in no_line)) (Done tt)) result said }
{
    match no_line {
        NoLine::Bad => say_message(alloc, world, Message::M010),
        NoLine::Long => say_message(alloc, world, Message::M011),
        NoLine::Rest => Ok(()),
    }
}

// Drops it, which costs a turn: the clock is asked.
fn drop_item<W: World>(alloc: Global, world: &mut W, no_line: NoLine) -> Result<(), End>
    ensures { (c : states.Console) → Talks (seen W.World world.old) (seen W.World world.new) c c
        (dropping (complaint (item_in no_line))) result said }
{
    clock(world)?;
    complain(alloc, world, no_line)
}

/// The line that a command asks for: the stack's next, else the console's next, and at the script's end the empty line.
///
/// A line of the console that isn't printable or is too long is dropped for a turn, with its
/// message, and the next one is taken. After an `Err` the stack is as before, what was dropped and
/// spent stays so, and all else that was read is kept.
pub fn ask<W: World>(
    alloc: Global,
    world: &mut W,
    stack: &mut ProgStack,
    console: &mut Console,
    left: &mut u64,
) -> Result<Asked, End>
    ensures talks { (s : Machine)
        → Talks (seen W.World world.old) (seen W.World world.new) console.old console.new
        (ask (with_lines s stack.old left.old)) result
        (asked_in (with_lines s stack.new left.new)) }
    ensures stack { OnErr result (stack.new ≡ stack.old) }
    ensures took { OnOk result (stack.new ≡ drop 1 stack.old) }
    ensures read { OnErr result (KeepsRead (W.told world.old) (W.told world.new)
        console.old console.new left.old left.new) }
    ensures left { left.new ≤ left.old }
{
    if let Some(line) = stack.pop() {
        return Ok(Asked::Given(line));
    }
    loop {
        let no_line = match take(world, console)? {
            ConsoleLine::Text(line) => return Ok(Asked::Given(line)),
            ConsoleLine::End => return Ok(Asked::Given(Line::take(Vec::new(alloc)))),
            ConsoleLine::Bad => NoLine::Bad,
            ConsoleLine::Long => NoLine::Long,
            ConsoleLine::Rest => NoLine::Rest,
        };
        if *left == 0 {
            return Ok(Asked::Spent);
        }
        *left -= 1;
        drop_item(alloc, world, no_line)?;
    }
}

// Lines that DISKW asks for.
ghost use Rattle.std.specs.Prelude.{◌≡◌, ◌≤◌, ℕ, List, length, IfOk};
ghost use Rattle.cms_search.specs.Calls.{Acts, spot};
ghost use Rattle.cms_execio.specs.AskedLines.{TakesFront, asked_lines_of, asking_tree};
ghost use Rattle.cms_execio.specs.declared.asked_lines.AskedLines.TheVariants.{All};

use cms_line::Lines;
use cms_search::{Asked, End, State};
use cms_world::World;
use std::alloc::Global;

/// What asking for lines comes to.
#[derive(Drop)]
pub enum AskedLines {
    All(Lines),
    /// the turns are spent, and a further one is due
    Spent,
}

/// Asks for so many lines, one after another. After an `Err` what was taken and spent stays so.
pub fn ask_lines<W: World>(
    alloc: Global,
    world: &mut W,
    state: &mut State,
    count: u32,
) -> Result<AskedLines, End>
    ensures acts { Acts (spot W.World world.old state.old) (spot W.World world.new state.new)
        (asking_tree state.old count) result (asked_lines_of state.new) }
    ensures all { IfOk result (λ asked. (lines : List (List ℕ)) → asked ≡ All lines
        → length lines ≡ count) }
    ensures kept { state.new ≡ record state.old {
      stack = state.new.stack;
      console = state.new.console;
      left = state.new.left;
    } }
    ensures stack { TakesFront count state.old.stack state.new.stack }
    ensures left { state.new.left ≤ state.old.left }
{
    let mut lines = Lines::new(alloc);
    for _asked in 0..count {
        match state.ask(alloc, world)? {
            Asked::Given(line) => lines.push(line)?,
            Asked::Spent => return Ok(AskedLines::Spent),
        }
    }
    Ok(AskedLines::All(lines))
}

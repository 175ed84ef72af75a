// The open calls.
ghost use Rattle.std.specs.Prelude.{◌≡◌};
ghost use Rattle.exec2_run.specs.Given.{line_of_last};

use crate::loops::Loops;
use crate::stack::Stack;
use exec2_parse::Vars;

/// An open call: what its &RETURN brings back.
#[derive(Drop)]
pub struct Call {
    /// The line of its &CALL, from 1.
    pub line: u32,
    /// The loops that were open there.
    pub loops: Loops,
    /// The arguments that were set.
    pub arguments: Vars,
    /// How many arguments there were, which is &N.
    pub count: usize,
}

/// The open calls, the last one first.
pub type Calls = Stack<Call>;

/// The line of the last open &CALL, or 0.
pub fn line_of_last(calls: &Calls) -> u32
    ensures { result ≡ line_of_last calls.now }
{
    match calls.get(0) {
        Some(call) => call.line,
        None => 0,
    }
}

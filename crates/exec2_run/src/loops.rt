// The open loops.
ghost use Rattle.std.specs.Prelude.{◌≡◌};
ghost use Rattle.exec2_run.specs.Open.{one_less, with_pass};

use crate::comparison::Comparison;
use crate::stack::Stack;
use cms_text::Word;

/// The comparison of a WHILE or UNTIL, expanded at each test.
#[derive(Drop)]
pub struct Test {
    pub left: Word,
    pub comparison: Comparison,
    pub right: Word,
}

/// Which passes a loop still makes.
#[derive(Drop)]
pub enum Passes {
    /// So many more.
    Left(u64),
    /// One after another.
    Forever,
    /// Tested before each.
    While(Test),
    /// Tested after each.
    Until(Test),
}

impl Passes {
    /// One more begins.
    fn begin(&mut self)
        ensures { self.new ≡ one_less self.old }
    {
        if let Passes::Left(count) = self {
            *count = count.saturating_sub(1);
        }
    }
}

/// An open loop.
#[derive(Drop)]
pub struct Loop {
    /// The line of its &LOOP, from 1.
    pub line: u32,
    /// The place of the range's first line, from 0.
    pub first: u32,
    /// The place past the range.
    pub past: u32,
    pub passes: Passes,
}

/// The open loops, the innermost first.
pub type Loops = Stack<Loop>;

impl Stack<Loop> {
    /// Another pass of the innermost loop begins.
    pub fn begin_pass(&mut self)
        ensures { self.new ≡ with_pass self.old }
    {
        if let Some(innermost) = self.items.front_mut() {
            innermost.passes.begin();
        }
    }
}

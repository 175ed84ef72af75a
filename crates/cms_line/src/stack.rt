// The program stack.
ghost use Rattle.std.specs.Prelude.{◌≡◌, ◌↔◌, [], ◌∷◌, ◌++◌, length, MatchOption, OnOk, OnErr, IsTrue};
ghost use Rattle.cms_line.specs.Stack.{most_lines};

use crate::Line;
use std::alloc::Global;
use std::collections::VecDeque;
use std::marker::Model;

/// How many lines a program stack holds at most.
pub const STACK_LINES: usize = 10_000;

/// Why a line wasn't stacked.
#[derive(Clone, Copy)]
pub enum PushFault {
    /// the stack has 10,000 lines
    Full,
    /// no memory was left
    Memory,
}

/// The lines that a program left for the next command that asks for one: at most 10,000, taken from the front.
#[derive(Drop)]
pub struct ProgStack {
    lines: VecDeque<Line>,
}

impl Model for ProgStack {
    ghost use Rattle.std.specs.Prelude.{List, ℕ, length, ◌≤◌};
    ghost use Rattle.cms_line.specs.Stack.{most_lines};

    ghost Value = { List (List ℕ) };

    ghost view = { λ s. s.lines.items };

    ghost invariant = { λ s. length s.lines.items ≤ most_lines };
}

impl ProgStack {
    /// An empty stack.
    pub fn new(alloc: Global) -> Self
        ensures { result ≡ [] }
    {
        ProgStack {
            lines: VecDeque::new(alloc),
        }
    }

    /// Stacks a line in front of all others.
    pub fn push_front(&mut self, line: Line) -> Result<(), PushFault>
        ensures ok { OnOk result (self.new ≡ line ∷ self.old) }
        ensures full { (result ≡ Err PushFault.Full) ↔ (length self.old ≡ most_lines) }
        ensures err { OnErr result (self.new ≡ self.old) }
    {
        if self.lines.len() == STACK_LINES {
            return Err(PushFault::Full);
        }
        match self.lines.push_front(line) {
            Ok(()) => Ok(()),
            Err(_) => Err(PushFault::Memory),
        }
    }

    /// Stacks a line behind all others.
    pub fn push_back(&mut self, line: Line) -> Result<(), PushFault>
        ensures ok { OnOk result (self.new ≡ self.old ++ line ∷ []) }
        ensures full { (result ≡ Err PushFault.Full) ↔ (length self.old ≡ most_lines) }
        ensures err { OnErr result (self.new ≡ self.old) }
    {
        if self.lines.len() == STACK_LINES {
            return Err(PushFault::Full);
        }
        match self.lines.push_back(line) {
            Ok(()) => Ok(()),
            Err(_) => Err(PushFault::Memory),
        }
    }

    /// Takes the line in front; none where the stack is empty.
    pub fn pop(&mut self) -> Option<Line>
        ensures { MatchOption result ((self.old ≡ []) × (self.new ≡ []))
            (λ line. self.old ≡ line ∷ self.new) }
    {
        self.lines.pop_front()
    }

    /// How many lines are stacked, at most 10,000.
    pub fn len(&self) -> usize
        ensures { result ≡ length self.now }
    {
        self.lines.len()
    }

    /// Whether no line is stacked.
    pub fn is_empty(&self) -> bool
        ensures { IsTrue result ↔ (self.now ≡ []) }
    {
        self.lines.is_empty()
    }
}

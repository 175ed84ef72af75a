// The program stack.
use crate::texts::{blank_number, blank_word};
use cms_cases::Report;
use cms_line::{Line, ProgStack, PushFault};
use std::alloc::Global;

/// How many lines of `a` are stacked, and the steps behind that: a small letter is stacked behind, a capital in front, a hyphen takes a
/// line, and a question mark asks whether there is none. What comes of the steps, and how many lines are left.
pub const ROWS: &str = "0 cBAd?-?-?-?-?- => ....fAfBfcfde- 0
10000 =>  10000
10000 bB => !! 10000
10000 bB-B- => !!a.B 9999";

// Stacks a line of one byte, and says whether the stack isn't full.
fn push(alloc: Global, stack: &mut ProgStack, byte: u8, is_front: bool) -> char {
    let Ok(line) = Line::of(alloc, &[byte]) else {
        return '?';
    };
    let pushed = if is_front {
        stack.push_front(line)
    } else {
        stack.push_back(line)
    };
    match pushed {
        Ok(()) => '.',
        Err(PushFault::Full) => '!',
        Err(PushFault::Memory) => '?',
    }
}

// The byte of the line that is taken; a hyphen where there is none.
fn popped(stack: &mut ProgStack) -> char {
    match stack.pop() {
        Some(line) => char::from(line.bytes().first().copied().unwrap_or(b'?')),
        None => '-',
    }
}

// What comes of a step.
fn step(alloc: Global, stack: &mut ProgStack, step: u8) -> char {
    match step {
        b'a'..=b'z' => push(alloc, stack, step, false),
        b'A'..=b'Z' => push(alloc, stack, step, true),
        b'-' => popped(stack),
        _ => if stack.is_empty() { 'e' } else { 'f' },
    }
}

/// Adds what comes of steps behind lines, and how many lines are left.
pub fn push_steps(into: &mut Report, alloc: Global, case: &str) {
    let mut stack = ProgStack::new(alloc);
    for _ in 0..blank_number(case, 0) {
        push(alloc, &mut stack, b'a', false);
    }
    for byte in blank_word(case, 1).as_bytes() {
        into.push(step(alloc, &mut stack, *byte));
    }
    into.push(' ');
    into.value(&stack.len())
}

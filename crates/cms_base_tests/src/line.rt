// Console, words and options of a line, messages, and the stack.
mod cases;
mod consoles;
mod messages;
pub mod options;
mod stacks;
mod typed_lines;

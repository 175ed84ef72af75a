//! The console, words and options of a line, messages and the program stack.
#![tactic(auto)]

mod choices;
mod console;
mod message;
mod stack;
mod token;
mod typed_line;
mod words;

pub use choices::{
    Accepted, Choice, Chosen, OptionFault, OptionRule, accepted_options, first_left, is_named,
    options,
};
pub use cms_text::{Line, Lines, Word, WordList};
pub use console::{Console, ConsoleLine, LineFault};
pub use message::{Message, write_message};
pub use stack::{ProgStack, PushFault, STACK_LINES};
pub use token::{Token, Tokens};
pub use typed_line::type_line;
pub use words::tokens;

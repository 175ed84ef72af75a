//! The words with which `minidisk` is called, read by `clap`: nine commands, each with its words.
//!
//! [`read_requests`] gives what they ask for, or the first word that is refused; [`Exit`] is how the program ends.
#![tactic(auto)]

mod command;
mod command_form;
mod command_words;
mod exit;
mod fault;
mod lists;
mod names;
mod numbers;
mod request;
mod values;

pub use command_words::read_requests;
pub use exit::Exit;
pub use fault::{Refused, WordFault};
pub use names::{NamePattern, name};
pub use request::{Get, Image, Put, Request, Target};

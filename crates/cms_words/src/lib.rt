//! The words with which the program is called.
//!
//! `cms [-t TURNS] [-z ZONE] [-g NUMBER] UNIT...`, read by `clap` as one simple command: three options that take a value each, and
//! the unit words. [`read_words`] gives what they say, or the first fault by the order of [`WordFault`].
#![tactic(auto)]

mod command;
mod fault;
mod numbers;
mod unit;
mod units;
mod words;

pub use fault::WordFault;
pub use numbers::offset;
pub use unit::{UnitWord, block_size};
pub use units::UnitWords;
pub use words::{Words, read_words, word_texts};

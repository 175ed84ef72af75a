//! The names of files: their parts, formats, modes and patterns, in EBCDIC code page 037.
#![tactic(auto)]

mod character;
mod fault;
mod mode;
mod name;
mod output;
mod pattern;
mod text;

pub use character::is_name_character;
pub use fault::NameFault;
pub use mode::ModeWord;
pub use name::{Format, Name, Part};
pub use output::{OutId, equal_signs};
pub use pattern::Pattern;

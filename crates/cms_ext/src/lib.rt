//! Nucleus extensions: objects that a caller hands in under words, and that answer the lines of these words.
#![tactic(auto)]

mod extension;
mod file_read;
mod file_write;
mod list;
mod question;
mod records;
mod refused_wants;
mod rounds;
mod tally;
mod wants;

pub use extension::{ExtReply, ExtWant, Extension};
pub use list::{ExtList, PushExt};
pub use records::{Record, Records};
pub use rounds::run;
pub use tally::Tally;

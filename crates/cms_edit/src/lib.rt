//! A line editor: the extension EDIT, its buffer and its subcommands.
#![tactic(auto)]

mod buffer;
mod edit;
mod editor;
mod laws;
mod line;
mod place;
mod subcommand;
mod target;

pub use editor::Editor;
pub use laws::laws_of_edits;

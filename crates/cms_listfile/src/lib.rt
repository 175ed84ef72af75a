//! LISTFILE: files are listed, to the console, onto the program stack or into a procedure.
#![tactic(auto)]

mod columns;
mod command;
mod found_lines;
mod line;
mod listfile;
mod procedure;

pub use columns::Columns;
pub use command::run_listfile;

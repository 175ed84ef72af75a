//! What the commands on files share: identifiers in the words of a line, searches and their refusals, updates, records that are gathered
//! for a file, and lines that are stacked.
#![tactic(auto)]

mod each;
mod gathered;
mod identifier;
mod mode_three;
mod open_files;
mod refusals;
mod shown;
mod stack;
mod taken;
mod told;
mod update;
mod write;

pub use each::{FileUpdate, update_each, update_taken};
pub use gathered::Gathered;
pub use identifier::{
    FileInput, NameChoice, exec_kind, file_input, full_name, name_choice, output_name,
};
pub use mode_three::{consume, consume_last, is_consumed};
pub use open_files::{OpenFile, open_found};
pub use refusals::{NO_FILE, refuse_unfound};
pub use shown::{file_text, tell_updated};
pub use stack::{StackEnd, has_room, stack_lines};
pub use taken::{Listed, TakenFiles, find_written};
pub use told::{ToldFile, info_found, info_named, stored_found, told_named};
pub use update::{Updated, stop_exists, stop_search, stopped, update_disk};
pub use write::{end_writing, write_file, write_last};

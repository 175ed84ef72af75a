//! The commands of `minidisk`: files of an image are listed, handed out, put in, erased and renamed, images are made, checked and shown.
//!
//! [`work`] does what one request asks for, on a world that has no unit yet and a host with its files.
#![tactic(auto)]

mod block_size;
mod change;
mod check;
mod chosen_files;
mod clock;
mod command;
mod directory;
mod dump;
mod entries;
mod fault;
mod get;
mod handed_file;
mod host_records;
mod listing;
mod new_image;
mod opened_image;
mod output;
mod put;
mod status;

pub use command::work;
pub use status::Status;

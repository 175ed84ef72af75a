//! Host files over std: [`HostFiles`] opens, reads, writes and names real files, and says notes on standard error.
#![tactic(auto)]

mod draft;
mod host_files;
mod notes;
mod source;

pub use host_files::HostFiles;

//! Minidisks: files by their names, on the units of a world.
#![tactic(auto)]

mod addition;
mod change;
mod cursor;
mod draft;
mod empty_minidisk;
mod fault;
mod get;
mod laws;
mod minidisk;
mod put;
mod unit;

pub use cms_edf::{Draft, DraftShape, FileData, FileInfo, OpenFault, Space, Stored};
pub use cursor::Cursor;
pub use draft::{put_record, put_run};
pub use fault::{AccessFault, DiskFault};
pub use laws::disk_laws;
pub use minidisk::Minidisk;
pub use unit::UnitInfo;
